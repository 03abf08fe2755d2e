// What Decode and Read answer. Judge answers yes or no, a `bool`, as Preview is to (document 02, T-10); each call answers its refusal in place
// of these.
#![tactic(auto)]

// What Decode answers: the price of the path and the length of its word.
#[derive(Clone, Copy, Debug, PartialEq, Eq)]
pub struct Decoded {
    pub price: u32,
    pub length: usize,
}

// What Read answers: the price of the path, the length of its word and that of the form.
#[derive(Clone, Copy, Debug, PartialEq, Eq)]
pub struct Reading {
    pub price: u32,
    pub length: usize,
    pub form: usize,
}
