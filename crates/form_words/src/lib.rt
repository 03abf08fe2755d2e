// A compiled form (document 01, "Opening and the compiled form"): the fields of its words, and what they say of its automaton.
#![tactic(auto)]

ghost use Rattle.std.specs.Prelude.{◌≡◌, ◌<◌, ◌≤◌, length, get_or};
ghost use Rattle.automaton.specs.Form.{source as source_of, target as target_of, letters_of, alphabet_of, label_of, follow_of, ends_of};
ghost use Rattle.automaton.specs.Valid.{Valid};
ghost use Rattle.form_words.specs.Unique.{valid-prop};

// L, the number of letters, as the head of any list says it.
pub fn letters(form: &[u32]) -> usize
    requires { 0 < length form.now }
    ensures { result ≡ letters_of form.now }
{
    (form[0] % 0x100) as usize
}

// The label of letter j, as the word at j of any list says it.
pub fn label(form: &[u32], j: usize) -> usize
    requires { j < length form.now }
    ensures { result ≡ label_of form.now j }
{
    (form[j] % 0x100) as usize
}

// The words of a valid form.
#[derive(Clone, Copy)]
pub struct Form<'a> {
    pub words: &'a [u32],
    ghost valid: { Valid words.now } by { valid-prop words.now },
}

impl<'a> Form<'a> {
    // The form whose words these are.
    pub fn new(words: &'a [u32]) -> Form<'a>
        requires { Valid words.now }
        ensures { result.words ≡ words.entry }
    {
        Form { words }
    }

    // How many words the form has.
    pub fn len(self) -> usize
        ensures { result ≡ length self.entry.words.now }
    {
        self.words.len()
    }

    // L, the number of letters.
    pub fn letters(self) -> usize
        ensures { result ≡ letters_of self.entry.words.now }
    {
        letters(self.words)
    }

    // K, the size of the alphabet.
    pub fn alphabet(self) -> usize
        ensures { result ≡ alphabet_of self.entry.words.now }
    {
        (self.words[0] / 0x10000 % 0x100) as usize
    }

    // The label of letter j.
    pub fn label(self, j: usize) -> usize
        requires { j < length self.words.now }
        ensures { result ≡ label_of self.entry.words.now j }
    {
        label(self.words, j)
    }

    // May letter j be first?
    #[tactic(auto, using(automaton::proofs::ValidLaws::may_be_first))]
    pub fn may_be_first(self, j: usize) -> bool
        requires { (1 ≤ j) × (j ≤ letters_of self.words.now) }
        ensures { result ≡ follow_of self.entry.words.now 0 j }
    {
        self.words[j] / 0x100 % 2 == 1
    }

    // May a word end after letter i, or be empty if i is 0?
    #[tactic(auto, using(automaton::proofs::ValidLaws::may_be_last, automaton::proofs::ValidLaws::accepts_empty))]
    pub fn may_end(self, i: usize) -> bool
        requires { i ≤ letters_of self.words.now }
        ensures { result ≡ ends_of self.entry.words.now i }
    {
        if i == 0 {
            return self.words[0] / 0x100 % 2 == 1;
        }
        self.words[i] / 0x200 % 2 == 1
    }

    // The source of the arc word at n.
    pub fn source(self, n: usize) -> usize
        requires { n < length self.words.now }
        ensures { result ≡ source_of (get_or self.entry.words.now n 0) }
    {
        (self.words[n] / 0x100 % 0x100) as usize
    }

    // The target of the arc word at n.
    pub fn target(self, n: usize) -> usize
        requires { n < length self.words.now }
        ensures { result ≡ target_of (get_or self.entry.words.now n 0) }
    {
        (self.words[n] % 0x100) as usize
    }
}
