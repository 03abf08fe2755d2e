// A line of the input: its fields, and the numbers in them.
ghost use Rattle.std.specs.Prelude.{◌≤◌};

// The bytes of a line, without the newline.
#[derive(Clone, Copy)]
pub struct Line<'a> {
    pub bytes: &'a [u8],
}

impl<'a> Line<'a> {
    // The letter that says what to do, or 0.
    pub fn kind(self) -> u8 {
        text::peek(self.bytes, 0)
    }

    // Field k, as it stands in the line.
    pub fn field(self, k: usize) -> &'a [u8] {
        vectors_fields::field(self.bytes, k)
    }

    // The number in field k.
    pub fn size(self, k: usize) -> usize {
        vectors_fields::size(self.field(k))
    }

    // The number in field k, at most `most`: the length of a part of memory.
    pub fn room(self, k: usize, most: usize) -> usize
        ensures { result ≤ most }
    {
        vectors_fields::room(self.field(k), most)
    }

    // The labels in field k, as many as there is memory for.
    pub fn labels<'m>(self, k: usize, memory: &'m mut [u8]) -> &'m [u8] {
        let n = vectors_fields::labels(self.field(k), memory);
        &memory[..n]
    }

    // The costs in field k, in the same way.
    pub fn costs<'m>(self, k: usize, memory: &'m mut [u32]) -> &'m [u32] {
        let n = vectors_fields::numbers(self.field(k), false, memory);
        &memory[..n]
    }

    // The words of a form in field k, in hexadecimal, in the same way.
    pub fn words<'m>(self, k: usize, memory: &'m mut [u32]) -> &'m [u32] {
        let n = vectors_fields::numbers(self.field(k), true, memory);
        &memory[..n]
    }
}
