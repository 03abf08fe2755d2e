// Bytes, and numbers in decimal, into lent memory (document 01, "Output in full").
#![tactic(auto)]

ghost use Rattle.std.specs.Prelude.{◌≡◌, ◌+◌, ◌≤◌, length};
ghost use Rattle.lists.specs.Stored.{Stored};
ghost use Rattle.sheet_decimal.specs.Numerals.{decimal};

// Lent memory that is written from the front on, and how many bytes of it are written.
#[derive(Drop)]
pub struct Output<'a> {
    pub memory: &'a mut [u8],
    pub len: usize,
}

impl<'a> Output<'a> {
    // Nothing is written yet.
    pub fn new(memory: &'a mut [u8]) -> Output<'a>
        ensures same_memory { result.memory.ghost_name ≡ memory.entry.ghost_name }
        ensures unchanged { result.memory.now ≡ memory.old }
        ensures empty { result.len ≡ 0 }
    {
        Output { memory, len: 0 }
    }

    // Writes bytes as they are.
    pub fn put_bytes(&mut self, bytes: &[u8])
        requires { self.old.len + length bytes.now ≤ length self.old.memory.now }
        ensures same_memory { self.new.memory.ghost_name ≡ self.old.memory.ghost_name }
        ensures stored { Stored bytes.now self.old.len self.old.memory.now self.new.memory.now self.new.len }
    {
        let end = self.len + bytes.len();
        self.memory[self.len..end].copy_from_slice(bytes);
        self.len = end;
    }

    // Writes a number in decimal.
    pub fn put_decimal(&mut self, x: u32)
        requires { self.old.len + length (decimal x) ≤ length self.old.memory.now }
        ensures same_memory { self.new.memory.ghost_name ≡ self.old.memory.ghost_name }
        ensures stored { Stored (decimal x) self.old.len self.old.memory.now self.new.memory.now self.new.len }
    {
        self.put_bytes(itoa::Buffer::new().format(x).as_bytes())
    }
}
