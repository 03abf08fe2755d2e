// The bytes of a text: the byte at a place, whether a byte is one of some signs, where a sign occurs next. A text may have any bytes.
#![tactic(auto)]

ghost use Rattle.std.specs.Prelude.{◌≡◌, ◌+◌, get_or, drop};
ghost use Rattle.text.specs.Text.{one_of};
ghost use Rattle.text.specs.Places.{until};

// The byte at a place, or 0 past the end. (No `Option`: contracts of the crates above say `get_or`, 0 there.)
pub fn peek(text: &[u8], at: usize) -> u8
    ensures { result ≡ get_or text.now at 0 }
{
    text.get(at).copied().unwrap_or(0)
}

// Is the byte one of these signs?
pub fn one_of(signs: &[u8], b: u8) -> bool
    ensures { result ≡ one_of signs.now b }
{
    signs.contains(&b)
}

// How many bytes are before the first such sign.
fn before(text: &[u8], sign: u8) -> usize
    ensures { result ≡ until sign text.now }
{
    text.iter().position(|&b| b == sign).unwrap_or(text.len())
}

// Where the first such sign is, from a place on; past the end if there is none. (No `Option`: `until` gives a number of bytes, and callers go
// on from that place.)
pub fn find(text: &[u8], from: usize, sign: u8) -> usize
    ensures { result ≡ from + until sign (drop from text.now) }
{
    match text.get(from..) {
        Some(rest) => from + before(rest, sign),
        None => from,
    }
}
