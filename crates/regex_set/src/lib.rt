// The set at a place of an expression's text (document 01, "Expression text"): an ordinary character, `.` or a bracket. Each answer is that
// of `regex_tree`'s definition on the text from that place on. The text may have any bytes.
// A text and a place stay two parameters: docs/ names these functions at a place of the text, and the place may be the text's end or past it.
#![tactic(auto)]

ghost use Rattle.std.specs.Prelude.{◌≡◌, ◌+◌, ◌<◌, length, drop};
ghost use Rattle.regex_tree.specs.Tree.{member as member_of};
ghost use Rattle.regex_tree.specs.Letters.{labels_of};
ghost use Rattle.regex_tree.specs.Few.{few};
ghost use Rattle.regex_tree.specs.Sets.{special, escaped, a_set};
ghost use Rattle.regex_bracket.specs.Answers.{end_of};
ghost use Rattle.regex_set.specs.Answers.{part_of, set_tree, SetAt, set_at};

use refusal::Refusal;
use regex_bracket::{bracket_end, bracket_has};
use text::{one_of, peek};

// A part of the text: where it ends, and how many letters it opens into, counted up to 128.
#[derive(Clone, Copy)]
pub struct Part {
    pub end: usize,
    pub letters: usize,
}

// Is the byte a sign that is ordinary only after a `\`?
fn is_special(b: u8) -> bool
    ensures { result ≡ special b }
{
    one_of(b"^.[$()|*+?{\\", b)
}

// Where the escaped character ends whose `\` is here.
#[tactic(auto, using(crate::specs::SetsLaws::escape_ends, crate::specs::SetsLaws::escape_refused))]
fn escape_end(text: &[u8], at: usize) -> Result<usize, Refusal>
    requires { at < length text.now }
    ensures { result ≡ end_of text.now (escaped (drop at text.now) (drop (at + 1) text.now)) }
{
    if is_special(peek(text, at + 1)) {
        return Ok(at + 2);
    }
    Err(Refusal::MisplacedSign)
}

// Where the set that begins here ends, or why there is none.
#[tactic(auto, using(crate::specs::SetsLaws::end_none, crate::specs::SetsLaws::end_escape, crate::specs::SetsLaws::end_dot, crate::specs::SetsLaws::end_bracket, crate::specs::SetsLaws::end_special, crate::specs::SetsLaws::end_alone))]
pub fn set_end(text: &[u8], at: usize) -> Result<usize, Refusal>
    ensures { result ≡ end_of text.now (a_set (drop at text.now)) }
{
    if text.len() <= at {
        return Err(Refusal::MisplacedSign);
    }
    match text[at] {
        b'\\' => escape_end(text, at),
        b'.' => Ok(at + 1),
        b'[' => bracket_end(text, at),
        b if is_special(b) => Err(Refusal::MisplacedSign),
        _ => Ok(at + 1),
    }
}

// Is the byte a member of the set that begins here?
#[tactic(auto, using(crate::specs::SetsLaws::set_within, crate::specs::SetsLaws::member_escape, crate::specs::SetsLaws::member_dot, crate::specs::SetsLaws::bracket_found, crate::specs::SetsLaws::member_bracket, crate::specs::SetsLaws::member_byte))]
pub fn member(text: &[u8], at: usize, b: u8) -> bool
    requires { SetAt text.now at }
    ensures { result ≡ member_of (set_at text.now at) b }
{
    match peek(text, at) {
        b'\\' => peek(text, at + 1) == b,
        b'.' => true,
        b'[' => bracket_has(text, at, b),
        c => c == b,
    }
}

// How many labels of the alphabet the set that begins here has.
#[tactic(auto, using(crate::specs::SetsLaws::labels_counted))]
fn count_labels(alphabet: &[u8], text: &[u8], at: usize) -> usize
    requires { SetAt text.now at }
    ensures { result ≡ labels_of alphabet.now (set_at text.now at) }
{
    alphabet.iter().filter(|&&b| member(text, at, b)).count()
}

// n, or 128 if it is more.
pub fn capped_at_128(n: usize) -> usize
    ensures { result ≡ few n }
{
    n.min(128)
}

// The set that begins here, as a part of the text; refusal 8 if no label of the alphabet is in it.
#[tactic(auto, using(crate::specs::SetsLaws::ends_set, crate::specs::SetsLaws::part_foreign, crate::specs::SetsLaws::part_labels))]
pub fn set(alphabet: &[u8], text: &[u8], at: usize) -> Result<Part, Refusal>
    ensures { result ≡ part_of alphabet.now text.now (set_tree alphabet.now (drop at text.now)) }
{
    let end = set_end(text, at)?;
    let letters = count_labels(alphabet, text, at);
    if letters == 0 {
        return Err(Refusal::Foreign);
    }
    Ok(Part {
        end,
        letters: capped_at_128(letters),
    })
}
