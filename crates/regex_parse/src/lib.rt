// The checking parser (document 01, "Expression text"): the leftmost of refusals 4 to 8 and 19, or how many letters the expression opens
// into, counted up to 128. The text may have any bytes. Alternation, branch, piece and group call each other; each call has less text to
// parse, or the same text and the next closer part.
// A text and a place stay two parameters: docs/ names these functions at a place of the text, and the place may be the text's end or past it.
#![tactic(auto)]

ghost use Rattle.std.specs.Prelude.{◌≡◌, drop};
ghost use Rattle.regex_tree.specs.Parse.{parse, m_alternation, m_branch, m_piece, m_group};
ghost use Rattle.regex_set.specs.Answers.{part_of};
ghost use Rattle.regex_parse.specs.Parsed.{parsed};

use refusal::Refusal;
use regex_count::{added, closed, is_end, is_repeated, repeated};
use regex_repetition::repetition;
use regex_set::{Part, set};
use text::peek;

// Branches with `|` between them.
#[cycle(alternation_branch_group_piece)]
pub fn alternation(alphabet: &[u8], text: &[u8], at: usize, room: usize) -> Result<Part, Refusal>
    ensures { result ≡ part_of alphabet.now text.now (parse alphabet.now m_alternation room (drop at text.now)) }
{
    let first = branch(alphabet, text, at, room)?;
    if peek(text, first.end) != b'|' {
        return Ok(first);
    }
    added(
        first.letters,
        alternation(alphabet, text, first.end + 1, room),
    )
}

// Pieces joined.
#[cycle(alternation_branch_group_piece)]
pub fn branch(alphabet: &[u8], text: &[u8], at: usize, room: usize) -> Result<Part, Refusal>
    ensures { result ≡ part_of alphabet.now text.now (parse alphabet.now m_branch room (drop at text.now)) }
{
    let first = piece(alphabet, text, at, room)?;
    if is_end(text, first.end) {
        return Ok(first);
    }
    added(first.letters, branch(alphabet, text, first.end, room))
}

// A group or a set, repeated or not.
#[cycle(alternation_branch_group_piece)]
pub fn piece(alphabet: &[u8], text: &[u8], at: usize, room: usize) -> Result<Part, Refusal>
    ensures { result ≡ part_of alphabet.now text.now (parse alphabet.now m_piece room (drop at text.now)) }
{
    let inner = group(alphabet, text, at, room)?;
    if is_repeated(text, inner.end) {
        return repeated(inner.letters, repetition(text, inner.end));
    }
    Ok(inner)
}

// A set, or an alternation in parentheses, where `room` more groups may be opened.
#[cycle(alternation_branch_group_piece)]
pub fn group(alphabet: &[u8], text: &[u8], at: usize, room: usize) -> Result<Part, Refusal>
    ensures { result ≡ part_of alphabet.now text.now (parse alphabet.now m_group room (drop at text.now)) }
{
    if peek(text, at) != b'(' {
        return set(alphabet, text, at);
    }
    if room == 0 {
        return Err(Refusal::Depth);
    }
    closed(text, alternation(alphabet, text, at + 1, room - 1))
}

// The whole text, with at most 16 groups open together: its letters, counted up to 128.
pub fn expression(alphabet: &[u8], text: &[u8]) -> Result<usize, Refusal>
    ensures { result ≡ parsed alphabet.now text.now }
{
    let whole = alternation(alphabet, text, 0, 16)?;
    if whole.end < text.len() {
        return Err(Refusal::MisplacedSign);
    }
    Ok(whole.letters)
}
