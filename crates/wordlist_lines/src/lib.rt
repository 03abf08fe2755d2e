// Which word lists are turned away (document 02, T-05): by their bytes, by their lines, and by characters without a label.
#![tactic(auto)]

ghost use Rattle.std.specs.Prelude.{◌≡◌, length, MatchOption};
ghost use Rattle.lists.specs.Lists.{any};
ghost use Rattle.lists.specs.Each.{all};
ghost use Rattle.text_lines.specs.Places.{LineEnd};
ghost use Rattle.wordlist.specs.Words.{list_byte, list_fault, strange};
ghost use Rattle.wordlist_lines.specs.Again.{Again};
ghost use Rattle.wordlist_lines.specs.FirstLine.{FirstLine};

use alphabet::count_labels;
use text_lines::line_end;

// A newline, or 32 to 126?
fn is_list_byte(b: u8) -> bool
    ensures { result ≡ list_byte b }
{
    b == b'\n' || (32..=126).contains(&b)
}

// Is each byte a newline, or 32 to 126?
pub fn are_list_bytes(list: &[u8]) -> bool
    ensures { result ≡ all list_byte list.now }
{
    list.iter().all(|&b| is_list_byte(b))
}

// Is the byte no newline, and no character with a label?
fn is_strange(alphabet: &[u8], b: u8) -> bool
    ensures { result ≡ strange alphabet.now b }
{
    b != b'\n' && count_labels(alphabet, b) == 0
}

// Is there such a byte in the list?
pub fn has_strange(alphabet: &[u8], list: &[u8]) -> bool
    ensures { result ≡ any (strange alphabet.now) list.now }
{
    list.iter().any(|&b| is_strange(alphabet, b))
}

// The first line, and what comes after its newline, if a newline closes it.
fn first_line(text: &[u8]) -> Option<(&[u8], &[u8])>
    ensures { MatchOption result (LineEnd text.now 0 (length text.now))
        (λ r. FirstLine text.now r.0.now r.1.now) }
{
    let end = line_end(text, 0);
    if end == text.len() {
        return None;
    }
    Some((&text[..end], &text[end + 1..]))
}

// Is the line one of the lines of the list?
fn comes_again(line: &[u8], list: &[u8]) -> bool
    ensures { Again line.now list.now result }
{
    let mut rest = list;
    while let Some((next, after)) = first_line(rest) {
        if line == next {
            return true;
        }
        rest = after;
    }
    false
}

// Is there an empty line, a line that comes again, or a last line without its newline? (Refusal 21.)
pub fn has_fault(list: &[u8]) -> bool
    ensures { result ≡ list_fault list.now }
{
    let mut rest = list;
    while let Some((line, after)) = first_line(rest) {
        if line.is_empty() || comes_again(line, after) {
            return true;
        }
        rest = after;
    }
    !rest.is_empty()
}
