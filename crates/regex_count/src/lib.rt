// The letters of a part of the text, counted up to 128: parts joined, repeated, in parentheses; and whether a branch ends, or a repetition
// begins, at a place (document 01, "Expression text"). The text may have any bytes.
// A text and a place stay two parameters: docs/ names these functions at a place of the text, and the place may be the text's end or past it.
#![tactic(auto)]

ghost use Rattle.std.specs.Prelude.{◌≡◌, ◌+◌, ◌*◌, drop};
ghost use Rattle.regex_tree.specs.Tree.{onward};
ghost use Rattle.regex_tree.specs.Letters.{copies_of};
ghost use Rattle.regex_tree.specs.Few.{few};
ghost use Rattle.regex_tree.specs.Repetition.{repeats as repeats_here};
ghost use Rattle.regex_tree.specs.Parse.{ends};
ghost use Rattle.regex_count.specs.Parts.{add, repeated as repeated_of, closed as closed_of};

use refusal::Refusal;
use regex_repetition::Repeats;
use regex_set::{Part, capped_at_128};
use text::{one_of, peek};

// n + m, up to 128.
fn sum(n: usize, m: usize) -> usize
    ensures { result ≡ few (n + m) }
{
    capped_at_128(n.saturating_add(m))
}

// k × n, up to 128.
fn product(k: usize, n: usize) -> usize
    ensures { result ≡ few (k * n) }
{
    capped_at_128(k.saturating_mul(n))
}

// How many copies `{n,}` opens into.
pub fn copies(n: usize) -> usize
    ensures { result ≡ copies_of (onward n) }
{
    n.max(1)
}

// `added`, `repeated` and `closed` take a refusal too and pass it on, as they always did: a `Part` alone would ask more of callers.
// A part that goes on after n letters.
pub fn added(n: usize, rest: Result<Part, Refusal>) -> Result<Part, Refusal>
    ensures { result ≡ add n rest }
{
    let rest = rest?;
    Ok(Part {
        letters: sum(n, rest.letters),
        ..rest
    })
}

// A part of n letters, repeated.
pub fn repeated(n: usize, times: Result<Repeats, Refusal>) -> Result<Part, Refusal>
    ensures { result ≡ repeated_of n times }
{
    let times = times?;
    let k = times.most.unwrap_or(copies(times.least));
    Ok(Part {
        end: times.end,
        letters: product(k, n),
    })
}

// A group: its content, and the `)` after it.
pub fn closed(text: &[u8], content: Result<Part, Refusal>) -> Result<Part, Refusal>
    ensures { result ≡ closed_of text.now content }
{
    let content = content?;
    if peek(text, content.end) != b')' {
        return Err(Refusal::MisplacedSign);
    }
    Ok(Part {
        end: content.end + 1,
        ..content
    })
}

// Does a branch end here?
pub fn is_end(text: &[u8], at: usize) -> bool
    ensures { result ≡ ends (drop at text.now) }
{
    text.len() <= at || one_of(b"|)", text[at])
}

// Does a repetition begin here?
pub fn is_repeated(text: &[u8], at: usize) -> bool
    ensures { result ≡ repeats_here (drop at text.now) }
{
    one_of(b"*+?{", peek(text, at))
}
