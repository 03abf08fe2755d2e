// The repetition at a place of a text (document 01, "Repetitions"): how many words it joins, and where it ends.
#![tactic(auto)]

ghost use Rattle.std.specs.Prelude.{◌≡◌, ◌+◌, ◌<◌, ◌≤◌, length, drop};
ghost use Rattle.regex_tree.specs.Repetition.{number as number_of, counts as counts_of, sign as sign_of, repetition as repetition_of};
ghost use Rattle.regex_repetition.specs.Answers.{repeats_of, number_found, ranged, counted, braced, modified};

use refusal::Refusal;
use text::{find, peek};

// A repetition of at least `least` words, and at most `most` if there is a limit; it ends at `end`.
#[derive(Clone, Copy)]
pub struct Repeats {
    pub least: usize,
    pub most: Option<usize>,
    pub end: usize,
}

// The number that these digits make: 1 to 3 digits, at most 255.
#[tactic(auto, using(crate::specs::CountLaws::digits_none, crate::specs::CountLaws::digits_more, crate::specs::CountLaws::number_empty, crate::specs::CountLaws::number_long, crate::specs::CountLaws::number_low, crate::specs::CountLaws::number_high, crate::specs::CountLaws::number_much, crate::specs::CountLaws::number_is))]
fn number(digits: &[u8]) -> Result<usize, Refusal>
    ensures { result ≡ number_found (number_of digits.now) }
{
    if digits.is_empty() || 3 < digits.len() {
        return Err(Refusal::Count);
    }
    let mut n = 0;
    for &b in digits {
        if !b.is_ascii_digit() {
            return Err(Refusal::Count);
        }
        n = 10 * n + usize::from(b - b'0');
        if 255 < n {
            return Err(Refusal::Count);
        }
    }
    Ok(n)
}

// From n to m words; `end` is the place after the braces.
#[tactic(auto, using(crate::specs::CountLaws::ranged_order, crate::specs::CountLaws::ranged_none, crate::specs::CountLaws::ranged_is))]
fn range(n: usize, m: usize, end: usize) -> Result<Repeats, Refusal>
    requires { m ≤ 255 }
    ensures { result ≡ ranged n m end }
{
    if m < n || m < 1 {
        return Err(Refusal::Count);
    }
    Ok(Repeats {
        least: n,
        most: Some(m),
        end,
    })
}

// The count inside the braces; `end` is the place after them.
#[tactic(auto, using(crate::specs::CountLaws::number_most, crate::specs::CountLaws::counts_one, crate::specs::CountLaws::counts_no_number, crate::specs::CountLaws::counts_bad, crate::specs::CountLaws::counts_two, crate::specs::CountLaws::counts_no_most, crate::specs::CountLaws::counts_onward))]
fn counts(inside: &[u8], end: usize) -> Result<Repeats, Refusal>
    ensures { result ≡ counted (counts_of inside.now) end }
{
    let comma = find(inside, 0, b',');
    if inside.len() <= comma {
        let n = number(inside)?;
        return range(n, n, end);
    }
    let least = number(&inside[..comma])?;
    let rest = &inside[comma + 1..];
    if rest.is_empty() {
        return Ok(Repeats {
            least,
            most: None,
            end,
        });
    }
    let most = number(rest)?;
    range(least, most, end)
}

// The repetition in braces that begins here.
#[tactic(auto, using(crate::specs::SignLaws::braces_unclosed, crate::specs::SignLaws::braces_closed))]
fn braces(text: &[u8], at: usize) -> Result<Repeats, Refusal>
    requires { at < length text.now }
    ensures { result ≡ braced text.now at }
{
    let first = at + 1;
    let e = find(text, first, b'}');
    if text.len() <= e {
        return Err(Refusal::Count);
    }
    counts(&text[first..e], e + 1)
}

// The repetition that begins here, without the modifier.
#[tactic(auto, using(crate::specs::SignLaws::sign_star, crate::specs::SignLaws::sign_plus, crate::specs::SignLaws::sign_optional, crate::specs::SignLaws::sign_braces, crate::specs::SignLaws::sign_none, text::proofs::TextLaws::byte_is))]
fn sign(text: &[u8], at: usize) -> Result<Repeats, Refusal>
    ensures { result ≡ repeats_of text.now (sign_of (drop at text.now)) }
{
    match peek(text, at) {
        b'*' => Ok(Repeats {
            least: 0,
            most: None,
            end: at + 1,
        }),
        b'+' => Ok(Repeats {
            least: 1,
            most: None,
            end: at + 1,
        }),
        b'?' => Ok(Repeats {
            least: 0,
            most: Some(1),
            end: at + 1,
        }),
        b'{' => braces(text, at),
        _ => Err(Refusal::MisplacedSign),
    }
}

// The place after one `?`, if there is one here.
#[tactic(auto, using(crate::specs::SignLaws::modified_is, crate::specs::SignLaws::modified_not, text::proofs::TextLaws::byte_is))]
fn after_modifier(text: &[u8], at: usize) -> usize
    ensures { result ≡ modified text.now at }
{
    if peek(text, at) == b'?' {
        return at + 1;
    }
    at
}

// The repetition that begins here: one `?` may follow it.
#[tactic(auto, using(crate::specs::SignLaws::repetition_refused, crate::specs::SignLaws::repetition_is))]
pub fn repetition(text: &[u8], at: usize) -> Result<Repeats, Refusal>
    ensures { result ≡ repeats_of text.now (repetition_of (drop at text.now)) }
{
    let mut found = sign(text, at)?;
    found.end = after_modifier(text, found.end);
    Ok(found)
}
