// The bracket at a place of a text (document 01, "Brackets"; document 02, T-01): where it ends, and whether a byte is a member.
// A text and a place stay two parameters: docs/ names `bracket_end` and `bracket_has`, so what these take stays.
#![tactic(auto)]

ghost use Rattle.std.specs.Prelude.{◌≡◌, true, ◌<◌, ◌≤◌, length, drop};
ghost use Rattle.lists.specs.Options.{is_some};
ghost use Rattle.regex_tree.specs.Sets.{closed};
ghost use Rattle.regex_tree.specs.Tree.{member as member_of};
ghost use Rattle.regex_bracket.specs.Answers.{is_found, end_of, set_of, opened, after, beyond, formed, bracket_at};

use refusal::Refusal;
use regex_items::{are_items, are_known, has, is_reserved};
use regex_signs::{closes, sign_end};
use text::peek;

// Where the first sign inside a bracket is: after `[` or `[^`.
#[tactic(auto, using(crate::specs::BracketLaws::opened_except, crate::specs::BracketLaws::opened_only))]
fn opening(text: &[u8], at: usize) -> usize
    requires { at < length text.now }
    ensures { result ≡ opened text.now at }
{
    if peek(text, at + 1) == b'^' {
        return at + 2;
    }
    at + 1
}

// Where the bracket is closed; past the end if it is not. The loop stays a `while`: where the next sign begins is known only from this one,
// and an iterator over places would be this same loop in its `next`.
// (No Option: the loop ends there by itself, and the test of its answer is `e < text.len()`.)
#[tactic(auto, using(crate::specs::ClosingLaws::after_first, crate::specs::ClosingLaws::after_here, crate::specs::ClosingLaws::after_past, crate::specs::ClosingLaws::after_end, regex_signs::specs::SignsLaws::sign_width_some))]
fn closing(text: &[u8], first: usize) -> usize
    ensures { (first ≤ result) × (beyond text.now result ≡ after (closed true (drop first text.now))) }
{
    let mut i = first;
    while i < text.len() {
        if closes(text, first, i) {
            return i;
        }
        i = sign_end(text, i);
    }
    i
}

// Is the bracket closed, with well-formed items inside and without `[.` and `[=`? Its closing `]` is at e, or e is past the end.
#[tactic(auto, using(crate::specs::ClosingLaws::formed_open, crate::specs::ClosingLaws::formed_reserved, crate::specs::ClosingLaws::formed_closing, crate::specs::ClosingLaws::formed_left))]
fn is_well_formed(text: &[u8], first: usize, e: usize) -> bool
    requires { (first ≤ e) × (beyond text.now e ≡ after (closed true (drop first text.now))) }
    ensures { result ≡ is_some (formed (closed true (drop first text.now))) }
{
    e < text.len() && !is_reserved(&text[first..e]) && are_items(text, first)
}

// Where the bracket that begins here ends, or why it is turned away.
#[tactic(auto, using(crate::specs::BracketLaws::bracket_spoilt, crate::specs::BracketLaws::bracket_left, crate::specs::BracketLaws::bracket_closing, crate::specs::BracketLaws::bracket_end, crate::specs::BracketLaws::bracket_unknown, crate::specs::BracketLaws::bracket_ends))]
pub fn bracket_end(text: &[u8], at: usize) -> Result<usize, Refusal>
    requires { at < length text.now }
    ensures { result ≡ end_of text.now (bracket_at text.now at) }
{
    let first = opening(text, at);
    let e = closing(text, first);
    if !is_well_formed(text, first, e) {
        return Err(Refusal::Bracket);
    }
    if are_known(text, first) {
        return Ok(e + 1);
    }
    Err(Refusal::ClassName)
}

// Is the byte a member of the bracket that begins here?
#[tactic(auto, using(crate::specs::BracketLaws::bracket_closing, crate::specs::BracketLaws::good_formed, crate::specs::BracketLaws::good_known, crate::specs::BracketLaws::bracket_only, crate::specs::BracketLaws::bracket_except))]
pub fn bracket_has(text: &[u8], at: usize, b: u8) -> bool
    requires { (at < length text.now) × (is_found (bracket_at text.now at) ≡ true) }
    ensures { result ≡ member_of (set_of (bracket_at text.now at)) b }
{
    let first = opening(text, at);
    if first == at + 1 {
        return has(text, first, b);
    }
    !has(text, first, b)
}
