// The check of a form (document 01, "Opening and the compiled form"): one pass over the list.
#![tactic(auto)]

ghost use Rattle.std.specs.Prelude.{◌≡◌, ◌&&◌, true, false, MatchOption};
ghost use Rattle.lists.specs.Each.{all};
ghost use Rattle.automaton.specs.Form.{is_head, is_letter, is_arc, ordered, valid_form};

use form_words::{Form, letters};

// Is the word a head: of 1 to 127 letters, over 1 to 95 characters, with no unnamed bit?
fn is_head(w: u32) -> bool
    ensures { result ≡ is_head w }
{
    let l = w % 0x100;
    let k = w / 0x10000 % 0x100;
    w == 0x10000000 + k * 0x10000 + w / 0x100 % 2 * 0x100 + l
        && (1..=127).contains(&l)
        && (1..=95).contains(&k)
}

// Is the word a letter over an alphabet of k characters?
fn is_letter(k: u32, w: u32) -> bool
    ensures { result ≡ is_letter k w }
{
    let x = w % 0x100;
    w == 0x20000000 + w / 0x200 % 2 * 0x200 + w / 0x100 % 2 * 0x100 + x && (1..=k).contains(&x)
}

// Are the words letters over an alphabet of k characters?
fn are_letters(k: u32, words: &[u32]) -> bool
    ensures { result ≡ all (is_letter k) words.now }
{
    words.iter().all(|&w| is_letter(k, w))
}

// Is the word an arc between two of l letters? Each test is made, so that several words can be tested at once.
fn is_arc(l: u32, w: u32) -> bool
    ensures { result ≡ is_arc l w }
{
    let i = w / 0x100 % 0x100;
    let j = w % 0x100;
    (w == 0x30000000 + i * 0x100 + j) & (1 <= i) & (i <= l) & (1 <= j) & (j <= l)
}

// Are the words arcs, in order? One pass without an early exit, so that several words can be tested at once.
#[tactic(auto, using(crate::specs::ChecksLaws::beyond_none, crate::specs::ChecksLaws::beyond_more))]
fn are_arcs(l: u32, words: &[u32]) -> bool
    ensures { result ≡ (all (is_arc l) words.now && ordered words.now) }
{
    let mut pass = true;
    let mut last: u32 = 0;
    for &w in words {
        pass &= is_arc(l, w) & (last < w);
        last = w;
    }
    pass
}

// Is the list a valid form? (Public and named in docs/TRACE.md, so it stays a test; `checked` gives the form.)
#[tactic(auto, using(crate::specs::ChecksLaws::valid_empty, crate::specs::ChecksLaws::valid_head, crate::specs::ChecksLaws::valid_short))]
pub fn valid(form: &[u32]) -> bool
    ensures { result ≡ valid_form form.now }
{
    let Some((&head, rest)) = form.split_first() else {
        return false;
    };
    let l = letters(form);
    let k = head / 0x10000 % 0x100;
    if !is_head(head) || rest.len() < l {
        return false;
    }
    are_letters(k, &rest[..l]) && are_arcs(head % 0x100, &rest[l..])
}

// The list as a form, if it is a valid one.
pub fn checked(words: &[u32]) -> Option<Form>
    ensures { MatchOption result (valid_form words.now ≡ false) (λ form. (valid_form words.now ≡ true) × (form.words ≡ words.entry)) }
{
    if valid(words) {
        Some(Form::new(words))
    } else {
        None
    }
}
