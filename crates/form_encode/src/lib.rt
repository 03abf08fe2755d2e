// Writes an automaton that is given by arrays as a compiled form (document 01, "Opening and the compiled form").
#![tactic(auto)]

ghost use Rattle.std.specs.Prelude.{◌≡◌, ◌+◌, ◌≤◌, length};
ghost use Rattle.lists.specs.Memory.{Wrote};
ghost use Rattle.lists.specs.Stored.{Stored};
ghost use Rattle.refusal.specs.Fills.{reported, Fills};
ghost use Rattle.automaton.specs.Form.{head_word, letter_word, encode};
ghost use Rattle.automaton.specs.Arrays.{arrayed, Sized};
ghost use Rattle.form_encode.specs.Call.{form_call};
ghost use Rattle.form_encode.specs.Parts.{letters_by};
ghost use Rattle.form_encode.specs.Once.{sized-prop};

use form_encode_arcs::{count_arcs, write_arcs};
use refusal::Refusal;

// An automaton given by lent arrays, over an alphabet of so many characters: the number of its letters, whether it accepts the empty word,
// and for each letter its label, whether it may be first, whether it may be last, and which letters may follow it.
#[derive(Clone, Copy)]
pub struct Arrays<'a> {
    pub alphabet: usize,
    pub letters: usize,
    pub empty: bool,
    pub labels: &'a [u8],
    pub first: &'a [bool],
    pub last: &'a [bool],
    pub follow: &'a [[bool; 127]],
    ghost sized: { Sized alphabet letters labels.now first.now last.now follow.now } by { sized-prop alphabet letters labels.now first.now last.now follow.now },
}

// The head of a form with l letters over an alphabet of k characters.
fn head_word(l: usize, empty: bool, k: usize) -> u32
    requires { (l ≤ 255) × (k ≤ 255) }
    ensures { result ≡ head_word l empty k }
{
    let bit = if empty { 0x100 } else { 0 };
    0x10000000 + k as u32 * 0x10000 + bit + l as u32
}

// The word of a letter.
fn letter_word(label: u8, first: bool, last: bool) -> u32
    ensures { result ≡ letter_word label first last }
{
    let bit9 = if last { 0x200 } else { 0 };
    let bit8 = if first { 0x100 } else { 0 };
    0x20000000 + bit9 + bit8 + u32::from(label)
}

// Writes the letters from place 1 on and returns the next place.
fn write_letters(a: Arrays, form: &mut [u32]) -> usize
    requires { 1 + length (letters_by a.letters a.labels.now a.first.now a.last.now) ≤ length form.old }
    ensures { Stored (letters_by a.entry.letters a.entry.labels.now a.entry.first.now a.entry.last.now) 1 form.old form.new result }
{
    for letter in 1..a.letters + 1 {
        let j = letter - 1;
        form[letter] = letter_word(a.labels[j], a.first[j], a.last[j]);
    }
    a.letters + 1
}

// Writes the form and returns its length.
fn write_words(a: Arrays, form: &mut [u32]) -> usize
    requires { length (encode a.alphabet (arrayed a.letters a.empty a.labels.now a.first.now a.last.now a.follow.now)) ≤ length form.old }
    ensures { Wrote (encode a.entry.alphabet
        (arrayed a.entry.letters a.entry.empty a.entry.labels.now a.entry.first.now a.entry.last.now a.entry.follow.now))
        form.old form.new result }
{
    form[0] = head_word(a.letters, a.empty, a.alphabet);
    let n = write_letters(a, form);
    write_arcs(a.letters, a.follow, form, n)
}

// Fills the form memory with the form of the automaton that the arrays stand for.
pub fn write_form(a: Arrays, form: &mut [u32]) -> Result<usize, Refusal>
    ensures { Fills (form_call a.entry.alphabet
        (arrayed a.entry.letters a.entry.empty a.entry.labels.now a.entry.first.now a.entry.last.now a.entry.follow.now)
        (length form.old)) (reported result) form.old form.new }
{
    if form.len() < 1 + a.letters + count_arcs(a.letters, a.follow) {
        return Err(Refusal::FormMemory);
    }
    Ok(write_words(a, form))
}
