// One row of the table of costs to go, computed from the row of the next column: the two states of each letter, and state 0.
#![tactic(auto)]

ghost use Rattle.std.specs.Prelude.{◌≡◌, ◌+◌, ◌*◌, ◌/◌, ◌≤◌, min};
ghost use Rattle.automaton.specs.Form.{letters_of};
ghost use Rattle.trellis_offers.specs.Offers.{FAR as far};
ghost use Rattle.trellis_row.specs.Letters.{LetterReady, LetterFilled, LettersReady, LettersFilled};
ghost use Rattle.trellis_row.specs.Rows.{RowReady, RowFilled};

use trellis_costs::sum;
use trellis_keys::fill_keys;
use trellis_offers::{Lookups, Offers};

// The price of a key, or `rest`, the price of a step into blanks, if that is less.
fn price(key: usize, rest: usize) -> u32
    requires { key ≤ far }
    ensures { result ≡ min (key / 256) rest }
{
    (key / 256).min(rest) as u32
}

// Writes the costs to go of the two states of letter i, by the row of the next column, which is `stride` further on; p is the place of its
// blanks, and the place before is that on the letter. Returns the least key along its arcs; `before` is that of the letter before it.
// (Here and below the work and the places in it stay parameters: it is lent mutably, and a struct would be made anew for each row.)
fn fill_letter(
    offers: &Offers,
    blank: u32,
    work: &mut [u32],
    p: usize,
    stride: usize,
    i: usize,
    before: usize,
) -> usize
    requires { LetterReady offers.now.lookups.arcs.now.form.words.now offers.now.keys.now work.old p stride i before }
    ensures { LetterFilled offers.now.lookups.arcs.now.form.words.now offers.now.keys.now blank work.old work.new p (p + stride) i
        result }
{
    let least = offers.next_key(i, before);
    let other = offers.other_key(i, least);
    let rest = sum(blank, work[p + stride]);
    work[p - 1] = price(offers.keys[i].min(other), rest);
    work[p] = price(least, rest);
    least
}

// Writes the costs to go of the states of all letters into the row at `here`, by the row `stride` further on. `first` is the least key of
// the letters that may be first.
fn fill_letters(
    offers: &Offers,
    blank: u32,
    work: &mut [u32],
    here: usize,
    stride: usize,
    first: usize,
)
    requires { LettersReady offers.now.lookups.arcs.now.form.words.now offers.now.keys.now work.old here stride first }
    ensures { let f = offers.now.lookups.arcs.now.form.words.now in
        LettersFilled f offers.now.keys.now blank work.old work.new here (here + stride) (letters_of f + 1) }
{
    let mut least = first;
    for i in 1..offers.lookups.arcs.form.letters() + 1 {
        least = fill_letter(offers, blank, work, here + 2 * i, stride, i, least);
    }
}

// Writes the row at `here` for a column of costs, by the row of the next column, `stride` further on. The memory of the keys may hold
// anything.
pub fn fill_row(
    lookups: &Lookups,
    column: &[u32],
    work: &mut [u32],
    here: usize,
    stride: usize,
    keys: &mut [usize; 128],
)
    requires { RowReady lookups.now.arcs.now.form.words.now column.now work.old here stride }
    ensures { RowFilled lookups.now.arcs.now.form.words.now column.now work.old work.new here (here + stride) }
{
    let blank = column[0];
    fill_keys(lookups.arcs.form, column, work, here + stride, keys);
    let offers = Offers {
        lookups: *lookups,
        keys,
    };
    let first = offers.first_key();
    let start = price(first, sum(blank, work[here + stride]));
    fill_letters(&offers, blank, work, here, stride, first);
    work[here] = start;
}
