// TOP, the value that means 'impossible'; what there is to pay where no column is left; a sum that is not held at TOP.
#![tactic(auto)]

ghost use Rattle.std.specs.Prelude.{◌≡◌, ◌+◌, ◌*◌, ◌/◌, ◌<◌, ◌≤◌};
ghost use Rattle.automaton.specs.Form.{letters_of, ends_of};
ghost use Rattle.trellis.specs.Cells.{ending};

use form_words::Form;

// The value that means 'impossible': no path of usable costs reaches this price. It is a number and no Option, since the table is lent words
// and the least of prices is found without a branch.
pub const TOP: u32 = 1000000000;

// The sum of a cost and the price of what comes after it. It may be above TOP.
pub fn sum(c: u32, v: u32) -> usize
    ensures { (result ≡ c + v) × (result < 8589934592) }
{
    c as usize + v as usize
}

// What there is to pay in state s where no column is left: 0 if a path may end there, else TOP.
pub fn last_cost(form: Form, s: usize) -> u32
    requires { s ≤ 2 * letters_of form.words.now }
    ensures { result ≡ ending (ends_of form.entry.words.now ((s + 1) / 2)) }
{
    if form.may_end((s + 1) / 2) { 0 } else { TOP }
}
