// The keys of a column. A letter's key is one number for what a step to it costs and for its label, so that the least key gives the least
// price and a label that has it.
#![tactic(auto)]

ghost use Rattle.std.specs.Prelude.{◌≡◌, ◌≤◌};
ghost use Rattle.automaton.specs.Form.{letters_of};
ghost use Rattle.trellis_keys.specs.Keys.{Ahead, key_for, KeysFilled};

use form_words::Form;
use trellis_costs::sum;

// The key of letter j, by the costs of a column and the row of the next column, at `next`.
fn key(form: Form, column: &[u32], work: &[u32], next: usize, j: usize) -> usize
    requires { Ahead form.words.now column.now work.now next × (1 ≤ j) × (j ≤ letters_of form.words.now) }
    ensures { result ≡ key_for form.entry.words.now column.now work.now next j }
{
    let x = form.label(j);
    sum(column[x], work[next + (2 * j - 1)]) * 256 + x
}

// Writes the keys of all letters, 1 to L; the other entries stay as they were.
pub fn fill_keys(form: Form, column: &[u32], work: &[u32], next: usize, keys: &mut [usize; 128])
    requires { Ahead form.words.now column.now work.now next }
    ensures { KeysFilled form.entry.words.now column.now work.now next keys.old keys.new }
{
    for j in 1..form.letters() + 1 {
        keys[j] = key(form, column, work, next, j);
    }
}
