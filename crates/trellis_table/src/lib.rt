// The table of costs to go of Decode, filled from the last row to the first (document 01, "Extended states and decoding").
#![tactic(auto)]

ghost use Rattle.std.specs.Prelude.{◌+◌, ◌*◌, ◌<◌, length};
ghost use Rattle.automaton.specs.Form.{letters_of, view};
ghost use Rattle.matrix.specs.View.{value};
ghost use Rattle.trellis.specs.Table.{Row};
ghost use Rattle.trellis_table.specs.Last.{LastFilled};
ghost use Rattle.trellis_table.specs.Fill.{states, Sized, RowsFilled, Filled};

use form_arcs::{equal_arcs, list_firsts, list_targets, no_targets};
use form_starts::Arcs;
use form_words::Form;
use matrix::Matrix;
use trellis_costs::last_cost;
use trellis_offers::Lookups;
use trellis_row::fill_row;

// The value that means 'impossible': `fill` returns it where there is no path. (A number and no Option: `Filled` says that it is the
// table's first word, and docs/REQUESTS names `fill`.)
pub use trellis_costs::TOP;

// Writes the last row, at `base`.
fn fill_last(form: Form, work: &mut [u32], base: usize)
    requires { base + 2 * letters_of form.words.now < length work.old }
    ensures { LastFilled form.entry.words.now work.old work.new base }
{
    for s in 0..2 * form.letters() + 1 {
        work[base + s] = last_cost(form, s);
    }
}

// Writes the rows of all columns, `stride` apart, from the last column to the first. The last row is after them, and already written.
fn fill_columns(lookups: &Lookups, matrix: Matrix, work: &mut [u32], stride: usize)
    requires { Sized lookups.now.arcs.now.form.words.now (value matrix) work.old stride
        × Row (view lookups.now.arcs.now.form.words.now) (value matrix) work.old (matrix.count * stride) matrix.count 0 }
    ensures { RowsFilled lookups.now.arcs.now.form.words.now (value matrix.entry) work.old work.new stride 0 }
{
    let mut keys = [0; 128];
    for t in (0..matrix.count).rev() {
        fill_row(
            lookups,
            matrix.column(t),
            work,
            t * stride,
            stride,
            &mut keys,
        );
    }
}

// Looks up in the form what all rows need, and writes them by `fill_columns`. (By `arcs.form`, of which `Lookups` speaks: `form` in its place
// was tried, and the proof did not close.)
fn fill_rows(form: Form, matrix: Matrix, work: &mut [u32], stride: usize)
    requires { Sized form.words.now (value matrix) work.old stride
        × Row (view form.words.now) (value matrix) work.old (matrix.count * stride) matrix.count 0 }
    ensures { RowsFilled form.entry.words.now (value matrix.entry) work.old work.new stride 0 }
{
    let arcs = Arcs::new(form);
    let mut targets = no_targets();
    list_targets(arcs.form, &mut targets);
    let same = equal_arcs(&arcs);
    let mut list = [0; 128];
    let n = list_firsts(arcs.form, &mut list);
    let lookups = Lookups {
        arcs: &arcs,
        targets: &targets,
        same: &same,
        firsts: &list[..n],
    };
    fill_columns(&lookups, matrix, work, stride);
}

// Fills the table of costs to go and returns the least price, or TOP where there is none.
pub fn fill(form: Form, matrix: Matrix, work: &mut [u32]) -> u32
    requires { Sized form.words.now (value matrix) work.old (states form.words.now) }
    ensures { Filled form.entry.words.now (value matrix.entry) work.old work.new result }
{
    let stride = 2 * form.letters() + 1;
    fill_last(form, work, matrix.count * stride);
    fill_rows(form, matrix, work, stride);
    work[0]
}
