// The best path, traced forward through the table of costs to go (document 01, "Extended states and decoding"): the set of all equally
// cheap states is advanced column by column, by the lowest label that lies on a cheapest path.
#![tactic(auto)]

ghost use Rattle.std.specs.Prelude.{◌≤◌, length};
ghost use Rattle.automaton.specs.Form.{view};
ghost use Rattle.matrix.specs.View.{value};
ghost use Rattle.trellis_trace.specs.Traced.{Ready, Traced};

use form_starts::Arcs;
use form_words::Form;
use matrix::Matrix;
use trellis_column::advance;
use trellis_members::States;
use trellis_steps::Column;

// Writes the best path, one label for each column. The row of column t begins at base + t * stride of the work memory: rows of several
// tables may be in one list, as request T-08 will need. `work`, `base` and `stride` stay three parameters: no second function takes them, so
// a struct would be no plainer.
pub fn trace(form: Form, matrix: Matrix, work: &[u32], base: usize, stride: usize, path: &mut [u8])
    requires { Ready form.words.now (value matrix) work.now base stride × (matrix.count ≤ length path.old) }
    ensures { Traced (view form.entry.words.now) (value matrix.entry) path.old path.new }
{
    let arcs = Arcs::new(form);
    let states = 2 * arcs.form.letters() + 1;
    let mut set = States::new();
    let mut near = States::new();
    set.put_if(true, 0);
    let mut left = work[base];
    for t in 0..matrix.count {
        let at = t * matrix.width;
        let next = base + (t + 1) * stride;
        let column = Column {
            arcs: &arcs,
            costs: &matrix.costs[at..at + matrix.width],
            row: &work[next..next + states],
            left,
        };
        let front = advance(&column, &mut set, &mut near);
        path[t] = front.label;
        left = front.left;
    }
}
