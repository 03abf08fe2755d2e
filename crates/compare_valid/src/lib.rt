// Compare of an input that passes its checks (document 02, T-04).
#![tactic(auto)]

ghost use Rattle.std.specs.Prelude.{length};
ghost use Rattle.matrix.specs.View.{value};
ghost use Rattle.comparison.specs.Comparison.{reported};
ghost use Rattle.comparison.specs.Passing.{FitsBoth};
ghost use Rattle.comparison.specs.Promise.{CompareAnswers};

use form_words::Form;
use matrix::Matrix;
use refusal::Refusal;
use trellis_table::fill;

// Fills the table of costs to go for one form and then, in the same memory, for the other. Nothing is traced: a price of TOP means that a
// form has no reading, and any other is that of its best path.
pub fn compare_valid(
    first: Form,
    second: Form,
    matrix: Matrix,
    work: &mut [u32],
) -> Result<i32, Refusal>
    requires { FitsBoth first.words.now second.words.now (value matrix) (length work.old) }
    ensures { CompareAnswers first.entry.words.now second.entry.words.now (value matrix.entry) work.old work.new
        (reported result) }
{
    let p = fill(first, matrix, work);
    if trellis_table::TOP <= p {
        return Err(Refusal::NoReading);
    }
    let q = fill(second, matrix, work);
    if trellis_table::TOP <= q {
        return Err(Refusal::NoReading);
    }
    Ok(p as i32 - q as i32)
}
