// Compare: two forms over one matrix, and the price of the first one's reading less that of the second's (document 02, T-04).
#![tactic(auto)]

ghost use Rattle.std.specs.Prelude.{◌≡◌};
ghost use Rattle.refusal.specs.Verdict.{first_refusal};
ghost use Rattle.matrix.specs.Matrix.{matrix};
ghost use Rattle.matrix.specs.View.{value};
ghost use Rattle.comparison.specs.Checks.{compare_checks};
ghost use Rattle.comparison.specs.Comparison.{reported};
ghost use Rattle.comparison.specs.Promise.{Compares};

use compare_valid::compare_valid;
use decode_checks::check_matrix;
use form_check::checked;
use matrix::{Matrix, matrix_of};
use refusal::Refusal;

// Document 02's Compare. Each form is asked for its cheapest path over the matrix, as Decode says; no path or word is written.
// - On success it returns the first form's price less the second's: negative where the first is cheaper.
// - Refusal 16, no reading, means that there is no such path for one of the forms or both.
// - Refusals 11, 12, 13 and 15 leave the work memory as it was: 11 one of the forms is not valid; 12 T is over 255, the width is not K + 1 of
//   both forms, or the number of costs is not T × (K + 1); 13 a cost is over 1,000,000 and not that of a barred label; 15 `work` is shorter
//   than (T + 1) × (2L + 1), where L is the greater of the two numbers of letters.
// Success and refusal 16 may change these (T + 1) × (2L + 1) words, and no others.
//
// `Compares` is this promise. Where the forms are exchanged, the difference changes its sign, and no refusal changes (`exchange` in
// comparison/ExchangeLaws).
#[tactic(auto, unfolding(refusal::specs::Verdict::first_refusal))]
pub fn compare_matrix(
    first: &[u32],
    second: &[u32],
    matrix: Matrix,
    work: &mut [u32],
) -> Result<i32, Refusal>
    ensures { Compares first.now second.now (value matrix.entry) work.old work.new (reported result) }
{
    let Some(first) = checked(first) else {
        return Err(Refusal::BadForm);
    };
    let Some(second) = checked(second) else {
        return Err(Refusal::BadForm);
    };
    let k = first.alphabet();
    if second.alphabet() != k {
        return Err(Refusal::Matrix);
    }
    // No path and no word memory is lent: T is given as both lengths, so 14 never applies.
    let l = first.letters().max(second.letters());
    check_matrix(k, l, matrix, matrix.count, matrix.count, work.len())?;
    compare_valid(first, second, matrix, work)
}

// Compare, as `compare_matrix` says, for a caller that has the matrix by its parts: its costs, one column after another, its column width
// and its column count.
pub fn compare(
    first: &[u32],
    second: &[u32],
    costs: &[u32],
    width: usize,
    count: usize,
    work: &mut [u32],
) -> Result<i32, Refusal>
    ensures { Compares first.now second.now (matrix costs.now width count) work.old work.new (reported result) }
{
    compare_matrix(first, second, matrix_of(costs, width, count), work)
}
