// The checks of the matrix and of the lent memory that Decode and Read make, in their order (document 01, "What is turned away",
// refusals 12 to 15).
#![tactic(auto)]

ghost use Rattle.std.specs.Prelude.{◌≡◌, ◌≤◌};
ghost use Rattle.lists.specs.Each.{all};
ghost use Rattle.refusal.specs.Verdict.{first_refusal};
ghost use Rattle.matrix.specs.View.{value};
ghost use Rattle.decode_checks.specs.Checks.{passes, matrix_fault, matrix_checks};

use matrix::{BARRED, Matrix};
use refusal::Refusal;

// Is each cost at most 1,000,000, or that of a barred label? One pass without an early exit, so that several costs can be compared at once.
fn all_pass(costs: &[u32]) -> bool
    ensures { result ≡ all passes costs.now }
{
    costs
        .iter()
        .fold(true, |pass, &c| pass & ((c <= 1000000) | (c == BARRED)))
}

// Is the matrix turned away for its size, with an alphabet of k characters? (Refusal 12; no product overflows.)
fn has_fault(k: usize, matrix: Matrix) -> bool
    requires { k ≤ 95 }
    ensures { result ≡ matrix_fault k (value matrix.entry) }
{
    255 < matrix.count || matrix.width != k + 1 || matrix.costs.len() != matrix.count * matrix.width
}

// The first of refusals 12 to 15 that applies, for a form of l letters over k characters and lent memory of these lengths.
// (Three lengths: a struct of them would be made at each call, to be taken apart here.)
#[tactic(auto, unfolding(refusal::specs::Verdict::first_refusal))]
pub fn check_matrix(
    k: usize,
    l: usize,
    matrix: Matrix,
    path: usize,
    word: usize,
    work: usize,
) -> Result<(), Refusal>
    requires { (k ≤ 95) × (l ≤ 127) }
    ensures { result ≡ first_refusal
        (matrix_checks k l (value matrix.entry) (record { path = path; word = word; work = work })) }
{
    if has_fault(k, matrix) {
        return Err(Refusal::Matrix);
    }
    if !all_pass(matrix.costs) {
        return Err(Refusal::Cost);
    }
    if path < matrix.count || word < matrix.count {
        return Err(Refusal::OutputMemory);
    }
    if work < (matrix.count + 1) * (2 * l + 1) {
        return Err(Refusal::Work);
    }
    Ok(())
}
