// Decode: the cheapest path whose collapse the form accepts, and among equals the first by labels (document 01, "Extended states and
// decoding").
#![tactic(auto)]

ghost use Rattle.answers.specs.Decoded.{reported};
ghost use Rattle.matrix.specs.Matrix.{matrix};
ghost use Rattle.matrix.specs.View.{value};
ghost use Rattle.decode_valid.specs.Lent.{lent};
ghost use Rattle.decode.specs.Promise.{Decodes};

use answers::Decoded;
use decode_checks::check_matrix;
use decode_valid::decode_valid;
use form_check::checked;
use matrix::{Matrix, matrix_of};
use refusal::Refusal;

// Document 01's Decode, for a form of L letters over K characters and a matrix of T columns. Of all paths, lists of T labels 0 to K that use
// no barred label, whose CTC collapse the form accepts, it finds the cheapest, and among equals the first by labels.
// - On success it writes the path to the front of `path` and its collapse, as labels, to the front of `word`, and returns the price, which
//   is the sum of the path's costs, and the length of the collapse.
// - Refusal 16, no reading, means that there is no such path. It leaves `path` and `word` as they were.
// - Refusals 11 to 15 leave all memory as it was: 11 the form is not valid; 12 T is over 255, the width is not K + 1, or the number of
//   costs is not T × (K + 1); 13 a cost is over 1,000,000 and not that of a barred label; 14 `path` or `word` is shorter than T; 15 `work`
//   is shorter than (T + 1) × (2L + 1).
// Success and refusal 16 may change these (T + 1) × (2L + 1) words. Memory after them, and after what is written, is as it was.
//
// `Decodes` is this promise; specs/Demands.antt has what it means for a caller, as theorems.
#[tactic(auto, unfolding(refusal::specs::Verdict::first_refusal))]
pub fn decode_matrix(
    form: &[u32],
    matrix: Matrix,
    path: &mut [u8],
    word: &mut [u8],
    work: &mut [u32],
) -> Result<Decoded, Refusal>
    ensures { Decodes form.now (value matrix.entry) (lent path.old word.old work.old)
        (lent path.new word.new work.new) (reported result) }
{
    let Some(form) = checked(form) else {
        return Err(Refusal::BadForm);
    };
    check_matrix(
        form.alphabet(),
        form.letters(),
        matrix,
        path.len(),
        word.len(),
        work.len(),
    )?;
    decode_valid(form, matrix, path, word, work)
}

// Decode, as `decode_matrix` says, for a caller that has the matrix by its parts: its costs, one column after another, its column width
// and its column count.
// (Path, word and work stay three lists, as decode_valid says.)
pub fn decode(
    form: &[u32],
    costs: &[u32],
    width: usize,
    count: usize,
    path: &mut [u8],
    word: &mut [u8],
    work: &mut [u32],
) -> Result<Decoded, Refusal>
    ensures { Decodes form.now (matrix costs.now width count) (lent path.old word.old work.old)
        (lent path.new word.new work.new) (reported result) }
{
    decode_matrix(form, matrix_of(costs, width, count), path, word, work)
}
