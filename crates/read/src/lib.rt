// Read: from an alphabet, the text of an expression and a matrix of costs to the cheapest path whose collapse is a word of the expression,
// with the word as characters (demand 3).
#![tactic(auto)]

ghost use Rattle.answers.specs.Reading.{reported};
ghost use Rattle.matrix.specs.View.{value};
ghost use Rattle.matrix.specs.Matrix.{matrix};
ghost use Rattle.decode_valid.specs.Lent.{lent};
ghost use Rattle.read_text.specs.Promise.{Reads};

use answers::Reading;
use matrix::{Matrix, matrix_of};
use read_text::read_parts;
use refusal::Refusal;

// Document 01's Read, for an alphabet of K characters, the text of an expression and a matrix of T columns; the compiled form of the
// expression has L letters. Of all paths, lists of T labels 0 to K that use no barred label, whose CTC collapse is a word of the expression,
// it finds the cheapest, and among equals the first by labels. Label 0 is the blank, and label i is the i-th character of the alphabet,
// which may list a character more than once: a list of labels is a word if its characters spell one.
// - On success it writes the compiled form to the front of `form`, the path to the front of `path` and its collapse, as characters, to the
//   front of `word`, and returns the price, which is the sum of the path's costs, and the lengths of the collapse and of the form.
// - Refusal 16, no reading, means that there is no such path. It leaves `path` and `word` as they were.
// - Refusals 1 to 10 and 19 are Compile's, of the alphabet, the text and the length of `form`. They leave all memory as it was.
// - Refusals 12 to 15 leave `path`, `word` and `work` as they were: 12 T is over 255, the width is not K + 1, or the number of costs is not
//   T × (K + 1); 13 a cost is over 1,000,000 and not that of a barred label; 14 `path` or `word` is shorter than T; 15 `work` is shorter
//   than (T + 1) × (2L + 1).
// After refusals 12 to 16 too, `form` begins with the compiled form. Success and refusal 16 may change (T + 1) × (2L + 1) words of `work`.
// Memory after these, and after what is written, is as it was.
//
// `Reads` is this promise (read_text, specs/Promise.antt), by the words over labels; proofs/Demands.antt has what it means for a caller, as
// theorems, with rivals as document 01 has them and words over characters. Nothing in it speaks of states. Demand 3 in `Reads`, clause by clause:
// - the cheapest rival: the field `is` of `Answers`, an `Outcome` for the words of the text; where it is a path, `Best` says of it
//   `qualifies` (a rival: one label for each column, none of them barred, its collapse a word) and `least`;
// - the first by labels among equals: `first` of `Best`;
// - 'no reading' exactly when there is no rival: an `Outcome` is none with a proof that no list is a rival, and there is one outcome;
// - the word is the path's collapse, as characters: the field `word`;
// - the price is the path's own: the field `answered`;
// - past the checks with memory enough, no refusal except 16 applies: `compile_call` passes, and so do `matrix_checks`.
pub fn read_matrix(
    alphabet: &[u8],
    text: &[u8],
    matrix: Matrix,
    form: &mut [u32],
    path: &mut [u8],
    word: &mut [u8],
    work: &mut [u32],
) -> Result<Reading, Refusal>
    ensures { Reads alphabet.now text.now (value matrix.entry) form.old form.new (lent path.old word.old work.old)
        (lent path.new word.new work.new) (reported result) }
{
    read_parts(alphabet, text, matrix, form, path, word, work)
}

// Read, as `read_matrix` says, for a caller that has the matrix by its parts: its costs, one column after another, its column width and its
// column count.
// (Path, word and work stay three lists, as decode_valid says.)
pub fn read(
    alphabet: &[u8],
    text: &[u8],
    costs: &[u32],
    width: usize,
    count: usize,
    form: &mut [u32],
    path: &mut [u8],
    word: &mut [u8],
    work: &mut [u32],
) -> Result<Reading, Refusal>
    ensures { Reads alphabet.now text.now (matrix costs.now width count) form.old form.new
        (lent path.old word.old work.old) (lent path.new word.new work.new) (reported result) }
{
    read_matrix(
        alphabet,
        text,
        matrix_of(costs, width, count),
        form,
        path,
        word,
        work,
    )
}
