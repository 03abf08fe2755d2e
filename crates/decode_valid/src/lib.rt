// Decode of an input that passes its checks (document 01, "Extended states and decoding").
#![tactic(auto)]

ghost use Rattle.answers.specs.Decoded.{reported};
ghost use Rattle.automaton.specs.Form.{alphabet_of, letters_of};
ghost use Rattle.matrix.specs.View.{value};
ghost use Rattle.decode_checks.specs.Passing.{Fits};
ghost use Rattle.decode_valid.specs.Answers.{DecodeAnswers};
ghost use Rattle.decode_valid.specs.Lent.{lent, rooms};

use answers::Decoded;
use form_words::Form;
use matrix::Matrix;
use refusal::Refusal;

// Fills the table of costs to go and traces the best path through it; a price of TOP means that there is none.
// (Path, word and work stay three lists: C lends them apart, and with a struct of three `&mut` each contract would have to say that it still
// lends the same three.)
pub fn decode_valid(
    form: Form,
    matrix: Matrix,
    path: &mut [u8],
    word: &mut [u8],
    work: &mut [u32],
) -> Result<Decoded, Refusal>
    requires { Fits (alphabet_of form.words.now) (letters_of form.words.now) (value matrix)
        (rooms (lent path.old word.old work.old)) }
    ensures { DecodeAnswers form.entry.words.now (value matrix.entry) (lent path.old word.old work.old)
        (lent path.new word.new work.new) (reported result) }
{
    let stride = 2 * form.letters() + 1;
    let price = trellis_table::fill(form, matrix, work);
    if trellis_table::TOP <= price {
        return Err(Refusal::NoReading);
    }
    trellis_trace::trace(form, matrix, work, 0, stride, path);
    let length = ctc_collapse::write_collapse(&path[..matrix.count], word);
    Ok(Decoded { price, length })
}
