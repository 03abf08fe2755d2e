// Read of an input that passes its checks (demand 3).
#![tactic(auto)]

ghost use Rattle.std.specs.Prelude.{◌≡◌, length};
ghost use Rattle.answers.specs.Reading.{reported};
ghost use Rattle.automaton.specs.Form.{alphabet_of, letters_of};
ghost use Rattle.matrix.specs.View.{value};
ghost use Rattle.decode_checks.specs.Passing.{Fits};
ghost use Rattle.decode_valid.specs.Lent.{lent, rooms};
ghost use Rattle.read_valid.specs.Accepted.{ReadsAccepted};

use answers::Reading;
use decode_valid::decode_valid;
use form_words::Form;
use matrix::Matrix;
use read_spelling::write_characters;
use refusal::Refusal;

// Decodes the matrix by the form, and writes the word as characters.
// (Path, word and work stay three lists, as decode_valid says.)
pub fn read_valid(
    alphabet: &[u8],
    form: Form,
    matrix: Matrix,
    path: &mut [u8],
    word: &mut [u8],
    work: &mut [u32],
) -> Result<Reading, Refusal>
    requires { Fits (alphabet_of form.words.now) (letters_of form.words.now) (value matrix)
        (rooms (lent path.old word.old work.old)) × (alphabet_of form.words.now ≡ length alphabet.now) }
    ensures { ReadsAccepted alphabet.now form.entry.words.now (value matrix.entry) (lent path.old word.old work.old)
        (lent path.new word.new work.new) (reported result) }
{
    let decoded = decode_valid(form, matrix, path, word, work)?;
    write_characters(alphabet, word, decoded.length);
    Ok(Reading {
        price: decoded.price,
        length: decoded.length,
        form: form.len(),
    })
}
