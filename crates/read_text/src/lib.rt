// The work of Read: Compile, the checks, and the best path by the compiled form (demand 3).
#![tactic(auto)]

ghost use Rattle.std.specs.Prelude.{◌≡◌, length};
ghost use Rattle.answers.specs.Reading.{reported};
ghost use Rattle.automaton.specs.Form.{alphabet_of};
ghost use Rattle.matrix.specs.View.{value};
ghost use Rattle.read_text.specs.Promise.{Reads};
ghost use Rattle.decode_valid.specs.Lent.{lent};
ghost use Rattle.read_text.specs.ChecksForm.{ChecksForm};

use answers::Reading;
use decode_checks::check_matrix;
use form_words::Form;
use matrix::Matrix;
use read_valid::read_valid;
use refusal::Refusal;

// Read by a compiled form: the first of refusals 12 to 15 that applies, or the answer past them.
// (Path, word and work stay three lists, as decode_valid says.)
#[tactic(auto, unfolding(refusal::specs::Verdict::first_refusal))]
fn read_form(
    alphabet: &[u8],
    form: Form,
    matrix: Matrix,
    path: &mut [u8],
    word: &mut [u8],
    work: &mut [u32],
) -> Result<Reading, Refusal>
    requires { alphabet_of form.words.now ≡ length alphabet.now }
    ensures { ChecksForm alphabet.now form.entry.words.now (value matrix.entry) (lent path.old word.old work.old)
        (lent path.new word.new work.new) (reported result) }
{
    check_matrix(
        alphabet.len(),
        form.letters(),
        matrix,
        path.len(),
        word.len(),
        work.len(),
    )?;
    read_valid(alphabet, form, matrix, path, word, work)
}

// The work of Read: Compile's refusal, or the answer by the form that it wrote.
pub fn read_parts(
    alphabet: &[u8],
    text: &[u8],
    matrix: Matrix,
    form: &mut [u32],
    path: &mut [u8],
    word: &mut [u8],
    work: &mut [u32],
) -> Result<Reading, Refusal>
    ensures { Reads alphabet.now text.now (value matrix.entry) form.old form.new
        (lent path.old word.old work.old) (lent path.new word.new work.new) (reported result) }
{
    let n = compile::compile(alphabet, text, form)?;
    read_form(alphabet, Form::new(&form[..n]), matrix, path, word, work)
}
