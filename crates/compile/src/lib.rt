// Compile: from an alphabet and the text of an expression to its form (document 01, "Expression text", "Opening and the compiled form").
#![tactic(auto)]

ghost use Rattle.std.specs.Prelude.{◌≤◌, length};
ghost use Rattle.refusal.specs.Fills.{reported, Fills};
ghost use Rattle.positions.specs.Numbered.{automaton_of};
ghost use Rattle.form_encode.specs.Call.{form_call};
ghost use Rattle.positions_build.specs.Whole.{tree_of_text};
ghost use Rattle.compile.specs.Call.{compile_call};
ghost use Rattle.compile.specs.Compilable.{Compilable};

use alphabet::check_text;
use form_encode::{Arrays, write_form};
use refusal::Refusal;

// Writes the form of a well-formed text with at most 127 letters: its arcs are known, as an array of arrays, before the first word is
// written.
fn write(alphabet: &[u8], text: &[u8], form: &mut [u32]) -> Result<usize, Refusal>
    requires { (length alphabet.now ≤ 95) × Compilable alphabet.now text.now }
    ensures { Fills
        (form_call (length alphabet.now) (automaton_of alphabet.now (tree_of_text alphabet.now text.now)) (length form.old))
        (reported result) form.old form.new }
{
    // Arrays of a fixed length, with the number of letters in `built`: no heap, and `BuildsWhole` says what is written into lent lists.
    let mut labels = [0u8; 127];
    let mut follow = [[false; 127]; 127];
    let built = positions_build::build(alphabet, text, &mut labels, &mut follow);
    let arrays = Arrays {
        alphabet: alphabet.len(),
        letters: built.letters,
        empty: built.nullable,
        labels: &labels,
        first: &built.first,
        last: &built.last,
        follow: &follow,
    };
    write_form(arrays, form)
}

// Document 01's Compile. What it writes means the text's words: `compiled_means` of proofs/Meaning.antt.
pub fn compile(alphabet: &[u8], text: &[u8], form: &mut [u32]) -> Result<usize, Refusal>
    ensures { Fills (compile_call alphabet.now text.now (length form.old)) (reported result) form.old form.new }
{
    check_text(alphabet, text)?;
    let letters = regex_parse::expression(alphabet, text)?;
    if 127 < letters {
        return Err(Refusal::Letters);
    }
    write(alphabet, text, form)
}
