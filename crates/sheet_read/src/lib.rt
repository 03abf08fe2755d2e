// Read, and its answer printed: what the sheet program does for an alphabet, a text and a matrix (document 01, "Confidences and the sheet
// program").
#![tactic(auto)]

ghost use Rattle.std.specs.Prelude.{◌≤◌, length};
ghost use Rattle.matrix.specs.Matrix.{matrix};
ghost use Rattle.sheet_read.specs.Answer.{longest, PrintsReading};
ghost use Rattle.sheet_read.specs.Promise.{Answers};

use sheet_print::print_answer;

// Calls Read on an alphabet, a text and a matrix, prints its answer and returns the number of bytes. The memory that is lent to Read, of
// the lengths in document 01, is local.
// (The matrix by its parts: docs/ names this call, so what it takes stays.)
pub fn answer_reading(
    alphabet: &[u8],
    text: &[u8],
    costs: &[u32],
    width: usize,
    count: usize,
    out: &mut [u8],
) -> usize
    requires { longest ≤ length out.old }
    ensures { Answers (PrintsReading alphabet.now text.now (matrix costs.now width count)) out.old out.new result }
{
    let mut form = [0u32; 16384];
    let mut path = [0u8; 255];
    let mut word = [0u8; 255];
    let mut work = [0u32; 16384];
    let answer = read::read(
        alphabet, text, costs, width, count, &mut form, &mut path, &mut word, &mut work,
    );
    print_answer(answer, count, &path, &word, out)
}
