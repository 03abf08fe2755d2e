// What is printed for Read's answer: the line of a refusal, or the lines of a reading, whose word and path are in lent memory
// (document 01, "Output in full").
#![tactic(auto)]

ghost use Rattle.std.specs.Prelude.{◌≤◌, length};
ghost use Rattle.lists.specs.Memory.{Wrote};
ghost use Rattle.sheet_print.specs.Printed.{Shown, answer_lines};

use answers::Reading;
use refusal::Refusal;

// Prints what Read answered for `count` columns, with path and word memory as it left them, and returns the number of bytes.
pub fn print_answer(
    answer: Result<Reading, Refusal>,
    count: usize,
    path: &[u8],
    word: &[u8],
    out: &mut [u8],
) -> usize
    requires { Shown answer count path.now word.now
        × (length (answer_lines answer count path.now word.now) ≤ length out.old) }
    ensures { Wrote (answer_lines answer count path.now word.now) out.old out.new result }
{
    match answer {
        Ok(r) => sheet_lines::print_reading(r.price, &word[..r.length], &path[..count], out),
        Err(r) => sheet_lines::print_refusal(r, out),
    }
}
