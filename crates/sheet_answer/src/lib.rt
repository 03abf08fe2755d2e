// From the bytes of a sheet to the bytes that are printed for it (document 01, "Confidences and the sheet program").
#![tactic(auto)]

ghost use Rattle.std.specs.Prelude.{◌≤◌, length};
ghost use Rattle.sheet_read.specs.Answer.{longest};
ghost use Rattle.sheet_read.specs.Promise.{Answers};
ghost use Rattle.sheet_answer.specs.Answer.{Prints};

use refusal::Refusal;
use sheet_read::answer_reading;
use sheet_scan::scan;

// Parses a sheet, prints its reading or refusal and returns the number of bytes. The memory for its costs is local.
pub fn answer(input: &[u8], out: &mut [u8]) -> usize
    requires { longest ≤ length out.old }
    ensures { Answers (Prints input.now) out.old out.new result }
{
    let mut costs = [0u32; 16384];
    let Some(sheet) = scan(input, &mut costs) else {
        return sheet_lines::print_refusal(Refusal::Sheet, out);
    };
    let begin = sheet.alphabet + 1;
    let end = begin + sheet.text;
    let size = sheet.count * sheet.width;
    answer_reading(
        &input[..sheet.alphabet],
        &input[begin..end],
        &costs[..size],
        sheet.width,
        sheet.count,
        out,
    )
}
