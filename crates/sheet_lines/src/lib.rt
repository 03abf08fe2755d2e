// The bytes that the sheet program prints (document 01, "Output in full").
#![tactic(auto)]

ghost use Rattle.std.specs.Prelude.{◌≤◌, length};
ghost use Rattle.lists.specs.Memory.{Wrote};
ghost use Rattle.refusal.specs.Number.{number_of};
ghost use Rattle.sheet_lines.specs.Lines.{reading_lines, refusal_line};

use refusal::Refusal;
use sheet_decimal::Output;
use sheet_path::put_labels;

// Prints a reading, a line each for price, word and path, and returns the number of bytes.
pub fn print_reading(price: u32, word: &[u8], path: &[u8], out: &mut [u8]) -> usize
    requires { length (reading_lines price word.now path.now) ≤ length out.old }
    ensures { Wrote (reading_lines price word.now path.now) out.old out.new result }
{
    let mut lines = Output::new(out);
    lines.put_decimal(price);
    lines.put_bytes(b"\n");
    lines.put_bytes(word);
    lines.put_bytes(b"\n");
    put_labels(path, &mut lines);
    lines.put_bytes(b"\n");
    lines.len
}

// Prints a refusal's line and returns the number of bytes.
pub fn print_refusal(r: Refusal, out: &mut [u8]) -> usize
    requires { length (refusal_line (number_of r)) ≤ length out.old }
    ensures { Wrote (refusal_line (number_of r)) out.old out.new result }
{
    let mut lines = Output::new(out);
    lines.put_bytes(b"refused ");
    lines.put_decimal(r.into());
    lines.put_bytes(b"\n");
    lines.len
}
