// The sheet program (document 01, "Confidences and the sheet program"): a sheet on standard input, its lines on standard output.
// After a read that fails nothing is printed: what has come so far may be a shorter sheet, whose reading would be wrong. A write that
// fails ends the program, also one to a pipe that nobody reads any more. Both give exit code 0: the answer is what is printed.
#![tactic(auto)]

ghost use Rattle.std.specs.Prelude.{◌<◌, ◌≤◌, length};
ghost use Rattle.sheet_format.specs.Sheet.{most_bytes};
ghost use Rattle.sheet_read.specs.Answer.{longest};
ghost use Rattle.sheet_read.specs.Promise.{Answers};
ghost use Rattle.sheet.specs.Inputs.{Arrived, PrintsInput};

use std::io;
use std::io::{Read, Write};

// Reads to the end of the input and returns how many bytes came. There is room for one byte more than a sheet may have, so that a byte too
// many is seen.
// (A `while`: it counts the bytes that the reader gives. Not `read_full` of `vectors`, which keeps what came before a failed read.)
fn read_input<R: Read>(stdin: &mut R, buffer: &mut [u8]) -> io::Result<usize>
    requires { most_bytes < length buffer.old }
    ensures { Arrived result buffer.new }
{
    let mut done = 0;
    while done < buffer.len() {
        match stdin.read(&mut buffer[done..])? {
            0 => break,
            got => done += got,
        }
    }
    Ok(done)
}

// Prints the answer to the input, nothing after a read that failed, and returns the number of bytes.
fn answer_input(input: io::Result<usize>, buffer: &[u8], out: &mut [u8]) -> usize
    requires arrived { Arrived input buffer.now }
    requires longest_in_bounds { longest ≤ length out.old }
    ensures { Answers (PrintsInput input buffer.now) out.old out.new result }
{
    match input {
        Ok(n) => sheet_answer::answer(&buffer[..n], out),
        Err(_) => 0,
    }
}

fn main(rt: HostRuntime) {
    let mut buffer = [0u8; 65536];
    let mut out = [0u8; 1031];
    let input = read_input(&mut rt.stdin(), &mut buffer);
    let n = answer_input(input, &buffer, &mut out);
    let _ = rt.stdout().write_all(&out[..n]);
}
