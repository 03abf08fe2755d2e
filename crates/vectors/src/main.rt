// Runs the exported calls on the lines of standard input: document 01's examples, edges, damaged forms, each refusal. A line has a
// letter that says what to do, and fields, each after a tab; lists are numbers with a space between, and `-` is the cost of a barred label.
// Path, word, work and cost memory, and the ten words of E and L, are filled with 9 before a call and printed after it.
//
//   C K PATH ROOM           Collapse                       S K WORD ROOM   Spread
//   P CONFIDENCES ROOM      the costs of confidences
//   E ALPHABET TEXT         Compile, with memory for ten words and then for every form; the lines after it use that form
//   L NAME ALPHABET BYTES   CompileList of the list with these bytes, in the same way
//   F WORDS                 the lines after it use these words, in hexadecimal, as the form
//   N COUNT                 the form ends after COUNT words
//   J NAME WORD             Judge
//   D NAME COSTS WIDTH COLUMNS PATH-ROOM WORD-ROOM WORK-ROOM LAST            Decode; the LAST work words are printed
//   R TEXT COSTS WIDTH COLUMNS PATH-ROOM WORD-ROOM WORK-ROOM LAST ALPHABET   Read
//   X NAME COSTS WIDTH COLUMNS WORK-ROOM LAST WORDS                          Compare with the form of these words, and the other way round
#![tactic(auto)]

ghost use Rattle.vectors_fields.specs.Fields.{Counts};

mod calls;
mod line;
mod matrices;
mod show;

use line::Line;
use std::io;
use std::io::Read;

// The form that the lines use: the first `length` words of the memory, or all.
#[derive(Drop)]
struct Form {
    memory: [u32; 16258],
    length: usize,
}

impl Form {
    fn words(&self) -> &[u32] {
        &self.memory[..self.length.min(16258)]
    }
}

// Makes the call of a line with this form; a line of another kind calls nothing.
// (No enum of the letters: each letter is matched once, here or in `run`.)
fn call(rt: &impl Print, line: Line, form: &[u32]) -> io::Result<()> {
    match line.kind() {
        b'C' => calls::labels(rt, "collapse", line, kavurehy::kavurehy_collapse)?,
        b'S' => calls::labels(rt, "spread", line, kavurehy::kavurehy_spread)?,
        b'P' => calls::costs(rt, line)?,
        b'J' => calls::judge(rt, line, form)?,
        b'D' => matrices::decode(rt, line, form)?,
        b'R' => matrices::read(rt, line)?,
        b'X' => matrices::compare(rt, line, form)?,
        _ => {}
    }
    println!(rt)
}

// Does what the line says.
fn run(rt: &impl Print, line: Line, form: &mut Form) -> io::Result<()> {
    match line.kind() {
        b'E' => form.length = calls::compile(rt, line, &mut form.memory)?,
        b'L' => form.length = calls::compile_list(rt, line, &mut form.memory)?,
        b'F' => form.length = line.words(1, &mut form.memory).len(),
        b'N' => form.length = line.size(1),
        _ => call(rt, line, form.words())?,
    }
    Ok(())
}

fn run_all(rt: &impl Print, input: &[u8]) -> io::Result<()> {
    let mut form = Form {
        memory: [9; 16258],
        length: 0,
    };
    for piece in input.split_inclusive(|b| *b == b'\n') {
        let bytes = piece.strip_suffix(b"\n").unwrap_or(piece);
        run(rt, Line { bytes }, &mut form)?;
    }
    Ok(())
}

// Reads until the buffer is full, the input ends or a read fails, and returns how many bytes came.
// (Not `read_input` of `sheet`, to which a failed read is an error.)
fn read_full<R: Read>(stdin: &mut R, buffer: &mut [u8]) -> usize
    ensures { Counts result buffer.new }
{
    let mut done = 0;
    while let Ok(got @ 1..) = stdin.read(&mut buffer[done..]) {
        done += got;
    }
    done
}

fn main(rt: HostRuntime) -> io::Result<()> {
    let mut input = [0u8; 65536];
    let n = read_full(&mut rt.stdin(), &mut input);
    run_all(&rt, &input[..n])
}
