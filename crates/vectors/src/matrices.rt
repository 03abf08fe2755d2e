// Decode, Read and Compare, with the costs in field 2 and the sizes in fields 3 and 4.
ghost use Rattle.std.specs.Prelude.{◌≤◌, length};

use super::line::Line;
use super::show;
use std::io;

// The last n words of work memory.
fn last(rt: &impl Print, work: &[u32], n: usize) -> io::Result<()>
    requires { n ≤ length work.now }
{
    show::memory(rt, &work[work.len() - n..])
}

// The path, word and work memory that was lent.
fn lent(rt: &impl Print, line: Line, path: &[u8], word: &[u8], work: &[u32]) -> io::Result<()> {
    show::memory(rt, path)?;
    show::memory(rt, word)?;
    last(rt, work, line.room(8, work.len()))
}

// (The arrays stand here and in `read`: a struct of them would be taken apart for the call, whose parts are those of the C interface.)
pub fn decode(rt: &impl Print, line: Line, form: &[u32]) -> io::Result<()> {
    let mut costs = [0; 768];
    let mut path = [9; 256];
    let mut word = [9; 256];
    let mut work = [9; 65281];
    let path = &mut path[..line.room(5, 256)];
    let word = &mut word[..line.room(6, 256)];
    let work = &mut work[..line.room(7, 65281)];
    let mut counts = [0; 2];
    let refused = kavurehy::kavurehy_decode(
        form,
        line.costs(2, &mut costs),
        line.size(3),
        line.size(4),
        path,
        word,
        work,
        &mut counts,
    );
    show::field(rt, line.field(1))?;
    show::path(rt, refused, counts[0], counts[1])?;
    lent(rt, line, path, word, work)
}

// With memory for a form of 300 words.
pub fn read(rt: &impl Print, line: Line) -> io::Result<()> {
    let mut costs = [0; 768];
    let mut form = [9; 300];
    let mut path = [9; 256];
    let mut word = [9; 256];
    let mut work = [9; 65281];
    let path = &mut path[..line.room(5, 256)];
    let word = &mut word[..line.room(6, 256)];
    let work = &mut work[..line.room(7, 65281)];
    let mut counts = [0; 3];
    let refused = kavurehy::kavurehy_read(
        line.field(9),
        line.field(1),
        line.costs(2, &mut costs),
        line.size(3),
        line.size(4),
        &mut form,
        path,
        word,
        work,
        &mut counts,
    );
    show::field(rt, line.field(1))?;
    show::path(rt, refused, counts[0], counts[1])?;
    show::form(rt, refused, counts[2])?;
    lent(rt, line, path, word, work)
}

// Compare: the answer and the last work words.
fn compared(rt: &impl Print, line: Line, first: &[u32], second: &[u32]) -> io::Result<()> {
    let mut costs = [0; 768];
    let mut work = [9; 65281];
    let work = &mut work[..line.room(5, 65281)];
    let mut difference = [9; 1];
    let refused = kavurehy::kavurehy_compare(
        first,
        second,
        line.costs(2, &mut costs),
        line.size(3),
        line.size(4),
        work,
        &mut difference,
    );
    show::difference(rt, refused, difference[0])?;
    last(rt, work, line.room(6, work.len()))
}

// The form with another, and the other way round.
pub fn compare(rt: &impl Print, line: Line, form: &[u32]) -> io::Result<()> {
    let mut other = [0; 300];
    let other = line.words(7, &mut other);
    show::field(rt, line.field(1))?;
    compared(rt, line, form, other)?;
    compared(rt, line, other, form)
}
