// Compile, CompileList and Judge, Collapse and Spread, the costs of confidences.
use super::line::Line;
use super::show;
use std::io;

// Makes a call that fills `form`, prints its answer and returns the form's length.
fn compiled<F: Fn(&mut [u32], &mut [u32; 1]) -> u32>(
    rt: &impl Print,
    form: &mut [u32],
    call: &F,
) -> io::Result<usize>
    requires { F.IsAlwaysCallable call.now }
{
    let mut counts = [0; 1];
    let refused = call(form, &mut counts);
    show::filled(rt, refused, counts[0])?;
    Ok(counts[0] as usize)
}

// With memory for ten words, then with all; returns the form's length.
fn compiled_twice<F: Fn(&mut [u32], &mut [u32; 1]) -> u32>(
    rt: &impl Print,
    form: &mut [u32],
    call: &F,
) -> io::Result<usize>
    requires { F.IsAlwaysCallable call.now }
{
    let mut small = [9; 10];
    compiled(rt, &mut small, call)?;
    show::memory(rt, &small)?;
    print!(rt; " |")?;
    let words = compiled(rt, form, call)?;
    println!(rt)?;
    Ok(words)
}

pub fn compile(rt: &impl Print, line: Line, form: &mut [u32]) -> io::Result<usize> {
    let alphabet = line.field(1);
    let text = line.field(2);
    show::field(rt, text)?;
    compiled_twice(
        rt,
        form,
        &|form: &mut [u32], counts: &mut [u32; 1]| {
            kavurehy::kavurehy_compile(alphabet, text, form, counts)
        },
    )
}

pub fn compile_list(rt: &impl Print, line: Line, form: &mut [u32]) -> io::Result<usize> {
    let alphabet = line.field(2);
    let mut bytes = [0; 256];
    let list = line.labels(3, &mut bytes);
    show::field(rt, line.field(1))?;
    print!(rt; ":")?;
    compiled_twice(
        rt,
        form,
        &|form: &mut [u32], counts: &mut [u32; 1]| {
            kavurehy::kavurehy_compile_list(alphabet, list, form, counts)
        },
    )
}

pub fn judge(rt: &impl Print, line: Line, form: &[u32]) -> io::Result<()> {
    let mut word = [0; 256];
    let mut accepted = [0; 1];
    let refused = kavurehy::kavurehy_judge(form, line.labels(2, &mut word), &mut accepted);
    show::field(rt, line.field(1))?;
    print!(rt; ":")?;
    show::judged(rt, refused, accepted[0])
}

// Collapse or Spread, by its name.
pub fn labels<F: Fn(usize, &[u8], &mut [u8], &mut [u32; 1]) -> u32>(
    rt: &impl Print,
    name: &str,
    line: Line,
    call: F,
) -> io::Result<()>
    requires { F.IsAlwaysCallable call }
{
    let mut given = [0; 256];
    let given = line.labels(2, &mut given);
    let mut memory = [9; 512];
    let memory = &mut memory[..line.room(3, 512)];
    let mut counts = [0; 1];
    let refused = call(line.size(1), given, memory, &mut counts);
    print!(rt; "{name}")?;
    show::numbers(rt, given)?;
    print!(rt; ":")?;
    show::filled(rt, refused, counts[0])?;
    show::memory(rt, memory)
}

// The costs of confidences, one for each; the call returns 0 or a refusal's number.
pub fn costs(rt: &impl Print, line: Line) -> io::Result<()> {
    let mut given = [0; 256];
    let given = line.labels(1, &mut given);
    let mut memory = [9; 256];
    let memory = &mut memory[..line.room(2, 256)];
    let refused = kavurehy::kavurehy_costs(given, memory);
    print!(rt; "costs")?;
    show::numbers(rt, given)?;
    print!(rt; ": {refused}")?;
    show::memory(rt, memory)
}
