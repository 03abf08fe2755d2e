// Prints answers and lists. What is written is compared with the stored output; no contract can speak of it.
ghost use Rattle.std.specs.Prelude.{◌≡◌, nat_abs};

use std::fmt::Display;
use std::io;
use std::io::Write;

// A field as it stands in the line.
pub fn field(rt: &impl Print, field: &[u8]) -> io::Result<()> {
    io::writer(rt).write_all(field)
}

// Numbers, each after a space.
pub fn numbers<T: Display>(rt: &impl Print, list: &[T]) -> io::Result<()> {
    for x in list {
        print!(rt; " {x}")?;
    }
    Ok(())
}

// A bar and a part of memory.
pub fn memory<T: Display>(rt: &impl Print, list: &[T]) -> io::Result<()> {
    print!(rt; " |")?;
    numbers(rt, list)
}

// The answer of a call that fills one list.
pub fn filled(rt: &impl Print, refused: u32, length: u32) -> io::Result<()> {
    match refused {
        0 => print!(rt; " filled {length}"),
        r => print!(rt; " refused {r}"),
    }
}

// The answer of Judge.
pub fn judged(rt: &impl Print, refused: u32, accepted: u32) -> io::Result<()> {
    match (refused, accepted) {
        (0, 1) => print!(rt; " accepted"),
        (0, _) => print!(rt; " rejected"),
        (r, _) => print!(rt; " refused {r}"),
    }
}

// The answer of Decode and Read.
pub fn path(rt: &impl Print, refused: u32, price: u32, length: u32) -> io::Result<()> {
    match refused {
        0 => print!(rt; " price {price} length {length}"),
        r => print!(rt; " refused {r}"),
    }
}

// What Read answers besides: the form's length.
pub fn form(rt: &impl Print, refused: u32, length: u32) -> io::Result<()> {
    match refused {
        0 => print!(rt; " form {length}"),
        _ => Ok(()),
    }
}

// A number without its sign, in a function so that a clause says what is printed.
fn magnitude(d: i32) -> u32
    ensures { result ≡ nat_abs d }
{
    d.unsigned_abs()
}

// The answer of Compare: the difference also at a refusal.
pub fn difference(rt: &impl Print, refused: u32, d: i32) -> io::Result<()> {
    if refused != 0 {
        print!(rt; " refused {refused}")?;
    }
    let sign = if d < 0 { " minus" } else { "" };
    print!(rt; " difference{sign} {}", magnitude(d))
}
