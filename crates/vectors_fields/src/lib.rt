// The fields of a line of text, with tabs between them, and the numbers in a field, for the program `vectors`.
#![tactic(auto)]

ghost use Rattle.std.specs.Prelude.{◌≡◌, false, map, ◌-◌, ◌≤◌, min, length, take, drop};
ghost use Rattle.lists.specs.Memory.{Wrote};
ghost use Rattle.lists.specs.Stored.{Stored};
ghost use Rattle.vectors_fields.specs.Fields.{field_of, numbers_of, size_of, low, labels_of, Counts, ended, onward};

use matrix::BARRED;

// Where field k begins: after the k-th tab, or at the end.
fn start(line: &[u8], k: usize) -> usize
    ensures { (result ≤ length line.now) × (field_of (drop result line.now) 0 ≡ field_of line.now k) }
{
    let mut at = 0;
    for _ in 0..k {
        at = text::find(line, at, b'\t');
        if at == line.len() {
            return at;
        }
        at += 1;
    }
    at
}

// Field k of a line.
pub fn field(line: &[u8], k: usize) -> &[u8]
    ensures { result.now ≡ field_of line.now k }
{
    let a = start(line, k);
    let e = text::find(line, a, b'\t');
    &line[a..e]
}

// The number with one more digit; 0 after a space, and the cost of a barred label after `-`.
// (`hexadecimal` is a flag and no enum: it is asked in one place, here.)
fn longer(v: u32, hexadecimal: bool, b: u8) -> u32
    ensures { result ≡ onward hexadecimal v b }
{
    let w = v % 268435456;
    let d = u32::from(b % 16);
    match b {
        b' ' => 0,
        b'-' => BARRED,
        _ if !hexadecimal => 10 * w + d,
        b'A'.. => 16 * w + (d + 9) % 16,
        _ => 16 * w + d,
    }
}

// Appends the number v to the list if the byte b ends it and there is room, and returns how many the list has.
// (A list and its next place, no struct of both: `Stored` speaks of the list before and after and of both places, in a private step.)
fn push(list: &mut [u32], n: usize, v: u32, b: u8) -> usize
    requires { n ≤ length list.old }
    ensures stored { Stored (take (length list.old - n) (ended b v)) n list.old list.new result }
    ensures upper_bound { result ≤ length list.new }
{
    if b != b' ' || n == list.len() {
        return n;
    }
    list[n] = v;
    n + 1
}

// Writes the numbers of a field to `list`, as many as there is room for, and returns how many.
pub fn numbers(field: &[u8], hexadecimal: bool, list: &mut [u32]) -> usize
    ensures wrote { Wrote (take (length list.old) (numbers_of hexadecimal field.now)) list.old list.new result }
    ensures counts { Counts result list.new }
{
    if field.is_empty() {
        return 0;
    }
    let mut n = 0;
    let mut v = 0;
    for &b in field {
        n = push(list, n, v, b);
        v = longer(v, hexadecimal, b);
    }
    push(list, n, v, b' ')
}

// The first number of a field; a field that begins with `-` means the largest size.
pub fn size(field: &[u8]) -> usize
    ensures { result ≡ size_of field.now }
{
    if text::peek(field, 0) == b'-' {
        return usize::MAX;
    }
    let mut list = [0u32; 1];
    numbers(field, false, &mut list);
    list[0] as usize
}

// The first number of a field, at most `most`: a length of memory.
pub fn room(field: &[u8], most: usize) -> usize
    ensures { (result ≡ min (size_of field.now) most) × (result ≤ most) }
{
    size(field).min(most)
}

// Writes the first n numbers as bytes, as many as there is room for, and returns how many.
// (By index: a zip with `iter_mut` leaves nothing known of what is written.)
fn narrow(list: &[u32], n: usize, bytes: &mut [u8]) -> usize
    requires { n ≤ length list.now }
    ensures wrote { Wrote (take (length bytes.old) (map low (take n list.now))) bytes.old bytes.new result }
    ensures upper_bound { result ≤ length bytes.new }
{
    let count = n.min(bytes.len());
    for i in 0..count {
        bytes[i] = (list[i] % 256) as u8;
    }
    count
}

// Writes the first 256 numbers of a field as bytes, as many as there is room for, and returns how many.
pub fn labels(field: &[u8], bytes: &mut [u8]) -> usize
    ensures wrote { Wrote (take (length bytes.old) (labels_of field.now)) bytes.old bytes.new result }
    ensures counts { Counts result bytes.new }
{
    let mut list = [0u32; 256];
    let n = numbers(field, false, &mut list);
    narrow(&list, n, bytes)
}
