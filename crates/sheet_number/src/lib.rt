// One number of a sheet (document 01, "Confidences and the sheet program"): the cost that is written at a place.
// `input` and `at` stay two parameters: an answer is a place in the one input that the definitions speak of.
#![tactic(auto)]

ghost use Rattle.std.specs.Prelude.{◌≡◌, ◌≤◌, length};
ghost use Rattle.sheet_number.specs.Items.{separator, ReadNumber, ReadCost, bar_at};
ghost use Rattle.sheet_number.specs.Digits.{padded, Digits};

use matrix::BARRED;
use text::peek;

// What is written at a place, as a number, and the place after it.
#[derive(Clone, Copy)]
pub struct Item {
    pub value: u32,
    pub end: usize,
}

// Is it a space or a newline?
fn is_separator(b: u8) -> bool
    ensures { result ≡ separator b }
{
    b == b' ' || b == b'\n'
}

// Do `count` digits, the first of them b, begin with an extra zero?
fn is_padded(count: usize, b: u8) -> bool
    ensures { result ≡ padded count b }
{
    2 <= count && b == b'0'
}

// The digits from `at` on, at most seven.
fn read_digits(input: &[u8], at: usize) -> Item
    requires { at ≤ length input.now }
    ensures { Digits input.now at result.end result.value }
{
    let mut value = 0;
    for (count, &b) in input[at..].iter().enumerate() {
        if count == 7 || !b.is_ascii_digit() {
            return Item {
                value,
                end: at + count,
            };
        }
        value = 10 * value + u32::from(b - b'0');
    }
    Item {
        value,
        end: input.len(),
    }
}

// The number that is written at `at`, as a cost.
fn read_number(input: &[u8], at: usize) -> Option<Item>
    requires { at ≤ length input.now }
    ensures { ReadNumber input.now at result }
{
    let number = read_digits(input, at);
    let passes = at < number.end
        && !is_padded(number.end - at, input[at])
        && is_separator(peek(input, number.end));
    passes.then_some(number)
}

// Is a lone `-` at `at`?
fn is_bar(input: &[u8], at: usize) -> bool
    requires { at ≤ length input.now }
    ensures { result ≡ bar_at input.now at }
{
    peek(input, at) == b'-' && is_separator(peek(input, at + 1))
}

// The cost that is written at `at`, and the place of the space or newline after it: a number, or `-` for a barred label.
pub fn read_cost(input: &[u8], at: usize) -> Option<Item>
    requires { at ≤ length input.now }
    ensures { ReadCost input.now at result }
{
    if is_bar(input, at) {
        return Some(Item {
            value: BARRED,
            end: at + 1,
        });
    }
    read_number(input, at)
}
