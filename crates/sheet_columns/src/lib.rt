// The column lines of a sheet (document 01, "Confidences and the sheet program"): their costs into lent memory, their width and count.
// `input` and `at` stay two parameters: an answer is a place in the one input that the definitions speak of.
#![tactic(auto)]

ghost use Rattle.std.specs.Prelude.{◌≤◌, length};
ghost use Rattle.sheet_columns.specs.Storing.{StoredColumn, StoredColumns};
ghost use Rattle.sheet_columns.specs.Matrices.{StoredMatrix};

use sheet_number::read_cost;

// The place after a column line, and how many costs are stored, its own included.
#[derive(Clone, Copy)]
struct Column {
    end: usize,
    filled: usize,
}

// Width and count of the matrix.
#[derive(Clone, Copy)]
pub struct Body {
    pub width: usize,
    pub count: usize,
}

// Stores the costs of the column line that begins at `at`, from place m of the memory on.
// (No `for`: where the next cost begins is what `read_cost` answers for this one. The memory is lent, so `filled` says how much is stored.)
fn store_column(input: &[u8], at: usize, costs: &mut [u32], m: usize) -> Option<Column>
    requires { (at ≤ length input.now) × (m ≤ 16384) × (16384 ≤ length costs.old) }
    ensures { StoredColumn input.now at m costs.old costs.new result }
{
    let mut end = at;
    let mut filled = m;
    loop {
        let cost = read_cost(input, end)?;
        if filled == 16384 {
            return None;
        }
        costs[filled] = cost.value;
        filled += 1;
        end = cost.end + 1;
        if input[cost.end] == b'\n' {
            return Some(Column { end, filled });
        }
    }
}

// Stores the column lines after the first, which is stored already; each must have `width` costs too. Answers how many columns there are.
// (No `for`, as above.)
fn store_columns(input: &[u8], at: usize, costs: &mut [u32], width: usize) -> Option<usize>
    requires { (at ≤ length input.now) × (width ≤ 16384) × (16384 ≤ length costs.old) }
    ensures { StoredColumns width input.now at width 1 costs.old costs.new result }
{
    let mut end = at;
    let mut filled = width;
    let mut count = 1;
    while end < input.len() {
        let column = store_column(input, end, costs, filled)?;
        if column.filled - filled != width {
            return None;
        }
        end = column.end;
        filled = column.filled;
        count += 1;
    }
    Some(count)
}

// Stores all column lines; if there is none, the width is `width_if_none`. If they do not fit, the first 16,384 places of the memory may
// hold anything.
pub fn store_matrix(
    input: &[u8],
    at: usize,
    costs: &mut [u32],
    width_if_none: usize,
) -> Option<Body>
    requires { (at ≤ length input.now) × (16384 ≤ length costs.old) }
    ensures { StoredMatrix width_if_none input.now at costs.old costs.new result }
{
    if at == input.len() {
        return Some(Body {
            width: width_if_none,
            count: 0,
        });
    }
    let first = store_column(input, at, costs, 0)?;
    let width = first.filled;
    let count = store_columns(input, first.end, costs, width)?;
    Some(Body { width, count })
}
