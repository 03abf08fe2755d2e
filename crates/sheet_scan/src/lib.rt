// The sheet's input layout (document 01, "Confidences and the sheet program"): where its lines end, and its costs into lent memory.
#![tactic(auto)]

ghost use Rattle.std.specs.Prelude.{◌≡◌, length};
ghost use Rattle.sheet_scan.specs.Answers.{Scans};

use sheet_columns::store_matrix;
use text_lines::line_end;

// The lengths of a sheet's first two lines, and its matrix's width and count.
#[derive(Clone, Copy)]
pub struct Sheet {
    pub alphabet: usize,
    pub text: usize,
    pub width: usize,
    pub count: usize,
}

// Parses a sheet and stores its costs in the lent memory. For what is no sheet (refusal 18) that memory may hold anything afterwards.
// (Not `first_line` of wordlist_lines, which answers two texts: `Scans` speaks of places in the one input.)
pub fn scan(input: &[u8], costs: &mut [u32]) -> Option<Sheet>
    requires { length costs.old ≡ 16384 }
    ensures { Scans input.now costs.old costs.new result }
{
    if 65535 < input.len() {
        return None;
    }
    let first = line_end(input, 0);
    if first == input.len() {
        return None;
    }
    let begin = first + 1;
    let second = line_end(input, begin);
    if second == input.len() {
        return None;
    }
    let matrix = store_matrix(input, second + 1, costs, first + 1)?;
    Some(Sheet {
        alphabet: first,
        text: second - begin,
        width: matrix.width,
        count: matrix.count,
    })
}
