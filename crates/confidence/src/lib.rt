// The call Costs: the cost of each confidence of a list, from a table (document 01, "Confidences and the sheet program"; document 02,
// T-03). The program `confidence_table` prints the table's file.
#![tactic(auto)]

mod table;

ghost use Rattle.std.specs.Prelude.{◌≡◌, ◌≤◌, map, length};
ghost use Rattle.lists.specs.Memory.{Wrote};
ghost use Rattle.refusal.specs.Fills.{reported, Fills};
ghost use Rattle.confidence_rule.specs.Cost.{cost_of};
ghost use Rattle.confidence.specs.Cost.{costs_call};
ghost use Rattle.confidence.specs.Table.{all_costs};

use refusal::Refusal;
use table::COSTS;

// The cost of one confidence: its entry in the table.
fn cost(table: &[u32; 256], c: u8) -> u32
    requires { table.now ≡ all_costs }
    ensures { result ≡ cost_of c }
{
    table[usize::from(c)]
}

// Writes the cost of each confidence. The table is lent, since a constant array is built anew at each use
// (it is `const`, as confidence_table prints it).
fn write_costs(table: &[u32; 256], confidences: &[u8], costs: &mut [u32]) -> usize
    requires { (table.now ≡ all_costs) × (length confidences.now ≤ length costs.old) }
    ensures { Wrote (map cost_of confidences.now) costs.old costs.new result }
{
    for (i, &c) in confidences.iter().enumerate() {
        costs[i] = cost(table, c);
    }
    confidences.len()
}

// The call: one cost for each confidence.
pub fn costs(confidences: &[u8], costs: &mut [u32]) -> Result<usize, Refusal>
    ensures { Fills (costs_call confidences.now (length costs.old)) (reported result) costs.old costs.new }
{
    if costs.len() < confidences.len() {
        return Err(Refusal::OutputMemory);
    }
    Ok(write_costs(&COSTS, confidences, costs))
}
