// The cost of a confidence byte, computed by the eighth-power rule (document 01, "Confidences and the sheet program"); that of 0 is the cost
// of a barred label (document 02, T-06). The program `confidence_table` computes the table of costs by this crate.
#![tactic(auto)]

ghost use Rattle.std.specs.Prelude.{◌≡◌};
ghost use Rattle.confidence_rule.specs.Cost.{shift, cost_of};

use matrix::BARRED;

// The largest n with 2ⁿ × p ≤ 2⁶⁴, up to 64: as many bits as are 0 before the first 1 of p - 1.
fn largest_shift(p: u64) -> u32
    ensures { result ≡ shift p }
{
    p.saturating_sub(1).leading_zeros()
}

// The cost of one confidence.
pub fn cost(c: u8) -> u32
    ensures { result ≡ cost_of c }
{
    if c == 0 {
        return BARRED;
    }
    largest_shift(u64::from(c).pow(8))
}
