// Compare's answer handed back: 0 or the number of the refusal, and the difference in an array, 0 at a refusal.
#![tactic(auto)]

ghost use Rattle.std.specs.Prelude.{◌≡◌, [], ◌∷◌};
ghost use Rattle.comparison.specs.Comparison.{reported};
ghost use Rattle.export_difference.specs.Handed.{HandsDifference};

use export_counts::hand;
use refusal::Refusal;

// The difference that is handed back.
fn one_difference(d: i32) -> [i32; 1]
    ensures { result ≡ d ∷ [] }
{
    [d]
}

// Hands back the first price less the second.
pub fn hand_difference(answer: Result<i32, Refusal>, difference: &mut [i32; 1]) -> u32
    ensures { HandsDifference (reported answer) difference.new result }
{
    hand(answer.map(one_difference), [0], difference)
}
