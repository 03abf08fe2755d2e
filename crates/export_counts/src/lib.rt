// An answer handed back: 0 or the number of the refusal, and its counts in an array, zeros at a refusal.
#![tactic(auto)]

ghost use Rattle.std.specs.Prelude.{◌≡◌, ◌<◌, ◌^◌, cond, [], ◌∷◌};
ghost use Rattle.refusal.specs.Fills.{reported};
ghost use Rattle.answers.specs.Judgement.{reported as judgement};
ghost use Rattle.export_counts.specs.Handed.{length_alone, Hands, HandsJudgement, number_or_zero, counts_or};

use refusal::Refusal;

// Hands back the counts of an answer, or `none` at a refusal; returns 0 or the number of the refusal.
pub fn hand<C: Copy>(answer: Result<C, Refusal>, none: C, handed: &mut C) -> u32
    ensures number { result ≡ number_or_zero answer }
    ensures counts { handed.new ≡ counts_or none answer }
{
    match answer {
        Ok(counts) => {
            *handed = counts;
            0
        }
        Err(r) => {
            *handed = none;
            r.into()
        }
    }
}

// The number of a call that fills one list, where the caller knows the length.
// (Not `hand`: no counts are handed back, and an empty array for them would be no plainer.)
pub fn hand_number(answer: Result<usize, Refusal>) -> u32
    ensures { result ≡ (reported answer).number }
{
    match answer {
        Ok(_) => 0,
        Err(r) => r.into(),
    }
}

// The length of a list as a count.
fn one_count(n: usize) -> [u32; 1]
    requires { n < 2 ^ 32 }
    ensures { result ≡ n ∷ [] }
{
    [n as u32]
}

// 1 for a word that Judge accepts, else 0.
fn one_or_zero(accepted: bool) -> [u32; 1]
    ensures { result ≡ cond accepted 1 0 ∷ [] }
{
    [u32::from(accepted)]
}

// Hands back the length of the list that a call fills.
pub fn hand_length(answer: Result<usize, Refusal>, counts: &mut [u32; 1]) -> u32
    requires { (reported answer).filled < 2 ^ 32 }
    ensures { Hands length_alone (reported answer) counts.new result }
{
    hand(answer.map(one_count), [0], counts)
}

// Hands back 1 for a word that Judge accepts, else 0.
pub fn hand_judgement(answer: Result<bool, Refusal>, accepted: &mut [u32; 1]) -> u32
    ensures { HandsJudgement (judgement answer) accepted.new result }
{
    hand(answer.map(one_or_zero), [0], accepted)
}
