// Decode's and Read's answers handed back: 0 or the number of the refusal, and the price and lengths in an array, zeros at a refusal.
#![tactic(auto)]

ghost use Rattle.std.specs.Prelude.{◌≡◌, ◌<◌, ◌^◌, [], ◌∷◌};
ghost use Rattle.answers.specs.Decoded.{reported as decoded};
ghost use Rattle.answers.specs.Reading.{reported as read};
ghost use Rattle.export_counts.specs.Handed.{price_and_length, price_and_lengths, Hands};

use answers::{Decoded, Reading};
use export_counts::hand;
use refusal::Refusal;

// The counts of Decode's answer.
fn decoded_counts(path: Decoded) -> [u32; 2]
    requires { path.length < 2 ^ 32 }
    ensures { result ≡ path.price ∷ path.length ∷ [] }
{
    [path.price, path.length as u32]
}

// The counts of Read's answer.
fn reading_counts(path: Reading) -> [u32; 3]
    requires { (path.length < 2 ^ 32) × (path.form < 2 ^ 32) }
    ensures { result ≡ path.price ∷ path.length ∷ path.form ∷ [] }
{
    [path.price, path.length as u32, path.form as u32]
}

// Hands back Decode's price and the length of its word.
pub fn hand_decoded(answer: Result<Decoded, Refusal>, counts: &mut [u32; 2]) -> u32
    requires { (decoded answer).filled < 2 ^ 32 }
    ensures { Hands price_and_length (decoded answer) counts.new result }
{
    hand(answer.map(decoded_counts), [0; 2], counts)
}

// Hands back Read's price, the length of its word and that of the form.
pub fn hand_reading(answer: Result<Reading, Refusal>, counts: &mut [u32; 3]) -> u32
    requires { ((read answer).filled < 2 ^ 32) × ((read answer).form < 2 ^ 32) }
    ensures { Hands price_and_lengths (read answer) counts.new result }
{
    hand(answer.map(reading_counts), [0; 3], counts)
}
