// Is a list an alphabet (document 01, "Alphabet, labels, paths"), and is a list a text ("Expression text")? Refusals 1 to 3. How many labels
// has a character?
#![tactic(auto)]

ghost use Rattle.std.specs.Prelude.{◌≡◌, length};
ghost use Rattle.refusal.specs.Verdict.{first_refusal};
ghost use Rattle.alphabet.specs.Labels.{labels_of_character};
ghost use Rattle.alphabet.specs.Alphabet.{is_alphabet, text_checks};

use ctc_labels::all_in_range;
use refusal::Refusal;

// 1 to 95 bytes, each 32 to 126?
pub fn is_alphabet(list: &[u8]) -> bool
    ensures { result ≡ is_alphabet list.now }
{
    (1..=95).contains(&list.len()) && all_in_range(32, 126, list)
}

// The checks of an alphabet and a text: refusals 1, 2 and 3.
#[tactic(auto, unfolding(refusal::specs::Verdict::first_refusal))]
pub fn check_text(alphabet: &[u8], text: &[u8]) -> Result<(), Refusal>
    ensures { result ≡ first_refusal (text_checks alphabet.now text.now) }
{
    if !is_alphabet(alphabet) {
        return Err(Refusal::Alphabet);
    }
    if !(1..=255).contains(&text.len()) {
        return Err(Refusal::TextLength);
    }
    if !all_in_range(32, 126, text) {
        return Err(Refusal::TextByte);
    }
    Ok(())
}

// How many labels a character has.
#[tactic(auto, using(crate::proofs::LabelsLaws::labels_counted))]
pub fn count_labels(alphabet: &[u8], character: u8) -> usize
    ensures { result ≡ length (labels_of_character alphabet.now character) }
{
    alphabet.iter().filter(|&&b| b == character).count()
}
