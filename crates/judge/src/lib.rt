// The call Judge: does a form accept a word (document 01, "Opening and the compiled form")?
#![tactic(auto)]

ghost use Rattle.std.specs.Prelude.{◌≡◌};
ghost use Rattle.answers.specs.Judgement.{report, reported};
ghost use Rattle.automaton.specs.Form.{view};
ghost use Rattle.automaton.specs.Accepted.{accepts as accepts_of};
ghost use Rattle.judge.specs.Judge.{judged};

use form_check::checked;
use form_sets::{advance, no_letter, some_may_end};
use form_starts::Arcs;
use form_words::Form;
use refusal::Refusal;

// Does the form accept the word?
fn accepts(form: Form, word: &[u8]) -> bool
    ensures { result ≡ accepts_of (view form.entry.words.now) word.now }
{
    let arcs = Arcs::new(form);
    let mut set = no_letter();
    for &x in word {
        // In two steps: a call's result is not laid into an array that the call was given.
        let next = advance(&arcs, set, usize::from(x));
        set = next;
    }
    some_may_end(form, set)
}

// The call: whether the form accepts the word, or the refusal that applies.
#[tactic(auto, using(crate::proofs::JudgeLaws::judged_invalid, crate::proofs::JudgeLaws::judged_no_word, crate::proofs::JudgeLaws::judged_word))]
pub fn judge(form: &[u32], word: &[u8]) -> Result<bool, Refusal>
    ensures { reported result ≡ report (judged form.now word.now) }
{
    let Some(form) = checked(form) else {
        return Err(Refusal::BadForm);
    };
    if ctc_labels::has_fault(form.alphabet(), 1, word) {
        return Err(Refusal::Label);
    }
    Ok(accepts(form, word))
}
