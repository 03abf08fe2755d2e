// A word's labels as characters of the alphabet, written in place of the labels (demand 3).
#![tactic(auto)]

ghost use Rattle.std.specs.Prelude.{◌≡◌};
ghost use Rattle.read_spelling.specs.InPlace.{Labels, Spelt};

// Replaces each of the first n labels by its character.
// (A word and n, not the front alone: `Spelt` speaks of the whole word.)
pub fn write_characters(alphabet: &[u8], word: &mut [u8], n: usize)
    requires { Labels alphabet.now word.old n }
    ensures { Spelt alphabet.now n word.old word.new }
{
    for x in word[..n].iter_mut() {
        *x = alphabet[usize::from(*x) - 1];
    }
}
