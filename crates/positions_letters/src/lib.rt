// A set or a repetition at a place of the text, for the builder: a set as letters, one for each of its labels, a repetition as copies.
// Letter i is at index i - 1.
#![tactic(auto)]

ghost use Rattle.std.specs.Prelude.{◌≡◌, true, [], ◌+◌, ◌<◌, ◌≤◌, length, drop};
ghost use Rattle.lists.specs.Stored.{Stored};
ghost use Rattle.lists.specs.Lists.{keeping};
ghost use Rattle.regex_tree.specs.Sets.{a_set};
ghost use Rattle.positions.specs.Opened.{labels_of_set};
ghost use Rattle.text.specs.Places.{place};
ghost use Rattle.regex_bracket.specs.Answers.{is_found};
ghost use Rattle.regex_set.specs.Answers.{SetAt, set_at};
ghost use Rattle.positions_letters.specs.Found.{rest_of, counted};
ghost use Rattle.positions_letters.specs.Copies.{copies_by};
ghost use Rattle.positions_letters.specs.Letters.{Ranged, SetRoom, SetBuilds};

use positions_parts::Built;
use regex_count::{copies, is_repeated};
use regex_repetition::repetition;
use regex_set::{member, set_end};

// A repetition: how many copies a word must have, how many are built, whether the last has arcs back, and where the repetition ends.
#[derive(Clone, Copy)]
pub struct Copies {
    pub least: usize,
    pub most: usize,
    pub onward: bool,
    pub end: usize,
}

// The copies of the part that ends at `at`: those of the repetition there, or one if there is no repetition.
pub fn copies_at(text: &[u8], at: usize) -> Copies
    requires { (at ≤ length text.now) × (is_found (counted (drop at text.now)) ≡ true) }
    ensures { result ≡ copies_by text.now (counted (drop at text.now)) }
{
    if !is_repeated(text, at) {
        return Copies {
            least: 1,
            most: 1,
            onward: false,
            end: at,
        };
    }
    let r = repetition(text, at).unwrap();
    Copies {
        least: r.least,
        most: r.most.unwrap_or(copies(r.least)),
        onward: r.most.is_none(),
        end: r.end,
    }
}

// The letters `from` + 1 to `to`.
fn range(from: usize, to: usize) -> [bool; 127]
    requires { (from ≤ to) × (to ≤ 127) }
    ensures { Ranged from to result }
{
    let mut r = [false; 127];
    r[from..to].fill(true);
    r
}

// The text of an expression, and the alphabet whose labels its sets have.
#[derive(Clone, Copy)]
pub struct Source<'a> {
    pub alphabet: &'a [u8],
    pub text: &'a [u8],
}

impl Source<'_> {
    // The place after the set that begins at `at`.
    fn after_set(&self, at: usize) -> usize
        requires { SetAt self.now.text.now at }
        ensures { result ≡ place self.now.text.now (rest_of (a_set (drop at self.now.text.now))) }
    {
        set_end(self.text, at).unwrap()
    }

    // Writes the labels of the set that begins at `at`, ascending, from place n on, and returns the next place.
    // (A list and its next place, no struct of both: `Stored` speaks of the list before and after and of both places, in a private step.)
    fn write_labels(&self, at: usize, labels: &mut [u8], n: usize) -> usize
        requires set_at { SetAt self.now.text.now at }
        requires alphabet_len_bound { (length self.now.alphabet.now ≤ 255)
            × (n + length (labels_of_set self.now.alphabet.now (set_at self.now.text.now at)) ≤ length labels.old) }
        ensures { Stored (labels_of_set self.now.alphabet.now (set_at self.now.text.now at)) n labels.old labels.new result }
    {
        let mut m = n;
        for (i, &character) in self.alphabet.iter().enumerate() {
            if member(self.text, at, character) {
                labels[m] = (i + 1) as u8;
                m += 1;
            }
        }
        m
    }

    // Builds the set that begins at `at`, after the first `letters` letters: one letter for each of its labels.
    pub fn set(&self, at: usize, letters: usize, labels: &mut [u8]) -> Built
        requires set_at { SetAt self.now.text.now at }
        requires set_room { SetRoom self.now.alphabet.now (set_at self.now.text.now at) letters labels.old }
        ensures { SetBuilds self.now.alphabet.now self.now.text.now at letters labels.old labels.new result }
    {
        let n = self.write_labels(at, labels, letters);
        let first = range(letters, n);
        Built {
            end: self.after_set(at),
            letters: n,
            nullable: false,
            first,
            last: first,
        }
    }
}
