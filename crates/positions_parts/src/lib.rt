// Puts parts of an automaton together: unites sets of letters and adds arcs (document 01, "Opening and the compiled form"). Letter i is at
// index i - 1.
#![tactic(auto)]

ghost use Rattle.std.specs.Prelude.{◌≤◌, length};
ghost use Rattle.positions_parts.specs.Together.{Chosen, Joined, Looped, Spared};

use positions_follow::{link, unite};

// A part that was built: where it ends in the text; how many letters there are up to its end; whether it has the empty word; and which
// letters may be first in it, and which last.
#[derive(Clone, Copy)]
pub struct Built {
    pub end: usize,
    pub letters: usize,
    pub nullable: bool,
    pub first: [bool; 127],
    pub last: [bool; 127],
}

impl Built {
    // One part or the other.
    #[tactic(auto, unfolding(crate::specs::Together::United))]
    pub fn or(mut self, b: Built) -> Built
        ensures { Chosen self b result }
    {
        unite(&mut self.first, &b.first);
        unite(&mut self.last, &b.last);
        Built {
            nullable: self.nullable || b.nullable,
            first: self.first,
            last: self.last,
            ..b
        }
    }

    // One part and then the other: an arc from each last letter of the one to each first of the other.
    #[tactic(auto, unfolding(crate::specs::Together::United))]
    pub fn then(mut self, mut b: Built, follow: &mut [[bool; 127]]) -> Built
        requires { 127 ≤ length follow.old }
        ensures { Joined self b result follow.old follow.new }
    {
        link(follow, &self.last, &b.first);
        if self.nullable {
            unite(&mut self.first, &b.first);
        }
        if b.nullable {
            unite(&mut b.last, &self.last);
        }
        Built {
            nullable: self.nullable && b.nullable,
            first: self.first,
            ..b
        }
    }

    // Adds an arc from each last letter of the part to each first, if `onward` is true: the part may be repeated without limit.
    pub fn again(&self, onward: bool, follow: &mut [[bool; 127]])
        requires { 127 ≤ length follow.old }
        ensures { Looped onward self.now.last self.now.first follow.old follow.new }
    {
        if onward {
            link(follow, &self.last, &self.first);
        }
    }

    // The part, or also nothing if `spare` is true; it ends at `end`.
    pub fn perhaps(self, spare: bool, end: usize) -> Built
        ensures { Spared self spare end result }
    {
        Built {
            end,
            nullable: spare || self.nullable,
            ..self
        }
    }
}
