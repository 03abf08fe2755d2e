// A set of states with the list of its members, so that loops go over members only. The list has one place more than there are states,
// so that the place after its last member can always be written.
#![tactic(auto)]

ghost use Rattle.std.specs.Prelude.{◌≡◌, ◌<◌, List, Bool, MatchBool, ℕ};
ghost use Rattle.lists.specs.Marks.{Has, Marks};
ghost use Rattle.trellis_members.specs.Members.{Members, Lists, IsEmpty, JustIf};

use std::marker::Model;

// Kept as two arrays and a count: no heap, and a state is put without a jump (docs/DECISIONS, the set of states in the trace).
#[derive(Drop)]
pub struct States {
    set: [bool; 255],
    list: [u8; 256],
    count: usize,
}

// Contracts see the set alone.
impl Model for States {
    ghost Value = { List Bool };

    ghost view = { λ s. s.set };

    ghost invariant = { λ s. Members s.set s.list s.count };
}

impl States {
    // The set whose members are the first `count` of the list, each of them once.
    pub fn from_parts(set: [bool; 255], list: [u8; 256], count: usize) -> States
        requires { Members set list count }
        ensures { result ≡ set }
    {
        States { set, list, count }
    }

    // No state.
    pub fn new() -> States
        ensures { IsEmpty result }
    {
        States::from_parts([false; 255], [0; 256], 0)
    }

    pub fn is_empty(&self) -> bool
        ensures { MatchBool result (IsEmpty self.now) ((u : ℕ) × Has self.now u) }
    {
        self.count == 0
    }

    // The members, each of them once.
    #[tactic(auto, using(crate::specs::MembersLaws::members_most))]
    pub fn listed(&self) -> &[u8]
        ensures { Lists self.now result.now }
    {
        &self.list[..self.count]
    }

    // Puts state u if it fits, unless it is there. There is no branch: the list is always written after its last member.
    #[tactic(auto, using(crate::specs::MembersLaws::members_most))]
    pub fn put_if(&mut self, fits: bool, u: usize)
        requires { u < 255 }
        ensures { Marks (JustIf fits u) self.old self.new }
    {
        let added = fits & !self.set[u];
        self.set[u] |= fits;
        self.list[self.count] = u as u8;
        self.count += added as usize;
    }

    // Takes all members out.
    #[tactic(auto, using(crate::specs::MembersLaws::members_most))]
    pub fn clear(&mut self)
        ensures { IsEmpty self.new }
    {
        for &u in &self.list[..self.count] {
            self.set[usize::from(u)] = false;
        }
        self.count = 0;
    }
}
