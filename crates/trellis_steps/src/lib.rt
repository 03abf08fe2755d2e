// The states that a step from a set of states leads to and that lie on a cheapest path. State 2i − 1 is on letter i, and state 2i is in the
// blanks after it. A state lies on a cheapest path if its label's cost and its cost to go add up to what is left to pay.
#![tactic(auto)]

ghost use Rattle.std.specs.Prelude.{◌≡◌, true, ◌↔◌, ◌+◌, ◌*◌, ◌<◌, ◌≤◌, length};
ghost use Rattle.lists.specs.Marks.{Marks, Iterations, Listed};
ghost use Rattle.automaton.specs.Form.{letters_of, alphabet_of, view};
ghost use Rattle.trellis.specs.Reached.{entering as entering_of, Reached};
ghost use Rattle.trellis_steps.specs.Steps.{ColumnReady, Within, AddUp};
ghost use Rattle.trellis_steps.specs.Steps.{Onto, OtherLetter, Led, Following, TargetOf};
ghost use Rattle.trellis_steps.specs.Unique.{ready-prop};

use form_starts::Arcs;
use form_words::label;
use trellis_members::States;

// The label of every step into state u: the blank, or that of its letter.
pub fn entering(form: &[u32], u: usize) -> usize
    requires { (letters_of form.now < length form.now) × (u ≤ 2 * letters_of form.now) }
    ensures { result ≡ entering_of (view form.now) u }
{
    if u % 2 == 0 {
        return 0;
    }
    label(form, (u + 1) / 2)
}

// A column of the trace: the form with its arcs, the column's costs, the costs to go of the next column, and what is left to pay.
#[derive(Clone, Copy)]
pub struct Column<'a> {
    pub arcs: &'a Arcs<'a>,
    pub costs: &'a [u32],
    pub row: &'a [u32],
    pub left: u32,
    ghost ready: { ColumnReady arcs.now.form.words.now costs.now row.now left } by { ready-prop arcs.now.form.words.now costs.now row.now left },
}

impl<'a> Column<'a> {
    ghost use Rattle.trellis_steps.specs.Kept.{words, graph, Kept, KeptIf};

    // The label of every step into state u of the column's form.
    pub fn entering(&self, u: usize) -> usize
        requires { u ≤ 2 * letters_of (words self.now) }
        ensures { result ≡ entering_of (graph self.now) u }
    {
        let form = self.arcs.form;
        entering(form.words, u)
    }

    // Do the cost of label x and the cost to go of state u add up to what is left?
    fn keeps(&self, x: usize, u: usize) -> bool
        requires { (x ≤ alphabet_of (words self.now)) × (u ≤ 2 * letters_of (words self.now)) }
        ensures { (result ≡ true) ↔ AddUp self.now.costs.now self.now.row.now self.now.left x u }
    {
        self.costs[x] as usize + self.row[u] as usize == self.left as usize
    }

    // Puts state u, which is entered by label x, if it lies on a cheapest path.
    fn put_kept_at(&self, x: usize, u: usize, to: &mut States)
        requires { (x ≤ alphabet_of (words self.now)) × (u ≤ 2 * letters_of (words self.now)) }
        ensures { Marks (KeptIf self.now x u) to.old to.new }
    {
        to.put_if(self.keeps(x, u), u);
    }

    // Puts the state on letter j if it is kept, unless its label is `own`, the label that the path is on.
    fn put_letter(&self, own: usize, j: usize, to: &mut States)
        requires { (1 ≤ j) × (j ≤ letters_of (words self.now)) }
        ensures { Marks (Kept self.now (OtherLetter (graph self.now) own j)) to.old to.new }
    {
        let x = self.arcs.form.label(j);
        let u = 2 * j - 1;
        to.put_if((x != own) & self.keeps(x, u), u);
    }

    // Puts the state on letter j if it is kept and may be first, unless its label is `own`.
    #[tactic(auto, using(crate::specs::Loops::led_put, crate::specs::Loops::led_not))]
    fn put_first(&self, own: usize, j: usize, to: &mut States)
        requires { (1 ≤ j) × (j ≤ letters_of (words self.now)) }
        ensures { Marks (Kept self.now (Led (graph self.now) own 0 j)) to.old to.new }
    {
        if self.arcs.form.may_be_first(j) {
            self.put_letter(own, j, to);
        }
    }

    // Puts the kept states on letters that may be first, unless their label is `own`.
    #[tactic(auto, using(crate::specs::Loops::kept_iterations_none, crate::specs::Loops::kept_iterations_more))]
    fn put_firsts(&self, own: usize, to: &mut States)
        ensures { Marks (Kept self.now (Following (graph self.now) own 0)) to.old to.new }
    {
        for j in 1..self.arcs.form.letters() + 1 {
            self.put_first(own, j, to);
        }
    }

    // Puts the kept states on the targets of the arcs from b up to e, unless their label is `own`.
    #[tactic(auto, using(crate::specs::Loops::kept_iterations_none, crate::specs::Loops::kept_iterations_more))]
    fn put_targets(&self, own: usize, b: usize, e: usize, to: &mut States)
        requires { (letters_of (words self.now) < b) × (b ≤ e) × (e ≤ length (words self.now)) }
        ensures { Marks (Kept self.now (Iterations (TargetOf (words self.now) own) b e)) to.old to.new }
    {
        for n in b..e {
            self.put_letter(own, self.arcs.form.target(n), to);
        }
    }

    // Puts the kept states on letters that may follow letter i, unless their label is `own`. (It walks like form_sets' `mark_after`, over
    // other values: one walk over a closure would say `Marks (Iterations ..)` of what the closure puts, no plainer.)
    fn put_after(&self, own: usize, i: usize, to: &mut States)
        requires { i ≤ letters_of (words self.now) }
        ensures { Marks (Kept self.now (Following (graph self.now) own i)) to.old to.new }
    {
        if i == 0 {
            self.put_firsts(own, to);
        } else {
            self.put_targets(own, self.arcs.starts[i], self.arcs.starts[i + 1], to);
        }
    }

    // Puts the kept states that a step from state s leads to: itself, the blanks after its letter, and the letters that may follow it. On
    // a letter `own` is its label, since no step leads along an arc to an equal label; in blanks `own` is the blank, which no letter has.
    fn put_steps(&self, s: usize, to: &mut States)
        requires { s ≤ 2 * letters_of (words self.now) }
        ensures { Marks (Kept self.now (Onto (graph self.now) s)) to.old to.new }
    {
        let i = (s + 1) / 2;
        let own = self.entering(s);
        self.put_kept_at(own, s, to);
        self.put_kept_at(0, 2 * i, to);
        self.put_after(own, i, to);
    }

    // Puts the kept states that a step from the states of the list leads to.
    #[tactic(auto, using(crate::specs::Loops::kept_iterations_none, crate::specs::Loops::kept_iterations_more))]
    pub fn put_kept(&self, from: &[u8], to: &mut States)
        requires { Within (words self.now) (Listed from.now (length from.now)) }
        ensures { Marks (Kept self.now (Reached (graph self.now) (Listed from.now (length from.now)))) to.old to.new }
    {
        for &s in from {
            self.put_steps(usize::from(s), to);
        }
    }
}
