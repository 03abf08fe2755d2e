// Sets of letters, with 0 for 'no letter yet': the set after one more label, and whether a word may end there. A set is an array of fixed
// size: no heap.
#![tactic(auto)]

ghost use Rattle.std.specs.Prelude.{◌≡◌, ◌↔◌, true, ◌<◌, ◌≤◌, length};
ghost use Rattle.lists.specs.Marks.{Marks, Iterations};
ghost use Rattle.automaton.specs.Form.{letters_of, view};
ghost use Rattle.form_sets.specs.Sets.{Labelled, Reached, Enters, Advanced, EndsIn, no_letter};

use form_starts::Arcs;
use form_words::Form;

// Marks letter j if its label is x.
fn mark(form: Form, x: usize, j: usize, set: &mut [bool; 128])
    requires { (length set.old ≡ 128) × (j < length form.words.now) × (j < 128) }
    ensures { Marks (Labelled form.entry.words.now x j) set.old set.new }
{
    if form.label(j) == x {
        set[j] = true;
    }
}

// Marks the letters with label x that may be first.
fn mark_firsts(form: Form, x: usize, set: &mut [bool; 128])
    requires { length set.old ≡ 128 }
    ensures { Marks (Enters (view form.entry.words.now) x 0) set.old set.new }
{
    for j in 1..form.letters() + 1 {
        if form.may_be_first(j) {
            mark(form, x, j, set);
        }
    }
}

// Marks the targets with label x of the arcs from b up to e.
fn mark_targets(form: Form, x: usize, b: usize, e: usize, set: &mut [bool; 128])
    requires { (length set.old ≡ 128) × (letters_of form.words.now < b) × (b ≤ e) × (e ≤ length form.words.now) }
    ensures { Marks (Iterations (Reached form.entry.words.now x) b e) set.old set.new }
{
    for n in b..e {
        mark(form, x, form.target(n), set);
    }
}

// Marks the letters with label x that may follow i. (It walks like trellis_steps' `put_after`, over other values: one walk over a closure
// would say `Marks (Iterations ..)` of what the closure marks, no plainer.)
fn mark_after(arcs: &Arcs, x: usize, i: usize, set: &mut [bool; 128])
    requires { (length set.old ≡ 128) × (i ≤ letters_of arcs.now.form.words.now) }
    ensures { Marks (Enters (view arcs.now.form.words.now) x i) set.old set.new }
{
    if i == 0 {
        mark_firsts(arcs.form, x, set);
    } else {
        mark_targets(arcs.form, x, arcs.starts[i], arcs.starts[i + 1], set);
    }
}

// The letters with label x that may follow one of the set.
pub fn advance(arcs: &Arcs, set: [bool; 128], x: usize) -> [bool; 128]
    ensures { Advanced (view arcs.now.form.words.now) x set result }
{
    let mut next = [false; 128];
    for i in 0..arcs.form.letters() + 1 {
        if set[i] {
            mark_after(arcs, x, i, &mut next);
        }
    }
    next
}

// May a word end after one of the set?
#[tactic(auto, using(automaton::proofs::ValidLaws::ends_letter))]
pub fn some_may_end(form: Form, set: [bool; 128]) -> bool
    ensures { (result ≡ true) ↔ EndsIn (view form.entry.words.now) set }
{
    for i in 0..form.letters() + 1 {
        if set[i] && form.may_end(i) {
            return true;
        }
    }
    false
}

// The set before the first letter: no letter yet.
pub fn no_letter() -> [bool; 128]
    ensures { result ≡ no_letter }
{
    let mut s = [false; 128];
    s[0] = true;
    s
}
