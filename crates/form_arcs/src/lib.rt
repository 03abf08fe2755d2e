// What a search looks up once in a form: which letters have arcs to the same letters as the letter before them, a list of the letters that
// may be first, and the targets of all arcs as bytes.
#![tactic(auto)]

ghost use Rattle.std.specs.Prelude.{◌≡◌, ◌+◌, ◌≤◌, length};
ghost use Rattle.automaton.specs.Form.{letters_of};
ghost use Rattle.form_arcs.specs.Equal.{Decides, SameTargets, SameArcs, EqualArcs};
ghost use Rattle.form_arcs.specs.Firsts.{Firsts};
ghost use Rattle.form_arcs.specs.Targets.{TargetsListed};

use form_starts::Arcs;
use form_words::Form;

// Do the n arc words from b on have the targets of the n from a on?
fn same_targets(form: Form, a: usize, b: usize, n: usize) -> bool
    requires { (a + n ≤ length form.words.now) × (b + n ≤ length form.words.now) }
    ensures { Decides (SameTargets form.entry.words.now a b n) result }
{
    for k in 0..n {
        if form.target(a + k) != form.target(b + k) {
            return false;
        }
    }
    true
}

// Has letter i the arcs of the letter before it?
#[tactic(auto, using(crate::specs::EqualLaws::starts_rise))]
fn as_before(arcs: &Arcs, i: usize) -> bool
    requires { (2 ≤ i) × (i ≤ letters_of arcs.now.form.words.now) }
    ensures { Decides (SameArcs arcs.now.form.words.now arcs.now.starts i) result }
{
    let a = arcs.starts[i - 1];
    let b = arcs.starts[i];
    let e = arcs.starts[i + 1];
    e - b == b - a && same_targets(arcs.form, a, b, e - b)
}

// The letters that share their arcs with the letter before them.
pub fn equal_arcs(arcs: &Arcs) -> [bool; 128]
    ensures { EqualArcs arcs.now.form.words.now arcs.now.starts result }
{
    let mut same = [false; 128];
    for i in 2..arcs.form.letters() + 1 {
        if as_before(arcs, i) {
            same[i] = true;
        }
    }
    same
}

// Writes the letters that may be first to the front of the list, and returns their number. The list is lent and of fixed size: no heap.
pub fn list_firsts(form: Form, list: &mut [u8; 128]) -> usize
    requires { length list.old ≡ 128 }
    ensures { Firsts form.entry.words.now list.new result }
{
    let mut n = 0;
    for j in 1..form.letters() + 1 {
        if form.may_be_first(j) {
            list[n] = j as u8;
            n += 1;
        }
    }
    n
}

// Memory for the targets of a form, which has at most 16,257 words: fixed memory, no heap. What it holds is not promised.
pub fn no_targets() -> [u8; 16384]
    ensures { length result ≡ 16384 }
{
    [0; 16384]
}

// Writes the target of each word of the form; the bytes after them stay as they were.
pub fn list_targets(form: Form, targets: &mut [u8; 16384])
    requires { length targets.old ≡ 16384 }
    ensures { TargetsListed form.entry.words.now targets.old targets.new }
{
    for k in 0..form.len() {
        targets[k] = form.target(k) as u8;
    }
}
