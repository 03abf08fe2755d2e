// The call Collapse, on labels and lent memory (document 01, "Alphabet, labels, paths").
#![tactic(auto)]

ghost use Rattle.std.specs.Prelude.{◌+◌, ◌≤◌, length};
ghost use Rattle.lists.specs.Memory.{Wrote};
ghost use Rattle.lists.specs.Stored.{Stored};
ghost use Rattle.refusal.specs.Fills.{reported, Fills};
ghost use Rattle.ctc.specs.Collapse.{collapse as collapse_of};
ghost use Rattle.ctc_collapse.specs.Calls.{collapse_call};
ghost use Rattle.ctc_collapse.specs.Added.{added};

use ctc_labels::has_fault;
use refusal::Refusal;

// Stores label x, which comes after label a, at place n of the word, or leaves it out; returns the next place.
fn put_added(word: &mut [u8], n: usize, a: u8, x: u8) -> usize
    requires { n + length (added a x) ≤ length word.old }
    ensures { Stored (added a x) n word.old word.new result }
{
    if x == a || x == 0 {
        return n;
    }
    word[n] = x;
    n + 1
}

// Writes a path's collapse and returns its length. (Like the loop of ctc_spread, over what another letter adds: one loop over a closure that
// writes lent memory would say of both what `Filling` says of each, and is no plainer.)
pub fn write_collapse(path: &[u8], word: &mut [u8]) -> usize
    requires { length path.now ≤ length word.old }
    ensures { Wrote (collapse_of path.now) word.old word.new result }
{
    let mut a = 0;
    let mut n = 0;
    for &x in path {
        n = put_added(word, n, a, x);
        a = x;
    }
    n
}

// Document 01's Collapse: the word that a path of labels 0 to k collapses to.
#[tactic(auto, unfolding(crate::specs::Calls::collapse_call, refusal::specs::Verdict::unless, lists::specs::Memory::written))]
pub fn collapse(k: usize, path: &[u8], word: &mut [u8]) -> Result<usize, Refusal>
    ensures { Fills (collapse_call k path.now (length word.old)) (reported result) word.old word.new }
{
    if word.len() < path.len() {
        return Err(Refusal::OutputMemory);
    }
    if has_fault(k, 0, path) {
        return Err(Refusal::Label);
    }
    Ok(write_collapse(path, word))
}
