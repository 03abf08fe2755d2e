// The call Spread, on labels and lent memory (document 01, "Alphabet, labels, paths").
#![tactic(auto)]

ghost use Rattle.std.specs.Prelude.{◌≡◌, ◌+◌, ◌<◌, ◌≤◌, length};
ghost use Rattle.lists.specs.Memory.{Wrote};
ghost use Rattle.lists.specs.Stored.{Stored};
ghost use Rattle.lists.specs.Each.{Each};
ghost use Rattle.refusal.specs.Fills.{reported, Fills};
ghost use Rattle.ctc.specs.Spread.{spread as spread_of, pairs};
ghost use Rattle.ctc_spread.specs.Calls.{spread_call};
ghost use Rattle.ctc_spread.specs.Spaced.{spaced};

use ctc_labels::has_fault;
use refusal::Refusal;

// How many pairs of equal neighbours a word has. (By a `for` over places: it compiles to vector code, a chain of `filter` and `count` does
// not.)
fn count_pairs(word: &[u8]) -> usize
    ensures { result ≡ pairs word.now }
{
    let mut n = 0;
    for i in 0..word.len().saturating_sub(1) {
        let equal = word[i] == word[i + 1];
        if equal {
            n += 1;
        }
    }
    n
}

// Stores letter x, which comes after letter a, at place n of the path, after a blank if they are equal; returns the next place.
fn put_spaced(path: &mut [u8], n: usize, a: u8, x: u8) -> usize
    requires { n + length (spaced a x) ≤ length path.old }
    ensures { Stored (spaced a x) n path.old path.new result }
{
    if a == x {
        path[n] = 0;
        path[n + 1] = x;
        return n + 2;
    }
    path[n] = x;
    n + 1
}

// Writes the spread of a word without blanks and returns its length. (Like the loop of ctc_collapse, which says why they are two.)
fn write_spread(word: &[u8], path: &mut [u8]) -> usize
    requires { (length (spread_of word.now) ≤ length path.old) × Each (0 <◌) word.now }
    ensures { Wrote (spread_of word.now) path.old path.new result }
{
    let mut a = 0;
    let mut n = 0;
    for &x in word {
        n = put_spaced(path, n, a, x);
        a = x;
    }
    n
}

// Document 01's Spread: the shortest path that collapses to a word of labels 1 to k.
pub fn spread(k: usize, word: &[u8], path: &mut [u8]) -> Result<usize, Refusal>
    ensures { Fills (spread_call k word.now (length path.old)) (reported result) path.old path.new }
{
    if path.len() < word.len() + count_pairs(word) {
        return Err(Refusal::OutputMemory);
    }
    if has_fault(k, 1, word) {
        return Err(Refusal::Label);
    }
    Ok(write_spread(word, path))
}
