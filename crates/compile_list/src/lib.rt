// CompileList: from an alphabet and a list of words, each closed by one newline, to their form (document 02, T-05 and T-07).
#![tactic(auto)]

ghost use Rattle.std.specs.Prelude.{◌≡◌, ◌≤◌, length};
ghost use Rattle.refusal.specs.Verdict.{first_refusal};
ghost use Rattle.refusal.specs.Fills.{reported, Fills};
ghost use Rattle.wordlist.specs.Words.{words};
ghost use Rattle.wordlist_build.specs.State.{Readable};
ghost use Rattle.compile_list.specs.FollowRows.{RowAfter, RowsAfter};
ghost use Rattle.compile_list.specs.Call.{list_checks, formed, compile_list_call};

use alphabet::is_alphabet;
use form_encode::{Arrays, write_form};
use refusal::Refusal;
use wordlist_build::build;
use wordlist_lines::{are_list_bytes, has_fault, has_strange};

// Which of the letters follow those of this head: those whose parent it is. (Here and below by a `for`: an array's `map` was tried, and its
// clause gives a call at some state of the closure.)
fn row_after(letters: usize, parents: &[u8; 127], head: u8) -> [bool; 127]
    requires { letters ≤ 127 }
    ensures { RowAfter letters parents.now head result }
{
    let mut row = [false; 127];
    for (i, &parent) in parents[..letters].iter().enumerate() {
        row[i] = parent == head;
    }
    row
}

// For each letter those that follow it, into the rows.
fn rows_after(letters: usize, parents: &[u8; 127], heads: &[u8; 127], rows: &mut [[bool; 127]; 127])
    requires { letters ≤ 127 }
    ensures { RowsAfter letters parents.now heads.now rows.new }
{
    for (i, &head) in heads[..letters].iter().enumerate() {
        rows[i] = row_after(letters, parents, head);
    }
}

// Writes the form of a list that refusals 1, 2, 3, 21 and 8 do not turn away: its arcs are known, as an array of arrays, before the first
// word is written.
fn write(alphabet: &[u8], list: &[u8], form: &mut [u32]) -> Result<usize, Refusal>
    requires { (length alphabet.now ≤ 95) × Readable alphabet.now list.now }
    ensures { Fills (formed alphabet.now (length form.old) (words list.now)) (reported result) form.old form.new }
{
    let trie = build(alphabet, list);
    if 127 < trie.letters {
        return Err(Refusal::Letters);
    }
    let first = row_after(trie.letters, &trie.parents, 0);
    let mut follow = [[false; 127]; 127];
    rows_after(trie.letters, &trie.parents, &trie.heads, &mut follow);
    let arrays = Arrays {
        alphabet: alphabet.len(),
        letters: trie.letters,
        empty: false,
        labels: &trie.labels,
        first: &first,
        last: &trie.last,
        follow: &follow,
    };
    write_form(arrays, form)
}

// The checks of an alphabet and a list: refusals 1, 2, 3, 21 and 8, in this order.
#[tactic(auto, unfolding(refusal::specs::Verdict::first_refusal))]
fn check_list(alphabet: &[u8], list: &[u8]) -> Result<(), Refusal>
    ensures { result ≡ first_refusal (list_checks alphabet.now list.now) }
{
    if !is_alphabet(alphabet) {
        return Err(Refusal::Alphabet);
    }
    if !(1..=4096).contains(&list.len()) {
        return Err(Refusal::TextLength);
    }
    if !are_list_bytes(list) {
        return Err(Refusal::TextByte);
    }
    if has_fault(list) {
        return Err(Refusal::WordList);
    }
    if has_strange(alphabet, list) {
        return Err(Refusal::Foreign);
    }
    Ok(())
}

// Document 02's call for word lists. What it writes accepts the listed words: `list_means` of proofs/Meaning.antt.
pub fn compile_list(alphabet: &[u8], list: &[u8], form: &mut [u32]) -> Result<usize, Refusal>
    ensures { Fills (compile_list_call alphabet.now list.now (length form.old)) (reported result) form.old form.new }
{
    check_list(alphabet, list)?;
    write(alphabet, list, form)
}
