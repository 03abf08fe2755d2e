// Builds the position automaton of a well-formed text as arrays (document 01, "Opening and the compiled form"): the label of each letter,
// the letters that may follow it, and whether it may be first and last. Letter i is at index i - 1. Each call among alternation, branch,
// piece and group is further on in the text, or asks for a smaller part or the next copy at the same place.
// Labels and arcs stay two lent lists: `Buildable` takes any lists that are long enough, and a struct of two `&mut` would be no plainer,
// since each contract would then have to say that it still lends the same two.
#![tactic(auto)]

ghost use Rattle.std.specs.Prelude.{◌<◌};
ghost use Rattle.regex_tree.specs.Letters.{copies_of};
ghost use Rattle.regex_tree.specs.Parse.{m_alternation, m_branch, m_piece, m_group};
ghost use Rattle.positions_letters.specs.Shows.{Builds};
ghost use Rattle.positions_build.specs.Places.{PartAt, opened_at, end_at, count_at, left_at, Room};
ghost use Rattle.positions_build.specs.Whole.{Buildable, BuildsWhole};

use positions_letters::{Source, copies_at};
use positions_parts::Built;
use regex_count::is_end;
use text::peek;

// Branches with `|` between them, built after the first `letters` letters.
#[cycle(alternation_branch_group_piece)]
fn alternation(
    source: &Source,
    at: usize,
    room: usize,
    letters: usize,
    labels: &mut [u8],
    follow: &mut [[bool; 127]],
) -> Built
    requires part_at { PartAt source.now.alphabet.now source.now.text.now m_alternation room at }
    requires room { Room source.now.alphabet.now (opened_at source.now.alphabet.now source.now.text.now m_alternation room at) letters labels.old follow.old }
    ensures { Builds letters (opened_at source.now.alphabet.now source.now.text.now m_alternation room at)
        (end_at source.now.alphabet.now source.now.text.now m_alternation room at) follow.old follow.new labels.old labels.new result }
{
    let a = branch(source, at, room, letters, labels, follow);
    if peek(source.text, a.end) != b'|' {
        return a;
    }
    let b = alternation(source, a.end + 1, room, a.letters, labels, follow);
    a.or(b)
}

// Pieces joined.
#[cycle(alternation_branch_group_piece)]
fn branch(
    source: &Source,
    at: usize,
    room: usize,
    letters: usize,
    labels: &mut [u8],
    follow: &mut [[bool; 127]],
) -> Built
    requires part_at { PartAt source.now.alphabet.now source.now.text.now m_branch room at }
    requires room { Room source.now.alphabet.now (opened_at source.now.alphabet.now source.now.text.now m_branch room at) letters labels.old follow.old }
    ensures { Builds letters (opened_at source.now.alphabet.now source.now.text.now m_branch room at)
        (end_at source.now.alphabet.now source.now.text.now m_branch room at) follow.old follow.new labels.old labels.new result }
{
    let a = piece(source, at, room, 0, letters, labels, follow);
    if is_end(source.text, a.end) {
        return a;
    }
    let b = branch(source, a.end, room, a.letters, labels, follow);
    a.then(b, follow)
}

// A group or a set, repeated or not: what is left of it after `copies` copies.
#[cycle(alternation_branch_group_piece)]
fn piece(
    source: &Source,
    at: usize,
    room: usize,
    copies: usize,
    letters: usize,
    labels: &mut [u8],
    follow: &mut [[bool; 127]],
) -> Built
    requires part_at { PartAt source.now.alphabet.now source.now.text.now m_piece room at }
    requires copies_bound { copies < copies_of (count_at source.now.alphabet.now source.now.text.now room at) }
    requires room { Room source.now.alphabet.now (left_at source.now.alphabet.now source.now.text.now room at copies) letters labels.old follow.old }
    ensures { Builds letters (left_at source.now.alphabet.now source.now.text.now room at copies) (end_at source.now.alphabet.now source.now.text.now m_piece room at)
        follow.old follow.new labels.old labels.new result }
{
    let a = group(source, at, room, letters, labels, follow);
    let c = copies_at(source.text, a.end);
    let spare = c.least <= copies;
    if copies + 1 == c.most {
        a.again(c.onward, follow);
        return a.perhaps(spare, c.end);
    }
    let b = piece(source, at, room, copies + 1, a.letters, labels, follow);
    a.then(b, follow).perhaps(spare, c.end)
}

// A set, or an alternation in parentheses.
#[cycle(alternation_branch_group_piece)]
fn group(
    source: &Source,
    at: usize,
    room: usize,
    letters: usize,
    labels: &mut [u8],
    follow: &mut [[bool; 127]],
) -> Built
    requires part_at { PartAt source.now.alphabet.now source.now.text.now m_group room at }
    requires room { Room source.now.alphabet.now (opened_at source.now.alphabet.now source.now.text.now m_group room at) letters labels.old follow.old }
    ensures { Builds letters (opened_at source.now.alphabet.now source.now.text.now m_group room at) (end_at source.now.alphabet.now source.now.text.now m_group room at)
        follow.old follow.new labels.old labels.new result }
{
    if peek(source.text, at) != b'(' {
        return source.set(at, letters, labels);
    }
    let a = alternation(source, at + 1, room - 1, letters, labels, follow);
    Built {
        end: a.end + 1,
        ..a
    }
}

// The whole text, with at most 16 groups open at once.
#[tactic(auto, using(crate::specs::WholeLaws::text_found, crate::specs::WholeLaws::text_room))]
pub fn build(alphabet: &[u8], text: &[u8], labels: &mut [u8], follow: &mut [[bool; 127]]) -> Built
    requires { Buildable alphabet.now text.now labels.old follow.old }
    ensures { BuildsWhole alphabet.now text.now labels.old labels.new follow.old follow.new result }
{
    alternation(&Source { alphabet, text }, 0, 16, 0, labels, follow)
}
