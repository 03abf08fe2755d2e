// One column of the trace: of the states that are reached those that lie on a cheapest path, the lowest label among them, and the states
// of that label. No label is lower than the blank, so blanks are looked at first, and arcs only where no blanks are kept.
#![tactic(auto)]

ghost use Rattle.std.specs.Prelude.{MatchOption};
ghost use Rattle.lists.specs.Marks.{Has, Marks};
ghost use Rattle.trellis_members.specs.Members.{IsEmpty};
ghost use Rattle.trellis_steps.specs.Steps.{Within};
ghost use Rattle.trellis_steps.specs.Kept.{words, graph};
ghost use Rattle.trellis_column.specs.Column.{Blanks, LowEnough, LabelIn, Lowest, OfLabel, SomeKept, Taken};

use trellis_members::States;
use trellis_steps::Column;

// Where the trace is: the label of the column just traced, and what is left to pay.
#[derive(Clone, Copy)]
pub struct Front {
    pub label: u8,
    pub left: u32,
}

// Puts the blanks after the states of `from` that lie on a cheapest path. This loop, that of `put_of_label` and that of `Column::put_kept`
// stay three: one function over closures for the test and for the state would be no plainer.
fn put_blanks(column: &Column, from: &States, to: &mut States)
    requires { Within (words column.now) (Has from.now) }
    ensures { Marks (Blanks column.now.costs.now column.now.row.now column.now.left (Has from.now)) to.old to.new }
{
    let Some(left) = column.left.checked_sub(column.costs[0]) else {
        return;
    };
    for &s in from.listed() {
        let u = (usize::from(s) + 1) / 2 * 2;
        to.put_if(column.row[u] == left, u);
    }
}

// Puts kept states into the empty set, all those of the lowest label among them: the kept blanks if there are any, else all kept states.
fn put_lowest(column: &Column, from: &States, near: &mut States)
    requires { Within (words column.now) (Has from.now)
        × SomeKept (graph column.now) column.now.costs.now column.now.row.now column.now.left (Has from.now)
        × IsEmpty near.old }
    ensures { LowEnough (graph column.now) column.now.costs.now column.now.row.now column.now.left (Has from.now) near.new }
{
    put_blanks(column, from, near);
    if near.is_empty() {
        column.put_kept(from.listed(), near);
    }
}

// The lowest label of the states, if there are any. (By a `for`: `map` and `min` were tried, and the proof that the closure may be called
// on each state did not close.)
fn lowest(column: &Column, near: &States) -> Option<usize>
    requires { Within (words column.now) (Has near.now) }
    ensures { MatchOption result (IsEmpty near.now) (Lowest (LabelIn (graph column.now) (Has near.now))) }
{
    let mut lowest = None;
    for &s in near.listed() {
        let x = column.entering(usize::from(s));
        lowest = Some(match lowest {
            Some(y) => x.min(y),
            None => x,
        });
    }
    lowest
}

// Puts the states near whose label is x.
fn put_of_label(column: &Column, near: &States, x: usize, to: &mut States)
    requires { Within (words column.now) (Has near.now) }
    ensures { Marks (OfLabel (graph column.now) x (Has near.now)) to.old to.new }
{
    for &s in near.listed() {
        let u = usize::from(s);
        to.put_if(column.entering(u) == x, u);
    }
}

// Goes one column on: takes the lowest label of the reached states that lie on a cheapest path. The states of that label replace those in
// the set. `near` is lent for the states on the way to them: a set that is empty before and after.
pub fn advance(column: &Column, set: &mut States, near: &mut States) -> Front
    requires { Within (words column.now) (Has set.old)
        × SomeKept (graph column.now) column.now.costs.now column.now.row.now column.now.left (Has set.old)
        × IsEmpty near.old }
    ensures { Taken (graph column.now) column.now.costs.now column.now.row.now column.now.left (Has set.old) result.label result.left (Has set.new)
        × IsEmpty near.new }
{
    put_lowest(column, set, near);
    let x = lowest(column, near).unwrap();
    set.clear();
    put_of_label(column, near, x, set);
    near.clear();
    Front {
        label: x as u8,
        left: column.left - column.costs[x],
    }
}
