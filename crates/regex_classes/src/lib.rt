// The classes of characters (document 02, T-01): whether a name is that of a class, and whether a byte is in the class of a name, from a
// constant table.
#![tactic(auto)]

mod table;

ghost use Rattle.std.specs.Prelude.{◌≡◌};
ghost use Rattle.lists.specs.Options.{is_some, listed};
ghost use Rattle.regex_tree.specs.Tree.{within, among};
ghost use Rattle.regex_tree.specs.Classes.{class_ranges};
ghost use Rattle.regex_classes.specs.Table.{as_range, class_among, row_of, Looked};

use table::{CLASSES, Class, Span};

// The row of this name in the table.
#[tactic(auto, unfolding(crate::specs::Table::row_of))]
fn search(table: &[Class], name: &[u8]) -> Option<Class>
    ensures { result ≡ row_of name.now table.now }
{
    table.iter().copied().find(|class| class.name == name)
}

// The class of this name.
fn look_up(name: &[u8]) -> Option<Class>
    ensures { Looked (class_ranges name.now) result }
{
    search(&CLASSES, name)
}

// Is it the name of a class?
pub fn is_class(name: &[u8]) -> bool
    ensures { result ≡ is_some (class_ranges name.now) }
{
    look_up(name).is_some()
}

// Is the byte in this range?
fn span_has(span: Span, b: u8) -> bool
    ensures { result ≡ within (as_range span) b }
{
    (span.0..=span.1).contains(&b)
}

// Is the byte in this class?
fn has(class: Class, b: u8) -> bool
    ensures { result ≡ class_among class b }
{
    class.ranges.iter().any(|span| span_has(*span, b))
}

// Is the byte in the class of this name?
pub fn class_has(name: &[u8], b: u8) -> bool
    ensures { result ≡ among (listed (class_ranges name.now)) b }
{
    look_up(name).is_some_and(|class| has(class, b))
}
