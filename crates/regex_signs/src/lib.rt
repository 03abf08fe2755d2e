// The signs inside a bracket (document 01, "Brackets"; document 02, T-01): a byte, or a class, `[:`, its name and the nearest `:]`. The
// text may have any bytes.
// A text and a place stay two parameters: a struct of them is no plainer, since half of the functions here take a place at the text's end
// or past it too.
#![tactic(auto)]

ghost use Rattle.std.specs.Prelude.{◌≡◌, true, ◌+◌, ◌<◌, length, get_or, drop, eqb};
ghost use Rattle.regex_tree.specs.Sets.{class_ends, closes as closes_of};
ghost use Rattle.regex_signs.specs.Signs.{name, opens, sign_width};

use text::peek;

// Is the bracket closed here? Its first sign is at `first`, and a `]` there is ordinary.
pub fn closes(text: &[u8], first: usize, at: usize) -> bool
    ensures { result ≡ closes_of (eqb at first) (get_or text.now at 0) }
{
    at != first && peek(text, at) == b']'
}

// Does a class begin here, with `[:`?
#[tactic(auto, using(crate::specs::SignsLaws::opens_at))]
pub fn begins_class(text: &[u8], at: usize) -> bool
    ensures { result ≡ opens (drop at text.now) }
{
    peek(text, at) == b'[' && peek(text, at + 1) == b':'
}

// Does a class end here, with `:]`?
fn ends_class(text: &[u8], at: usize) -> bool
    requires { at < length text.now }
    ensures { result ≡ class_ends (get_or text.now at 0) (get_or text.now (at + 1) 0) }
{
    text[at] == b':' && peek(text, at + 1) == b']'
}

// Where the name that begins here ends: at the nearest `:]`, or past the end if there is none.
// (No Option: where there is no `:]`, `name` still has a length, up to the text's end.)
#[tactic(auto, using(crate::specs::SignsLaws::name_here, crate::specs::SignsLaws::name_past, crate::specs::SignsLaws::name_end))]
fn name_end(text: &[u8], from: usize) -> usize
    ensures { result ≡ from + length (name (drop from text.now)) }
{
    for i in from..text.len() {
        if ends_class(text, i) {
            return i;
        }
    }
    from.max(text.len())
}

// The name of the class that begins here: the bytes up to the nearest `:]`, or up to the text's end if there is none.
#[tactic(auto, using(crate::specs::SignsLaws::opens_within, crate::specs::SignsLaws::name_within, crate::specs::SignsLaws::name_part))]
pub fn class_name(text: &[u8], at: usize) -> &[u8]
    requires { opens (drop at text.now) ≡ true }
    ensures { result.now ≡ name (drop (at + 2) text.now) }
{
    let from = at + 2;
    let e = name_end(text, from);
    &text[from..e]
}

// Where the sign that begins here ends; past the end if it is a class without a `:]`.
// (No Option: `sign_width` is a number there too, and a loop that goes on from that place ends.)
#[tactic(auto, using(crate::specs::SignsLaws::opens_within, crate::specs::SignsLaws::name_within, crate::specs::SignsLaws::sign_width_class, crate::specs::SignsLaws::sign_width_byte))]
pub fn sign_end(text: &[u8], at: usize) -> usize
    requires { at < length text.now }
    ensures { result ≡ at + sign_width (drop at text.now) }
{
    if begins_class(text, at) {
        return name_end(text, at + 2) + 2;
    }
    at + 1
}
