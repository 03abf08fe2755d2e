// The lines of a text: where the line that begins at a place ends.
#![tactic(auto)]

ghost use Rattle.std.specs.Prelude.{◌≤◌, length};
ghost use Rattle.text_lines.specs.Places.{LineEnd};

// Where the line that begins at `at` ends: at its newline, or at the end of the text. (No `Option`: `LineEnd` gives a place in both cases.)
pub fn line_end(text: &[u8], at: usize) -> usize
    requires { at ≤ length text.now }
    ensures { LineEnd text.now at result }
{
    text::find(text, at, b'\n')
}
