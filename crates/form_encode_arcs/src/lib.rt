// The arcs of a follow relation as the words of a compiled form (document 01, "Opening and the compiled form"), counted and written letter
// by letter. The relation is given by an array: for each letter the set of letters that may follow it.
#![tactic(auto)]

ghost use Rattle.std.specs.Prelude.{◌≡◌, ◌+◌, ◌≤◌, length};
ghost use Rattle.lists.specs.Stored.{Stored};
ghost use Rattle.lists.specs.Lists.{keep, numbers};
ghost use Rattle.automaton.specs.Form.{arc_word};
ghost use Rattle.form_encode_arcs.specs.Arcs.{letter_arcs, arcs_by};
ghost use Rattle.automaton.specs.Arrays.{has};

// The word of an arc from letter to letter.
fn arc_word(source: usize, target: usize) -> u32
    requires { (source ≤ 255) × (target ≤ 255) }
    ensures { result ≡ arc_word source target }
{
    (0x30000000 + source * 0x100 + target) as u32
}

// How many of the letters are in the set `targets`. (By a `for`: it compiles to vector code, a chain of `filter` and `count` does not.)
fn count_letter_arcs(letters: usize, targets: &[bool]) -> usize
    requires { (letters ≤ 127) × (letters ≤ length targets.now) }
    ensures { (result ≡ length (keep (has targets.now) (numbers 1 letters))) × (result ≤ 127) }
{
    let mut n = 0;
    for j in 1..letters + 1 {
        let there = targets[j - 1];
        if there {
            n += 1;
        }
    }
    n
}

// How many arcs there are. Letters and followers stay two parameters: a struct of all arrays would ask for labels too, which these calls
// do without.
pub fn count_arcs(letters: usize, follow: &[[bool; 127]]) -> usize
    requires { (letters ≤ 127) × (letters ≤ length follow.now) }
    ensures { (result ≡ length (arcs_by letters follow.now)) × (result ≤ 16129) }
{
    let mut n = 0;
    for i in 1..letters + 1 {
        n += count_letter_arcs(letters, &follow[i - 1]);
    }
    n
}

// Writes the arcs of one letter from place n on and returns the next place.
fn write_letter_arcs(
    letters: usize,
    targets: &[bool],
    source: usize,
    form: &mut [u32],
    n: usize,
) -> usize
    requires { (source ≤ 127) × (letters ≤ 127) × (letters ≤ length targets.now) ×
        (n + length (letter_arcs letters targets.now source) ≤ length form.old) }
    ensures { Stored (letter_arcs letters targets.now source) n form.old form.new result }
{
    let mut m = n;
    for target in 1..letters + 1 {
        if targets[target - 1] {
            form[m] = arc_word(source, target);
            m += 1;
        }
    }
    m
}

// Writes all arcs from place n on and returns the next place.
pub fn write_arcs(letters: usize, follow: &[[bool; 127]], form: &mut [u32], n: usize) -> usize
    requires { (letters ≤ 127) × (letters ≤ length follow.now) × (n + length (arcs_by letters follow.now) ≤ length form.old) }
    ensures { Stored (arcs_by letters follow.now) n form.old form.new result }
{
    let mut m = n;
    for source in 1..letters + 1 {
        m = write_letter_arcs(letters, &follow[source - 1], source, form, m);
    }
    m
}
