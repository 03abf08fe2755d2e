// Where each letter's arcs start: arcs are in the order of their sources.
#![tactic(auto)]

ghost use Rattle.std.specs.Prelude.{◌≡◌, ◌≤◌, length};
ghost use Rattle.form_starts.specs.Starts.{Skipped, ArcStarts, arc_starts-prop};

use form_words::Form;

// A form with the place where each letter's arcs start: for 0 to 128, the index of the first word whose source is not below the letter.
#[derive(Drop)]
pub struct Arcs<'a> {
    pub form: Form<'a>,
    pub starts: [usize; 129],
    ghost placed: { ArcStarts form.words.now starts } by { arc_starts-prop form.words.now starts },
}

// The first index from n on whose word has no source below i; the form's length if there is none.
fn skip_below(form: Form, n: usize, i: usize) -> usize
    requires { n ≤ length form.words.now }
    ensures { Skipped form.entry.words.now n i result }
{
    for m in n..form.len() {
        if i <= form.source(m) {
            return m;
        }
    }
    form.len()
}

// Where each letter's arcs start.
pub fn arc_starts(form: Form) -> [usize; 129]
    ensures { ArcStarts form.entry.words.now result }
{
    let mut starts = [0; 129];
    let mut n = form.letters() + 1;
    for i in 0..129 {
        n = skip_below(form, n, i);
        starts[i] = n;
    }
    starts
}

impl<'a> Arcs<'a> {
    // The form with its starts.
    pub fn new(form: Form<'a>) -> Arcs<'a>
        ensures { result.form ≡ form.entry }
    {
        Arcs {
            form,
            starts: arc_starts(form),
        }
    }
}
