// What letters offer to a state: the least key along a letter's arcs, with or without those to its own label, and the least key of the
// letters that may be first.
#![tactic(auto)]

ghost use Rattle.std.specs.Prelude.{◌≡◌, ℕ, ◌-◌, ◌%◌, ◌<◌, ◌≤◌, length, slice_index};
ghost use Rattle.automaton.specs.Form.{letters_of, label_of};
ghost use Rattle.automaton.specs.Valid.{Valid};
ghost use Rattle.form_starts.specs.Starts.{ArcStarts};
ghost use Rattle.form_arcs.specs.Equal.{EqualArcs};
ghost use Rattle.form_arcs.specs.Firsts.{Firsts};
ghost use Rattle.form_arcs.specs.Targets.{Targets};
ghost use Rattle.trellis_keys.specs.Keys.{Keys};
ghost use Rattle.trellis_offers.specs.Offers.{FAR as far, key_of, unless_own, HaveKeys, LeastOffer, OffersKey, Follows, LeastKey, LeastOther};
ghost use Rattle.trellis_offers.specs.Places.{Known};
ghost use Rattle.trellis_offers.specs.Unique.{equal_arcs-prop};

use form_starts::Arcs;

// The key that means 'impossible'. Its price is TOP, and no letter has its label. It is a number and no Option, as TOP is.
const FAR: usize = 256000000255;

// What a search looks up once in a form: where each letter's arcs start, the targets of its words, which letters have the arcs of the letter
// before them, and the letters that may be first.
#[derive(Clone, Copy)]
pub struct Lookups<'a> {
    pub arcs: &'a Arcs<'a>,
    pub targets: &'a [u8],
    pub same: &'a [bool],
    pub firsts: &'a [u8],
    ghost targeted: { Targets arcs.now.form.words.now targets.now },
    ghost shared: { EqualArcs arcs.now.form.words.now arcs.now.starts same.now } by { equal_arcs-prop arcs.now.form.words.now arcs.now.starts same.now },
    ghost first: { Follows arcs.now.form.words.now 0 firsts.now },
}

// The label of a key.
fn label_of(key: usize) -> u8
    ensures { result ≡ key % 256 }
{
    (key % 256) as u8
}

// The key, or FAR if its label is `own`, the label that the path is on.
fn unless_own(key: usize, own: u8) -> usize
    ensures { result ≡ unless_own key own }
{
    if label_of(key) == own { FAR } else { key }
}

// The least number that one of the letters offers, or FAR. It goes by pairs: then the compiler makes conditional moves of the comparisons,
// not jumps (docs/DECISIONS.md). One letter at a time, by a fold or a `for`, took 2.6 times as long for 5 to 9 letters.
fn least_offer<F: Fn(u8) -> usize>(letters: &[u8], offer: F) -> usize
    requires { (k : ℕ) → k < length letters.now → F.pre offer (slice_index letters.now k) }
    ensures { LeastOffer (F.post offer) letters.now (length letters.now) result }
{
    let (pairs, rest) = letters.as_chunks::<2>();
    let mut least = FAR;
    for pair in pairs {
        least = least.min(offer(pair[0]).min(offer(pair[1])));
    }
    for letter in rest {
        least = least.min(offer(*letter));
    }
    least
}

// The least key of the letters, or FAR.
fn least_key(letters: &[u8], keys: &[usize]) -> usize
    requires { HaveKeys letters.now × (length keys.now ≡ 128) }
    ensures { LeastOffer (OffersKey keys.now) letters.now (length letters.now) result }
{
    least_offer(
        letters,
        |letter|
            requires { letter < length keys.now }
            ensures { result ≡ key_of keys.entry.now letter }
        { keys[usize::from(letter)] },
    )
}

// The letters that may follow letter i: the targets of its arcs.
fn follow<'a>(form: &[u32], targets: &'a [u8], starts: &[usize], i: usize) -> &'a [u8]
    requires { Valid form.now × Targets form.now targets.now × ArcStarts form.now starts.now × (1 ≤ i) × (i ≤ letters_of form.now) }
    ensures { Follows form.now i result.now }
{
    &targets[starts[i]..starts[i + 1]]
}

// The least key along the arcs of letter i; `before` is that of the letter before it, which may have the same arcs. The form itself is only
// named by the contract: its targets and the places where each letter's arcs start are looked up beforehand. That the share saves work is
// measured (docs/FIGURES.md) and not promised.
pub fn next_key(
    form: &[u32],
    targets: &[u8],
    starts: &[usize],
    same: &[bool],
    keys: &[usize],
    i: usize,
    before: usize,
) -> usize
    requires { Known form.now targets.now starts.now keys.now i × EqualArcs form.now starts.now same.now
        × LeastKey form.now keys.now (i - 1) before }
    ensures { LeastKey form.now keys.now i result }
{
    if same[i] {
        return before;
    }
    least_key(follow(form, targets, starts, i), keys)
}

// The least key along the arcs of letter i to another label; `least` is that along all its arcs. Only if it has the letter's own label
// the arcs are gone through once more.
pub fn other_key(
    form: &[u32],
    targets: &[u8],
    starts: &[usize],
    keys: &[usize],
    i: usize,
    least: usize,
) -> usize
    requires { Known form.now targets.now starts.now keys.now i × LeastKey form.now keys.now i least }
    ensures { LeastOther form.now keys.now i (label_of form.now i) result }
{
    let own = label_of(keys[i]);
    if label_of(least) == own {
        return least_offer(
            follow(form, targets, starts, i),
            |letter|
                requires { letter < length keys.now }
                ensures { result ≡ unless_own (key_of keys.entry.now letter) own }
            { unless_own(keys[usize::from(letter)], own) },
        );
    }
    least
}

// The least key of the letters that may be first, the first n of the list.
pub fn first_key(form: &[u32], keys: &[usize], list: &[u8], n: usize) -> usize
    requires { Valid form.now × Keys form.now keys.now × (length keys.now ≡ 128) × Firsts form.now list.now n }
    ensures { LeastKey form.now keys.now 0 result }
{
    least_key(&list[..n], keys)
}

// The keys of a column's letters, beside what is looked up once in the form.
#[derive(Clone, Copy)]
pub struct Offers<'a> {
    pub lookups: Lookups<'a>,
    pub keys: &'a [usize; 128],
    ghost labelled: { Keys lookups.arcs.now.form.words.now keys.now },
}

impl<'a> Offers<'a> {
    // The least key along the arcs of letter i; `before` is that of the letter before it.
    pub fn next_key(&self, i: usize, before: usize) -> usize
        requires { let f = self.now.lookups.arcs.now.form.words.now in
            (1 ≤ i) × (i ≤ letters_of f) × LeastKey f self.now.keys.now (i - 1) before }
        ensures { LeastKey self.now.lookups.arcs.now.form.words.now self.now.keys.now i result }
    {
        let l = self.lookups;
        let arcs = l.arcs;
        let keys = self.keys;
        next_key(
            arcs.form.words,
            l.targets,
            &arcs.starts,
            l.same,
            keys,
            i,
            before,
        )
    }

    // The least key along the arcs of letter i to another label; `least` is that along all its arcs.
    pub fn other_key(&self, i: usize, least: usize) -> usize
        requires { let f = self.now.lookups.arcs.now.form.words.now in
            (1 ≤ i) × (i ≤ letters_of f) × LeastKey f self.now.keys.now i least }
        ensures { let f = self.now.lookups.arcs.now.form.words.now in LeastOther f self.now.keys.now i (label_of f i) result }
    {
        let l = self.lookups;
        let arcs = l.arcs;
        let keys = self.keys;
        other_key(arcs.form.words, l.targets, &arcs.starts, keys, i, least)
    }

    // The least key of the letters that may be first.
    pub fn first_key(&self) -> usize
        ensures { LeastKey self.now.lookups.arcs.now.form.words.now self.now.keys.now 0 result }
    {
        let keys = self.keys;
        least_key(self.lookups.firsts, keys)
    }
}
