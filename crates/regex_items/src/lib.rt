// The items inside a bracket (document 01, "Brackets"; document 02, T-01): whether they are well formed, whether each class among them has a
// known name, and whether a byte is in one of them. The first sign inside is at `first` in the text.
#![tactic(auto)]

ghost use Rattle.std.specs.Prelude.{◌≡◌, true, ◌+◌, ◌<◌, length, get_or, drop, eqb};
ghost use Rattle.lists.specs.Options.{is_some, listed};
ghost use Rattle.regex_tree.specs.Tree.{among, range, within};
ghost use Rattle.regex_tree.specs.Sets.{begins, reserved, item_ranges};
ghost use Rattle.regex_items.specs.Items.{ranges, upto as upto_of, item, width, range_fits, fits, reserves as reserves_of, Closing, left, resolved};

use regex_classes::{class_has, is_class};
use regex_signs::{begins_class, class_name, closes, sign_end};
use text::{one_of, peek};

// Does `[.` or `[=` begin here?
#[tactic(auto, using(crate::specs::ReservedLaws::reserves_not, crate::specs::ReservedLaws::reserves_by))]
fn reserves(inside: &[u8], i: usize) -> bool
    requires { i < length inside.now }
    ensures { result ≡ reserves_of (drop i inside.now) }
{
    inside[i] == b'[' && one_of(b".=", peek(inside, i + 1))
}

// Is `[.` or `[=` anywhere inside?
#[tactic(auto, using(crate::specs::ReservedLaws::reserved_here, crate::specs::ReservedLaws::reserved_more, crate::specs::ReservedLaws::reserved_end))]
pub fn is_reserved(inside: &[u8]) -> bool
    ensures { result ≡ reserved inside.now }
{
    for i in 0..inside.len() {
        if reserves(inside, i) {
            return true;
        }
    }
    false
}

// May an item that is not just before the closing `]` begin with this byte?
fn may_begin(first: bool, c: u8) -> bool
    ensures { result ≡ begins first c }
{
    first || c != b'-'
}

// A place in a text, before its end: where an item begins.
#[derive(Clone, Copy)]
struct Place<'a> {
    text: &'a [u8],
    at: usize,
    ghost within: { at < length text.now },
}

impl<'a> Place<'a> {
    // Is the item here a range?
    #[tactic(auto, using(crate::specs::ItemAtLaws::ranges_not, crate::specs::ItemAtLaws::ranges_by))]
    fn is_range(self) -> bool
        ensures { result ≡ ranges (drop self.entry.at self.entry.text.now) }
    {
        peek(self.text, self.at + 1) == b'-' && peek(self.text, self.at + 2) != b']'
    }

    // The last byte of the item here, if it is no class.
    #[tactic(auto, using(crate::specs::ItemAtLaws::upto_range_at, crate::specs::ItemAtLaws::upto_one_at))]
    fn upto(self) -> u8
        ensures { result ≡ upto_of (drop self.entry.at self.entry.text.now) }
    {
        if self.is_range() {
            peek(self.text, self.at + 2)
        } else {
            self.text[self.at]
        }
    }

    // Where the item here ends.
    #[tactic(auto, using(crate::specs::ItemsLaws::width_range, crate::specs::ItemsLaws::width_sign))]
    fn item_end(self) -> usize
        ensures { result ≡ self.entry.at + width (drop self.entry.at self.entry.text.now) }
    {
        if self.is_range() {
            self.at + 3
        } else {
            sign_end(self.text, self.at)
        }
    }

    // Is the item here no range, or one that ends in no class and does not descend?
    #[tactic(auto, using(crate::specs::ItemsLaws::range_fits_one, crate::specs::ItemAtLaws::range_fits_class_at, crate::specs::ItemAtLaws::range_fits_by_at))]
    fn range_fits(self) -> bool
        ensures { result ≡ range_fits (drop self.entry.at self.entry.text.now) }
    {
        !self.is_range()
            || (!begins_class(self.text, self.at + 2)
                && self.text[self.at] <= peek(self.text, self.at + 2))
    }

    // Is the item allowed here?
    #[tactic(auto, using(crate::specs::ItemsLaws::fits_class, crate::specs::ItemAtLaws::fits_last_at, crate::specs::ItemAtLaws::fits_not_at, crate::specs::ItemAtLaws::fits_by_at))]
    fn item_fits(self, first: usize) -> bool
        ensures { result ≡ fits (eqb self.entry.at first) (drop self.entry.at self.entry.text.now) }
    {
        begins_class(self.text, self.at)
            || peek(self.text, self.at + 1) == b']'
            || (may_begin(self.at == first, self.text[self.at]) && self.range_fits())
    }

    // Is the item here no class of an unknown name?
    #[tactic(auto, using(crate::specs::ItemAtLaws::known_class, crate::specs::ItemAtLaws::known_range))]
    fn item_known(self) -> bool
        ensures { result ≡ is_some (item_ranges (item (drop self.entry.at self.entry.text.now))) }
    {
        !begins_class(self.text, self.at) || is_class(class_name(self.text, self.at))
    }

    // Is the byte in the range here?
    fn range_has(self, b: u8) -> bool
        ensures { result ≡ within (range (get_or self.entry.text.now self.entry.at 0) (upto_of (drop self.entry.at self.entry.text.now))) b }
    {
        (self.text[self.at]..=self.upto()).contains(&b)
    }

    // Is the byte in the item here?
    #[tactic(auto, using(crate::specs::ItemAtLaws::has_class, crate::specs::ItemAtLaws::has_range))]
    fn item_has(self, b: u8) -> bool
        ensures { result ≡ among (listed (item_ranges (item (drop self.entry.at self.entry.text.now)))) b }
    {
        if begins_class(self.text, self.at) {
            return class_has(class_name(self.text, self.at), b);
        }
        self.range_has(b)
    }
}

// Are all items well formed? The bracket is closed, so the loop ends at its `]`, here and in the functions below. The three stay `while`
// loops: where the next item begins is known only from this one, and an iterator over places would be this same loop in its `next`.
// They stay three: each stops at another answer, and one loop with a closure would have to say three meanings in one clause.
pub fn are_items(text: &[u8], first: usize) -> bool
    requires { Closing text.now first first }
    ensures { result ≡ is_some (left text.now first first) }
{
    let mut i = first;
    while i < text.len() {
        if closes(text, first, i) {
            return true;
        }
        let place = Place { text, at: i };
        if !place.item_fits(first) {
            return false;
        }
        i = place.item_end();
    }
    false
}

// Has each class a known name?
pub fn are_known(text: &[u8], first: usize) -> bool
    requires { Closing text.now first first × (is_some (left text.now first first) ≡ true) }
    ensures { result ≡ is_some (resolved (left text.now first first)) }
{
    let mut i = first;
    while i < text.len() {
        if closes(text, first, i) {
            return true;
        }
        let place = Place { text, at: i };
        if !place.item_known() {
            return false;
        }
        i = place.item_end();
    }
    false
}

// Is the byte in some item?
pub fn has(text: &[u8], first: usize, b: u8) -> bool
    requires { Closing text.now first first × (is_some (resolved (left text.now first first)) ≡ true) }
    ensures { result ≡ among (listed (resolved (left text.now first first))) b }
{
    let mut i = first;
    while i < text.len() {
        if closes(text, first, i) {
            return false;
        }
        let place = Place { text, at: i };
        if place.item_has(b) {
            return true;
        }
        i = place.item_end();
    }
    false
}
