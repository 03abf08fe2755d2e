// Sets of letters as arrays of bools, and the follow relation as an array of such sets, one for each letter. Letter i is at index i - 1.
#![tactic(auto)]

ghost use Rattle.std.specs.Prelude.{◌≤◌, length};
ghost use Rattle.positions_follow.specs.Sets.{Union, Linked};

// The set a becomes its union with the set b.
pub fn unite(a: &mut [bool], b: &[bool])
    requires { length b.now ≤ length a.old }
    ensures { Union a.old b.now a.new }
{
    for (i, &there) in b.iter().enumerate() {
        a[i] |= there;
    }
}

// Adds an arc from each letter of one set to each letter of the other.
pub fn link(follow: &mut [[bool; 127]], from: &[bool], to: &[bool])
    requires { (length from.now ≤ length follow.old) × (length to.now ≤ 127) }
    ensures { Linked from.now to.now follow.old follow.new }
{
    for (i, &there) in from.iter().enumerate() {
        if there {
            unite(&mut follow[i], to);
        }
    }
}
