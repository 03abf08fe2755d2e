// A path as text (document 01, "Output in full"): its labels in decimal, one space between, into lent memory.
#![tactic(auto)]

ghost use Rattle.std.specs.Prelude.{◌≡◌, ◌+◌, ◌≤◌, length};
ghost use Rattle.lists.specs.Stored.{Stored};
ghost use Rattle.sheet_path.specs.Labels.{spaced};

use sheet_decimal::Output;

// Writes labels with one space between.
pub fn put_labels(path: &[u8], out: &mut Output)
    requires { out.old.len + length (spaced path.now) ≤ length out.old.memory.now }
    ensures same_memory { out.new.memory.ghost_name ≡ out.old.memory.ghost_name }
    ensures stored { Stored (spaced path.now) out.old.len out.old.memory.now out.new.memory.now out.new.len }
{
    let Some((&first, others)) = path.split_first() else {
        return;
    };
    out.put_decimal(u32::from(first));
    for &x in others {
        out.put_bytes(b" ");
        out.put_decimal(u32::from(x));
    }
}
