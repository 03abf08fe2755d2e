// Computes the cost of every confidence by the rule and prints crates/confidence/src/table.rt. After a change of the rule:
//
//     (cd crates/confidence_table && rt run)   # proves and builds the program, and runs it
//     crates/confidence_table/out/confidence_table | tee crates/confidence_table/stdout > crates/confidence/src/table.rt
//
// The gate compares what is printed with both files; no contract can speak of it.
#![tactic(auto)]

use std::io;

// The lines before the costs.
fn head(rt: &impl Print) -> io::Result<()> {
    rt.println(
        "// The cost of each confidence c: for 0 that of a barred label, for 1 to 255 the largest whole n with 2^n * c^8 <= 2^64.",
    )?;
    rt.println("// Printed by the program confidence_table.")?;
    rt.println("pub const COSTS: [u32; 256] = [")
}

// The line of one cost, with its confidence as a comment.
fn line(rt: &impl Print, c: u8) -> io::Result<()> {
    let cost = confidence_rule::cost(c);
    println!(rt; "    {cost}, // {c}")
}

// The lines of all costs.
fn lines(rt: &impl Print) -> io::Result<()> {
    for c in 0..=255 {
        line(rt, c)?;
    }
    Ok(())
}

fn main(rt: HostRuntime) -> io::Result<()> {
    head(&rt)?;
    lines(&rt)?;
    rt.println("];")
}
