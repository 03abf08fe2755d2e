// The calls of `kavurehy`, exported for C and Rust under the same names, and nothing else. A list is passed as a pointer and a length.
// (The parameters of each call are those of the C interface.)
#![tactic(auto)]

ghost use Rattle.std.specs.Prelude.{length};
ghost use Rattle.ctc_collapse.specs.Calls.{collapse_call};
ghost use Rattle.ctc_spread.specs.Calls.{spread_call};
ghost use Rattle.confidence.specs.Cost.{costs_call};
ghost use Rattle.matrix.specs.Matrix.{matrix};
ghost use Rattle.compile.specs.Call.{compile_call};
ghost use Rattle.compile_list.specs.Call.{compile_list_call};
ghost use Rattle.decode_valid.specs.Lent.{lent};
ghost use Rattle.kavurehy.specs.Handed.{FillsCounted, FillsPlain, Judges, DecodesCounted, ReadsCounted, ComparesHanded};

// Writes the form of an expression over an alphabet, and its length to `counts`.
#[unsafe(no_mangle)]
pub extern "C" fn kavurehy_compile(
    alphabet: &[u8],
    text: &[u8],
    form: &mut [u32],
    counts: &mut [u32; 1],
) -> u32
    ensures { FillsCounted (compile_call alphabet.now text.now (length form.old)) form.old form.new counts.new result }
{
    kavurehy::kavurehy_compile(alphabet, text, form, counts)
}

// Writes the form of a list of words over an alphabet, and its length to `counts`.
#[unsafe(no_mangle)]
pub extern "C" fn kavurehy_compile_list(
    alphabet: &[u8],
    list: &[u8],
    form: &mut [u32],
    counts: &mut [u32; 1],
) -> u32
    ensures { FillsCounted (compile_list_call alphabet.now list.now (length form.old)) form.old form.new counts.new result }
{
    kavurehy::kavurehy_compile_list(alphabet, list, form, counts)
}

// Does the form accept the word? Writes 1 or 0 to `accepted`.
#[unsafe(no_mangle)]
pub extern "C" fn kavurehy_judge(form: &[u32], word: &[u8], accepted: &mut [u32; 1]) -> u32
    ensures { Judges form.now word.now accepted.new result }
{
    kavurehy::kavurehy_judge(form, word, accepted)
}

// Writes the word that a path of labels 0 to k collapses to, and its length to `counts`.
#[unsafe(no_mangle)]
pub extern "C" fn kavurehy_collapse(
    k: usize,
    path: &[u8],
    word: &mut [u8],
    counts: &mut [u32; 1],
) -> u32
    ensures { FillsCounted (collapse_call k path.now (length word.old)) word.old word.new counts.new result }
{
    kavurehy::kavurehy_collapse(k, path, word, counts)
}

// Writes the shortest path that collapses to a word of labels 1 to k, and its length to `counts`.
#[unsafe(no_mangle)]
pub extern "C" fn kavurehy_spread(
    k: usize,
    word: &[u8],
    path: &mut [u8],
    counts: &mut [u32; 1],
) -> u32
    ensures { FillsCounted (spread_call k word.now (length path.old)) path.old path.new counts.new result }
{
    kavurehy::kavurehy_spread(k, word, path, counts)
}

// Writes the cheapest path, without barred labels, whose collapse the form accepts, and its word; price and word length to `counts`.
#[unsafe(no_mangle)]
pub extern "C" fn kavurehy_decode(
    form: &[u32],
    costs: &[u32],
    width: usize,
    columns: usize,
    path: &mut [u8],
    word: &mut [u8],
    work: &mut [u32],
    counts: &mut [u32; 2],
) -> u32
    ensures { DecodesCounted form.now (matrix costs.now width columns) (lent path.old word.old work.old)
        (lent path.new word.new work.new) counts.new result }
{
    kavurehy::kavurehy_decode(form, costs, width, columns, path, word, work, counts)
}

// Writes the form of an expression, the cheapest path, without barred labels, whose collapse is a word of it, and that word as characters;
// price, word length and form length to `counts`.
#[unsafe(no_mangle)]
pub extern "C" fn kavurehy_read(
    alphabet: &[u8],
    text: &[u8],
    costs: &[u32],
    width: usize,
    columns: usize,
    form: &mut [u32],
    path: &mut [u8],
    word: &mut [u8],
    work: &mut [u32],
    counts: &mut [u32; 3],
) -> u32
    ensures { ReadsCounted alphabet.now text.now (matrix costs.now width columns) form.old form.new
        (lent path.old word.old work.old) (lent path.new word.new work.new) counts.new result }
{
    kavurehy::kavurehy_read(
        alphabet, text, costs, width, columns, form, path, word, work, counts,
    )
}

// Writes to `difference` the price of the first form's cheapest path, without barred labels, less that of the second's.
#[unsafe(no_mangle)]
pub extern "C" fn kavurehy_compare(
    first: &[u32],
    second: &[u32],
    costs: &[u32],
    width: usize,
    columns: usize,
    work: &mut [u32],
    difference: &mut [i32; 1],
) -> u32
    ensures { ComparesHanded first.now second.now (matrix costs.now width columns) work.old work.new difference.new result }
{
    kavurehy::kavurehy_compare(first, second, costs, width, columns, work, difference)
}

// Writes one cost for each confidence.
#[unsafe(no_mangle)]
pub extern "C" fn kavurehy_costs(confidences: &[u8], costs: &mut [u32]) -> u32
    ensures { FillsPlain (costs_call confidences.now (length costs.old)) costs.old costs.new result }
{
    kavurehy::kavurehy_costs(confidences, costs)
}
