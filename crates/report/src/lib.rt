// A Report in its two halves, for one range and for many: it is counted, and then written. Nothing may be written before the answer is known; so few spots are
// gathered in a buffer while they are counted, and more are found again.
#![tactic(auto)]

ghost use Rattle.std.specs.Prelude.{◌≡◌, true, length, replicate};
ghost use Rattle.spot.specs.Spots.{spots_in, from_on};
ghost use Rattle.spot.specs.Query.{query, from_of};
ghost use Rattle.block.specs.Table.{table_sized};
ghost use Rattle.tree.specs.Walk.{spots};
ghost use Rattle.tree.specs.Report.{report_table};
ghost use Rattle.memo.specs.Known.{Known, StillKnown};
ghost use Rattle.query.specs.Walks.{TableCounted, TableHeld};
ghost use Rattle.report.specs.Reports.{written, Reportable, Reported, Turnable, Givable};

// A Report counted: the blocks read and the spots found, or None where its walk is broken; `seen` becomes the map of the blocks read. If the spots fit, they are at
// the front of `few`.
pub fn size(
    table: &[u8],
    x1: i32,
    x2: i32,
    y: i32,
    seen: &mut [u8],
    few: &mut [u8],
) -> Option<tally::Tally>
    requires { (table_sized (length table.now) ≡ true) × (seen.old ≡ replicate 512 0) }
    ensures { TableCounted table.now (query x1 x2 y) seen.new result × TableHeld table.now (query x1 x2 y) few.old few.new result }
{
    query::gather_table(table, seen, spot::make_query(x1, x2, y), few)
}

// The same where other Reports of this table were counted: what is known of their walks isn't validated again.
pub fn size_known(
    table: &[u8],
    x1: i32,
    x2: i32,
    y: i32,
    seen: &mut [u8],
    few: &mut [u8],
    known: &mut [[u64; 6]],
) -> Option<tally::Tally>
    requires { (table_sized (length table.now) ≡ true) × (seen.old ≡ replicate 512 0) × Known table.now known.old }
    ensures { TableCounted table.now (query x1 x2 y) seen.new result × TableHeld table.now (query x1 x2 y) few.old few.new result × StillKnown table.now known.old known.new }
{
    query::gather_known(table, seen, spot::make_query(x1, x2, y), few, known)
}

// A Report written that was counted, is whole and has room: its spots at the front of the output, which may be a part of a caller's, from x1 onward. Of a plain
// range nothing is below x1, and nothing moves.
fn write(table: &[u8], x1: i32, x2: i32, y: i32, output: &mut [u8]) -> usize
    requires { Reportable (query x1 x2 y) table.now output.old }
    ensures { Reported x1 x2 y table.now output.old output.new result }
{
    let q = spot::make_query(x1, x2, y);
    let n = query::collect_table(table, output, q);
    sort::from_on(output, n, spot::from_key(q));
    n
}

// The same of n spots that a buffer holds in place order.
fn held(few: &[u8], n: usize, x1: i32, x2: i32, y: i32, output: &mut [u8])
    requires { Turnable few.now output.old n }
    ensures { output.new ≡ written (from_on (from_of (query x1 x2 y)) (spots_in few.now n)) output.old }
{
    octets::copy(few, output, 12 * n);
    sort::from_on(output, n, spot::from_key(spot::make_query(x1, x2, y)));
}

// A Report written that was counted and found n spots: from the buffer if it holds them.
pub fn give(table: &[u8], few: &[u8], n: usize, x1: i32, x2: i32, y: i32, output: &mut [u8])
    requires { Givable x1 x2 y table.now few.now output.old n }
    ensures { output.new ≡ written (spots (report_table table.now x1 x2 y)) output.old }
{
    if n <= few.len() / 12 {
        held(few, n, x1, x2, y, output);
    } else {
        write(table, x1, x2, y, output);
    }
}
