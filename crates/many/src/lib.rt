// Request 2026-01, many ranges in one call: all are counted, and if there is room, all are written. No public function has a `requires`.
#![tactic(auto)]

ghost use Rattle.std.specs.Prelude.{◌≡◌, true, ◌≤◌, length, replicate, take};
ghost use Rattle.block.specs.Answers.{answer_of};
ghost use Rattle.block.specs.Table.{table_sized};
ghost use Rattle.memo.specs.Known.{Known, StillKnown};
ghost use Rattle.table.specs.Queries.{ManyPost};
ghost use Rattle.many.specs.Many.{Union, OneCounted, AllCountable, AllCounted, AllGivable, AllGiven, Answerable, Answered, ManyOf};

use block::Refusal;

// Marks in `seen` what `own` marks.
fn join_marks(seen: &mut [u8], own: &[u8])
    requires { (length seen.old ≡ 512) × (length own.now ≡ 512) }
    ensures { Union seen.old own.now seen.new }
{
    for i in 0..512 {
        seen[i] |= own[i];
    }
}

// One report counted, with a map of its own: a block that two of the reports read is not reached twice.
fn count_one(
    table: &[u8],
    r: ranges::Range,
    seen: &mut [u8],
    few: &mut [u8],
    known: &mut [[u64; 6]],
) -> Option<tally::Tally>
    requires { (table_sized (length table.now) ≡ true) × (length seen.old ≡ 512) × Known table.now known.old }
    ensures { OneCounted r table.now seen.old few.old seen.new few.new result × StillKnown table.now known.old known.new }
{
    let mut own = [0u8; 512];
    let one = report::size_known(table, r.x1, r.x2, r.y, &mut own, few, known);
    join_marks(seen, &own);
    one
}

// How many spots all of them find together; none if a walk is broken. Each has its own 1,536 bytes of `few`, where its spots are held if they are at most 128, as those of
// a single report are. What one of them validated is known to those behind it.
fn count_all(
    table: &[u8],
    b: ranges::Batch,
    seen: &mut [u8],
    few: &mut [u8],
    each: &mut [u32],
    known: &mut [[u64; 6]],
) -> Option<usize>
    requires { AllCountable b table.now seen.old few.old each.old × Known table.now known.old }
    ensures { AllCounted b table.now seen.new few.new each.new result }
{
    let n = b.n;
    let all = b.all;
    let mut spots = 0;
    for i in 0..n {
        let from = 1536 * i;
        let one = count_one(table, all[i], seen, &mut few[from..from + 1536], known)?;
        spots += one.spots;
        each[i] = one.spots as u32;
    }
    Some(spots)
}

// All of them written, one behind the other.
fn give_all(table: &[u8], b: ranges::Batch, few: &[u8], each: &[u32], output: &mut [u8])
    requires { AllGivable b table.now few.now each.now output.old }
    ensures { AllGiven b table.now output.old output.new }
{
    let n = b.n;
    let all = b.all;
    let mut at = 0;
    for i in 0..n {
        let r = all[i];
        let found = each[i] as usize;
        let from = 1536 * i;
        report::give(
            table,
            &few[from..from + 1536],
            found,
            r.x1,
            r.x2,
            r.y,
            &mut output[at..],
        );
        at += 12 * found;
    }
}

// The first counts, as many as `counts` has.
// Stays: `copy_from_slice` would ask the C library for memmove (see `octets::copy`).
fn copy_counts(each: &[u32], counts: &mut [u32])
    requires { length counts.old ≤ length each.now }
    ensures { counts.new ≡ take (length counts.old) each.now }
{
    for i in 0..counts.len() {
        counts[i] = each[i];
    }
}

// The answer where lengths and numbers are right and block 0 is in order. The counts are kept in `each` until it is known that the spots fit.
fn answer_with(
    table: &[u8],
    b: ranges::Batch,
    few: &mut [u8],
    known: &mut [[u64; 6]],
    each: &mut [u32],
    counts: &mut [u32],
    output: &mut [u8],
    read_map: &mut [u8],
) -> Result<u32, Refusal>
    requires { Answerable b table.now few.old counts.old read_map.old × (b.n ≤ length each.old) × Known table.now known.old }
    ensures { Answered b table.now counts.old output.old read_map.old (answer_of result) counts.new output.new read_map.new }
{
    let mut seen = [0u8; 512];
    octets::set_bit(&mut seen, 0);
    let Some(spots) = count_all(table, b, &mut seen, few, each, known) else {
        return Err(Refusal::Broken);
    };
    let given = spots as u32;
    if output.len() / 12 < spots {
        return Err(Refusal::Output(given));
    }
    give_all(table, b, few, each, output);
    copy_counts(each, counts);
    octets::copy(&seen, read_map, 512);
    Ok(given)
}

// The same with room of its own: FEW bytes for spots, and KNOWN slots for what is validated. Each size has a frame of its own, and none lies under another's.
#[inline(never)]
fn answer_in<const FEW: usize, const KNOWN: usize>(
    table: &[u8],
    b: ranges::Batch,
    counts: &mut [u32],
    output: &mut [u8],
    read_map: &mut [u8],
) -> Result<u32, Refusal>
    requires { Answerable b table.now (replicate FEW 0) counts.old read_map.old × (FEW ≤ 98304) × (KNOWN ≤ 512) }
    ensures { Answered b table.now counts.old output.old read_map.old (answer_of result) counts.new output.new read_map.new }
{
    let mut each = [0u32; 64];
    let mut few = [0u8; FEW];
    let mut known = [[0u64; 6]; KNOWN];
    answer_with(
        table, b, &mut few, &mut known, &mut each, counts, output, read_map,
    )
}

// The reports of a batch of ranges, one behind the other, with the number of spots of each in `counts`. The read map marks the blocks that any of them reads.
pub fn report_batch(
    table: &[u8],
    b: ranges::Batch,
    counts: &mut [u32],
    output: &mut [u8],
    read_map: &mut [u8],
) -> Result<u32, Refusal>
    ensures { ManyOf b table.now counts.old output.old read_map.old (answer_of result) counts.new output.new read_map.new }
{
    if !block::sized(table.len()) {
        return Err(Refusal::TableLength);
    }
    if (read_map.len() != 512) | (counts.len() != b.n) {
        return Err(Refusal::LentLength);
    }
    if 64 < b.n {
        return Err(Refusal::TooManyRanges);
    }
    if !block::header_ok(table) {
        return Err(Refusal::Broken);
    }
    // A few ranges don't wait for the clearing of what many would use.
    if b.n <= 4 {
        return answer_in::<6144, 32>(table, b, counts, output, read_map);
    }
    if b.n <= 16 {
        return answer_in::<24576, 128>(table, b, counts, output, read_map);
    }
    answer_in::<98304, 512>(table, b, counts, output, read_map)
}

// The same of a lent slice of ranges.
pub fn report_many(
    table: &[u8],
    ranges: &[ranges::Range],
    counts: &mut [u32],
    output: &mut [u8],
    read_map: &mut [u8],
) -> Result<u32, Refusal>
    ensures { ManyPost ranges.now table.now counts.old output.old read_map.old (answer_of result) counts.new output.new read_map.new }
{
    let b = ranges::load(ranges);
    report_batch(table, b, counts, output, read_map)
}
