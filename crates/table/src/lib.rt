// The public calls. None has a `requires`: every call ends on any bytes and arguments, and a refused one changes nothing but scratch.
#![tactic(auto)]

ghost use Rattle.std.specs.Prelude.{◌≡◌, true, length, replicate, eqb};
ghost use Rattle.block.specs.Answers.{answer_of, told, yes_or_no};
ghost use Rattle.block.specs.Table.{table_sized};
ghost use Rattle.table.specs.Queries.{ReportPost, TopPost, CountPost, CheckPost, BlocksReadPost};
ghost use Rattle.table.specs.Updates.{FormatPost, AddPost, WithdrawPost, RebuildPost};
ghost use Rattle.table.specs.NoneGiven.{NoneGiven};
ghost use Rattle.table.specs.TopSizes.{is_all, AllCounted, TopCounted, TopSized, Writable, AllWritten, Written};
ghost use Rattle.top.specs.Runs.{Runnable};

use block::Refusal;

// Makes the empty table.
pub fn format(table: &mut [u8]) -> Result<(), Refusal>
    ensures { FormatPost table.old (told result) table.new }
{
    block::format(table)
}

// The number of live spots.
pub fn count(table: &[u8]) -> Result<u32, Refusal>
    ensures { CountPost table.now (answer_of result) }
{
    if !block::sized(table.len()) {
        return Err(Refusal::TableLength);
    }
    let mut seen = [0u8; 512];
    let everything = spot::everything();
    let Some(all) = query::count_table(table, &mut seen, everything) else {
        return Err(Refusal::Broken);
    };
    Ok(all.spots as u32)
}

// Whether the table is sound.
pub fn check(table: &[u8]) -> Result<bool, Refusal>
    ensures { CheckPost table.now (yes_or_no result) }
{
    if !block::sized(table.len()) {
        return Err(Refusal::TableLength);
    }
    Ok(soundness::is_sound(table))
}

// All live spots with x1 ≤ place ≤ x2 and rank ≥ y, rising in place order. If x1 is greater than x2, the range runs on past the door: all places from x1 up, followed
// by all places up to x2; the report begins at x1. The read map marks the blocks read.
pub fn report(
    table: &[u8],
    x1: i32,
    x2: i32,
    y: i32,
    output: &mut [u8],
    read_map: &mut [u8],
) -> Result<u32, Refusal>
    ensures { ReportPost x1 x2 y table.now output.old read_map.old (answer_of result) output.new read_map.new }
{
    if !block::sized(table.len()) {
        return Err(Refusal::TableLength);
    }
    if read_map.len() != 512 {
        return Err(Refusal::LentLength);
    }
    let mut seen = [0u8; 512];
    // Nothing may be written before the answer is known: so few spots are gathered in a buffer, and more are found again.
    let mut few = [0u8; 1536];
    let Some(all) = report::size(table, x1, x2, y, &mut seen, &mut few) else {
        return Err(Refusal::Broken);
    };
    let found = all.spots as u32;
    if output.len() / 12 < all.spots {
        return Err(Refusal::Output(found));
    }
    report::give(table, &few, all.spots, x1, x2, y, output);
    octets::copy(&seen, read_map, 512);
    Ok(found)
}

// Top with k = 0 reads block 0 alone.
fn top_none(table: &[u8], read_map: &mut [u8]) -> Result<u32, Refusal>
    requires { (table_sized (length table.now) ≡ true) × (length read_map.old ≡ 512) }
    ensures { NoneGiven table.now read_map.old (answer_of result) read_map.new }
{
    if !block::header_ok(table) {
        return Err(Refusal::Broken);
    }
    let mut first = [0u8; 512];
    octets::set_bit(&mut first, 0);
    octets::copy(&first, read_map, 512);
    Ok(0)
}

// What is known of the spots that Top gives: they are in the small buffer, or they are all that is in range, each with the map made; or they are still to be searched for.
#[derive(Clone, Copy, Debug, PartialEq, Eq)]
enum Kind {
    Held,
    All,
    Best,
}

// How many spots Top gives, and what is known of them.
#[derive(Clone, Copy, Debug, PartialEq, Eq)]
struct Size {
    spots: usize,
    kind: Kind,
}

// How many spots Top gives, if a count can say. A count that breaks says nothing: Top may end before it comes to the broken block. `read` is then cleared for the
// search.
fn top_count(table: &[u8], read: &mut [u8], q: spot::Query, k: usize) -> Option<Size>
    requires { (table_sized (length table.now) ≡ true) × (read.old ≡ replicate 512 0) }
    ensures { TopCounted table.now q k read.new result }
{
    let Some(found) = query::count_table(table, read, q) else {
        octets::zero(read, 512);
        return None;
    };
    if found.spots <= k {
        return Some(Size {
            spots: found.spots,
            kind: Kind::All,
        });
    }
    Some(Size {
        spots: k,
        kind: Kind::Best,
    })
}

// What Top gives, if it is known without a search: where k is above the figure in block 0, which is never below the number of live spots, all that is in range is
// asked for, and a count reads what Top reads. On an unsound table the figure only chooses the way.
fn top_told(table: &[u8], read: &mut [u8], q: spot::Query, k: usize) -> Option<Size>
    requires { (table_sized (length table.now) ≡ true) × (read.old ≡ replicate 512 0) }
    ensures { TopCounted table.now q k read.new result }
{
    if (k <= 512) | ((k as u64) <= block::bound_of(table)) {
        return None;
    }
    top_count(table, read, q, k)
}

// Nothing may be written before the answer is known: it is told, or searched for with room for 512 spots. None if a rule is broken.
fn top_size(table: &[u8], read: &mut [u8], q: spot::Query, k: usize, few: &mut [u8]) -> Option<Size>
    requires { Runnable table.now q read.old few.old k 512 }
    ensures { TopSized table.now q k few.old read.new few.new result }
{
    if let Some(told) = top_told(table, read, q, k) {
        return Some(told);
    }
    let found = top::top_run(table, read, q, k, few, 512)?;
    if found.spots <= 512 {
        return Some(Size {
            spots: found.spots,
            kind: Kind::Held,
        });
    }
    Some(Size {
        spots: found.spots,
        kind: Kind::Best,
    })
}

// Writes all that is in range, and sorts it. Where that is k spots, Top reads from the rank of the last one on: the blocks of that walk are marked.
fn top_all(table: &[u8], read: &mut [u8], q: spot::Query, k: usize, output: &mut [u8], n: usize)
    requires { Writable table.now q k read.old output.old n × AllCounted table.now q k read.old n }
    ensures { AllWritten table.now q k n output.old read.new output.new }
{
    query::collect_table(table, output, q);
    sort::by_top(output, n);
    if n < k {
        return;
    }
    let last = spot::read_key(output, 12 * (n - 1));
    octets::zero(read, 512);
    query::count_table(table, read, spot::top_query(q.x1, q.x2, last % 4294967296));
}

// Writes what Top gives, where it isn't held: all that is in range, or what the search finds.
fn top_write(
    table: &[u8],
    read: &mut [u8],
    q: spot::Query,
    k: usize,
    output: &mut [u8],
    n: usize,
    kind: Kind,
)
    requires { Writable table.now q k read.old output.old n × (is_all kind ≡ true → AllCounted table.now q k read.old n) }
    ensures { Written table.now q k n output.old read.new output.new }
{
    if let Kind::All = kind {
        top_all(table, read, q, k, output, n);
        return;
    }
    octets::zero(read, 512);
    // Also by `top_run`: the wide search has one way in, so that there is one large frame.
    top::top_run(table, read, q, k, output, n);
}

// Of the live spots with x1 ≤ place ≤ x2, the k of the highest ranks, the highest first and of equal ranks the lower place first. If x1 is greater than x2, the
// range runs on past the door, as a report's; the order stays. The read map marks the blocks read.
pub fn top(
    table: &[u8],
    x1: i32,
    x2: i32,
    k: u32,
    output: &mut [u8],
    read_map: &mut [u8],
) -> Result<u32, Refusal>
    ensures { TopPost x1 x2 k table.now output.old read_map.old (answer_of result) output.new read_map.new }
{
    if !block::sized(table.len()) {
        return Err(Refusal::TableLength);
    }
    if read_map.len() != 512 {
        return Err(Refusal::LentLength);
    }
    if k == 0 {
        return top_none(table, read_map);
    }
    let q = spot::top_query(x1, x2, 0);
    let mut read = [0u8; 512];
    let mut few = [0u8; 6144];
    let Some(size) = top_size(table, &mut read, q, k as usize, &mut few) else {
        return Err(Refusal::Broken);
    };
    let n = size.spots;
    let given = n as u32;
    if output.len() / 12 < n {
        return Err(Refusal::Output(given));
    }
    if let Kind::Held = size.kind {
        octets::copy(&few, output, 12 * n);
        octets::copy(&read, read_map, 512);
        return Ok(given);
    }
    top_write(table, &mut read, q, k as usize, output, n, size.kind);
    octets::copy(&read, read_map, 512);
    Ok(given)
}

// How many blocks were read, by the read map that a call has left.
pub fn blocks_read(read_map: &[u8]) -> Result<u32, Refusal>
    ensures { BlocksReadPost read_map.now (answer_of result) }
{
    if read_map.len() != 512 {
        return Err(Refusal::LentLength);
    }
    Ok(octets::ones(read_map) as u32)
}

// Whether a call was refused since there is no room for one spot more: it has touched nothing then.
pub fn is_full(done: Result<(), Refusal>) -> bool
    ensures { result ≡ eqb (told done).number 4 }
{
    matches!(done, Err(Refusal::Full(_)))
}

// Puts the spot in; one of the same identity is replaced.
pub fn add(
    table: &mut [u8],
    scratch: &mut [u8],
    place: i32,
    rank: i32,
    track: u32,
) -> Result<(), Refusal>
    ensures { AddPost place rank track table.old scratch.old (told result) table.new scratch.new }
{
    let bytes = table.len();
    if !block::sized(bytes) {
        return Err(Refusal::TableLength);
    }
    if scratch.len() < bytes {
        return Err(Refusal::LentLength);
    }
    if !spot::in_limits(place) {
        return Err(Refusal::PlaceOutside(0));
    }
    let key = spot::key_of(place, rank);
    let done = revise::put_spot(table, scratch, spot::Spot { key, track });
    // Full: neither the table nor the scratch was touched.
    if is_full(done) {
        return done;
    }
    octets::zero(scratch, bytes);
    done
}

// Takes out the spot of that identity, if there is one.
pub fn withdraw(table: &mut [u8], scratch: &mut [u8], place: i32, rank: i32) -> Result<(), Refusal>
    ensures { WithdrawPost place rank table.old scratch.old (told result) table.new scratch.new }
{
    let size = table.len();
    if !block::sized(size) {
        return Err(Refusal::TableLength);
    }
    if scratch.len() < size {
        return Err(Refusal::LentLength);
    }
    if !spot::in_limits(place) {
        return Err(Refusal::PlaceOutside(0));
    }
    let key = spot::key_of(place, rank);
    let done = revise::take_key(table, scratch, key);
    octets::zero(scratch, size);
    done
}

// The live spots stay, track numbers included, and all waiting changes are carried out.
pub fn rebuild(table: &mut [u8], scratch: &mut [u8]) -> Result<(), Refusal>
    ensures { RebuildPost table.old scratch.old (told result) table.new scratch.new }
{
    let n = table.len();
    if !block::sized(n) {
        return Err(Refusal::TableLength);
    }
    if scratch.len() < n {
        return Err(Refusal::LentLength);
    }
    let ok = renew::anew(table, scratch);
    octets::zero(scratch, n);
    if !ok {
        return Err(Refusal::Broken);
    }
    Ok(())
}
