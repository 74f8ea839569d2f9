// Many ranges in one call, compared with the list and with single reports.
ghost use Rattle.table.specs.Queries.{GivenInside};
ghost use Rattle.std.specs.Prelude.{◌<◌, ◌≤◌, length};

use crate::asks::{call_report, spots_in_list};
use crate::kinds::around;
use crate::list::{List, SLOTS};
use crate::{Run, compared, drawn, found, told};
use random::{below, next};

// A count as it is lent.
const LENT: u32 = 2779096485;

// What a call gets beside the table: the ranges, and how many counts and bytes of the output and of the map. The list has so many spots for them.
#[derive(Clone, Copy)]
struct Handed {
    batch: ranges::Batch,
    counts: usize,
    room: usize,
    map: usize,
    spots: u64,
}

pub fn later(seed: u64) -> u64 {
    next(next(next(next(seed))))
}

// From a place on, up to one that lies less than `width` behind it, on past the last place from the first on.
fn stretch(seed: u64, start: u64, width: u64) -> ranges::Range
    requires { (start < 4294967296) × (0 < width) × (width ≤ 4096) }
{
    let end = (start + below(seed, width)) % 4294967296;
    let x1 = spot::unbias(start);
    let x2 = spot::unbias(end);
    let y = around(next(seed), 20);
    ranges::Range { x1, x2, y }
}

// Past the door with few spots on either side.
fn past_door(seed: u64) -> ranges::Range {
    let near = below(seed, 300);
    let x1 = spot::unbias(2147486648 - near);
    let x2 = spot::unbias(2147480648 + near);
    let y = around(next(seed), 20);
    ranges::Range { x1, x2, y }
}

// From any place to any, past the door where the first is greater.
fn any_range(seed: u64) -> ranges::Range {
    let s = next(seed);
    let x1 = around(seed, 3000);
    let x2 = around(s, 3000);
    let y = around(next(s), 20);
    ranges::Range { x1, x2, y }
}

// Of ten, one is the last one again, two begin near it, one is past the door, and where ranges are wide one is any; the others are stretches from any place on.
pub fn next_range(seed: u64, last: ranges::Range, width: u64) -> ranges::Range
    requires { (0 < width) × (width ≤ 4096) }
{
    let s = next(seed);
    match below(seed, 10) {
        0 => last,
        1 | 2 => {
            let start = (spot::bias(last.x1) + below(s, 30)) % 4294967296;
            stretch(next(s), start, width)
        }
        3 => past_door(s),
        4 if 1000 < width => any_range(s),
        _ => stretch(next(s), spot::bias(around(s, 3000)), width),
    }
}

// So many ranges, and the random number after them; those from the 65th on are of no account.
fn draw_ranges(seed: u64, n: usize, width: u64) -> (ranges::Batch, u64)
    requires { (0 < width) × (width ≤ 4096) }
{
    let mut last = ranges::Range { x1: 0, x2: 0, y: 0 };
    let mut all = [last; 64];
    let mut s = seed;
    for i in 0..64 {
        last = next_range(s, last, width);
        all[i] = last;
        s = later(s);
    }
    (ranges::Batch { n, all }, s)
}

// Up to 66 ranges, or up to eight.
fn draw_number(seed: u64) -> usize
    ensures { result ≤ 66 }
{
    let s = next(seed);
    if below(seed, 2) == 0 {
        return below(s, 67) as usize;
    }
    below(s, 9) as usize
}

// Wide ranges in one call of four.
fn draw_width(seed: u64) -> u64
    ensures { (0 < result) × (result ≤ 4096) }
{
    if below(seed, 4) == 0 {
        return 3000;
    }
    60
}

// As many counts as there are ranges; once in sixteen another number.
fn draw_counts(seed: u64, n: usize) -> usize {
    if below(seed, 16) == 0 {
        return below(next(seed), 67) as usize;
    }
    n
}

// A map of 512 bytes; once in sixteen one byte more or less.
fn draw_map(seed: u64) -> usize {
    if below(seed, 16) == 0 {
        return (511 + 2 * below(next(seed), 2)) as usize;
    }
    512
}

// Room for all spots of the table, or for those of the call alone, or a byte less.
fn draw_room(seed: u64, total: u64) -> usize {
    let bytes = 12 * (total % 4785);
    match below(seed, 8) {
        0 => bytes as usize,
        1 => ((bytes + 57407) % 57408) as usize,
        _ => 57408,
    }
}

// The number of spots that the list has for all ranges.
fn total(list: &List, b: &ranges::Batch) -> u64 {
    let mut spots = 0u64;
    for r in &b.all[..b.n.min(64)] {
        spots = spots.wrapping_add(list.report_count(r.x1, r.x2, r.y));
    }
    spots
}

// What a call of such ranges gets.
fn draw_handed(list: &List, seed: u64, batch: ranges::Batch) -> Handed {
    let spots = total(list, &batch);
    let s = later(seed);
    Handed {
        batch,
        counts: draw_counts(seed, batch.n),
        room: draw_room(s, spots),
        map: draw_map(next(s)),
        spots,
    }
}

// The number that the list asks for.
// Stays: a number for a refusal, since it is held to the number that the call answers.
fn number_of(h: Handed) -> u32 {
    let n = h.batch.n;
    if (h.map != 512) | (h.counts != n) {
        return 2;
    }
    if 64 < n {
        return 6;
    }
    if ((h.room / 12) as u64) < h.spots {
        return 5;
    }
    0
}

// And the detail.
fn detail_of(h: Handed, number: u32) -> u64 {
    if (number == 0) | (number == 5) {
        return h.spots;
    }
    0
}

fn call_many(
    table: &[u8],
    h: Handed,
    counts: &mut [u32],
    output: &mut [u8],
    map: &mut [u8],
) -> block::Answer {
    let c = h.counts.min(counts.len());
    let o = h.room.min(output.len());
    let m = h.map.min(map.len());
    let reported = many::report_batch(
        table,
        h.batch,
        &mut counts[0..c],
        &mut output[0..o],
        &mut map[0..m],
    );
    block::answer_of(reported)
}

// Makes the call and compares its answer and all that it leaves, behind what it is lent too.
fn call_leaves(
    table: &[u8],
    h: Handed,
    run: Run,
    counts: &[u32; 66],
    output: &[u8; 57408],
    map: &[u8; 513],
) -> Run {
    let mut c = [LENT; 66];
    let mut o = [165u8; 57408];
    let mut m = [165u8; 513];
    let a = call_many(table, h, &mut c, &mut o, &mut m);
    let number = number_of(h);
    let answered = told(run, a, number, detail_of(h, number));
    let same = (c == *counts) & (o == *output) & (m == *map);
    compared(answered, same)
}

// Lays n bytes of one output into another and says where they end. Those that don't fit are left out.
// Stays: spots laid so far, with their length beside, since nothing here takes memory from a heap.
fn lay(from: &[u8; 57408], n: usize, to: &mut [u8; 57408], at: usize) -> usize {
    if (57408 < at) || (57408 - at < n) {
        return at;
    }
    to[at..at + n].copy_from_slice(&from[..n]);
    at + n
}

// Marks in one map what another marks.
fn join(map: &mut [u8; 513], own: &[u8; 512]) {
    for i in 0..512 {
        map[i] |= own[i];
    }
}

// The spots of a single report, compared with the list.
fn one_in_list(list: &List, run: Run, r: ranges::Range, a: block::Answer, own: &[u8; 57408]) -> Run
    requires { GivenInside a own.now }
{
    let n = a.detail as usize;
    if (a.number != 0) | (SLOTS < n) {
        return run;
    }
    spots_in_list(own, n, list, run, r.x1, r.x2, r.y, false)
}

// The report of one range alone, compared with the list; its spots go behind those of the ranges before, its marks beside theirs. The history after it, how many spots it gave, and
// where they end among those of all.
fn report_one(
    table: &[u8],
    list: &List,
    run: Run,
    r: ranges::Range,
    at: usize,
    output: &mut [u8; 57408],
    map: &mut [u8; 513],
) -> (Run, u32, usize) {
    let mut own = [0u8; 57408];
    let mut marks = [0u8; 512];
    let a = call_report(table, r.x1, r.x2, r.y, &mut own, &mut marks);
    let right = a.detail as u64 == list.report_count(r.x1, r.x2, r.y);
    let counted = found(run, a.detail as u64, right & (a.number == 0));
    let n = (a.detail as usize).min(SLOTS);
    let end = lay(&own, 12 * n, output, at);
    join(map, &marks);
    (one_in_list(list, counted, r, a, &own), a.detail, end)
}

// The reports of all ranges, one by one.
fn report_each(
    table: &[u8],
    list: &List,
    begun: Run,
    b: ranges::Batch,
    counts: &mut [u32; 66],
    output: &mut [u8; 57408],
    map: &mut [u8; 513],
) -> Run {
    let mut run = begun;
    let mut at = 0;
    for i in 0..b.n.min(64) {
        (run, counts[i], at) = report_one(table, list, run, b.all[i], at, output, map);
    }
    run
}

// Copies the blocks that are marked.
fn copy_marked(table: &[u8], second: &mut [u8], map: &[u8])
    requires { length table.now ≤ length second.old }
{
    for b in 0..table.len() / 2048 {
        if b / 8 < map.len() && octets::test_bit(map, b) {
            let at = 2048 * b;
            second[at..at + 2048].copy_from_slice(&table[at..at + 2048]);
        }
    }
}

// Makes a second table, which has zeros in the blocks that are not marked.
pub fn lay_second(table: &[u8], second: &mut [u8], map: &[u8])
    requires { length table.now ≤ length second.old }
{
    second[..table.len()].fill(0);
    copy_marked(table, second, map);
}

// The call on a second table.
fn on_second(
    table: &[u8],
    second: &mut [u8],
    h: Handed,
    run: Run,
    counts: &[u32; 66],
    output: &[u8; 57408],
    map: &[u8; 513],
) -> Run {
    let n = table.len();
    if second.len() < n {
        return run;
    }
    lay_second(table, second, map);
    call_leaves(&second[0..n], h, run, counts, output, map)
}

fn compare(table: &[u8], second: &mut [u8], list: &List, run: Run, h: Handed) -> Run {
    let mut counts = [LENT; 66];
    let mut output = [165u8; 57408];
    let mut map = [165u8; 513];
    if number_of(h) != 0 {
        return call_leaves(table, h, run, &counts, &output, &map);
    }
    map[..512].fill(0);
    octets::set_bit(&mut map, 0);
    let asked = report_each(
        table,
        list,
        run,
        h.batch,
        &mut counts,
        &mut output,
        &mut map,
    );
    let called = call_leaves(table, h, asked, &counts, &output, &map);
    on_second(table, second, h, called, &counts, &output, &map)
}

// A call of many ranges; the second table lies in bytes that are of no account between the calls.
pub fn ask(table: &[u8], second: &mut [u8], list: &List, run: Run) -> Run {
    let r = drawn(run);
    let s = later(r.seed);
    let (batch, drawn_to) = draw_ranges(later(s), draw_number(s), draw_width(r.seed));
    let after = Run {
        seed: later(later(drawn_to)),
        ..run
    };
    compare(
        table,
        second,
        list,
        after,
        draw_handed(list, drawn_to, batch),
    )
}
