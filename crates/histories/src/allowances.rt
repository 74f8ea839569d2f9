// Top with an allowance of node blocks, compared with Top, with the list and with one block more.
ghost use Rattle.std.specs.Prelude.{◌≡◌, ◌≤◌, true};
ghost use Rattle.block.specs.Answers.{answer_of};
ghost use Rattle.spot.specs.Spots.{limited_from};
ghost use Rattle.table.specs.Queries.{GivenInside};

use crate::asks::{FIRST, LAST, call_top, top_in_list};
use crate::batches::{later, lay_second, next_range};
use crate::list::{List, SLOTS};
use crate::{Run, asks, compared, drawn, found, told};
use random::{below, next};

// What a call is asked.
#[derive(Clone, Copy)]
struct Question {
    x1: i32,
    x2: i32,
    k: u32,
    allowance: u32,
}

fn allowing(q: Question, allowance: u32) -> Question {
    Question { allowance, ..q }
}

// All places in one call of four, else some range.
fn draw_range(seed: u64) -> ranges::Range {
    let all = ranges::Range {
        x1: FIRST,
        x2: LAST,
        y: 0,
    };
    if below(seed, 4) == 0 {
        return all;
    }
    next_range(next(seed), all, 3000)
}

// Under 24 spots, under 200, or all.
fn draw_number(seed: u64) -> u32 {
    let s = next(seed);
    match below(seed, 16) {
        0 => u32::MAX,
        1..=5 => below(s, 200) as u32,
        _ => below(s, 24) as u32,
    }
}

// A question that allows no block yet.
fn draw_question(seed: u64) -> Question {
    let r = draw_range(seed);
    Question {
        x1: r.x1,
        x2: r.x2,
        k: draw_number(later(later(seed))),
        allowance: 0,
    }
}

fn blocks_of(map: &[u8; 512]) -> usize {
    octets::ones(map)
}

// The node blocks that Top marks, or one less or more.
fn near(seed: u64, marks: &[u8; 512]) -> u32 {
    let blocks = blocks_of(marks) as u64 % 4096 + below(seed, 3);
    blocks.saturating_sub(2) as u32
}

// Under 8 blocks, under 64, without limit, or about as many as Top marks.
fn draw_allowance(seed: u64, marks: &[u8; 512]) -> u32 {
    let s = next(seed);
    match below(seed, 8) {
        0 => u32::MAX,
        1 => below(s, 64) as u32,
        2..=4 => below(s, 8) as u32,
        _ => near(s, marks),
    }
}

// Makes the call with so many bytes of the output. The ceiling is lent as a number that no refusal leaves.
fn call(
    table: &[u8],
    q: Question,
    output: &mut [u8],
    room: usize,
    map: &mut [u8; 512],
) -> within::Said
    ensures { GivenInside (answer_of result.answer) output.new }
{
    let mut ceiling = 165;
    let o = room.min(output.len());
    let answer = within::top_within(
        table,
        q.x1,
        q.x2,
        q.k,
        q.allowance,
        &mut output[0..o],
        map,
        &mut ceiling,
    );
    within::Said { answer, ceiling }
}

// Whether an output has the first n spots of Top's, and all behind them as lent.
fn begins(output: &[u8; 57408], spots: &[u8; 57408], n: usize) -> bool
    requires { n ≤ 4784 }
{
    let mut wanted = [165u8; 57408];
    wanted[..12 * n].copy_from_slice(&spots[..12 * n]);
    *output == wanted
}

// Whether a map marks block 0 and, of the blocks that Top marks, as many as are allowed.
fn reads_allowed(allowance: u32, map: &[u8; 512], marks: &[u8; 512]) -> bool {
    let most = (allowance as usize + 1).min(blocks_of(marks));
    octets::test_bit(map, 0) & asks::within(map, marks, marks) & (blocks_of(map) == most)
}

// Whether all is as Top's, where the blocks that it marks are allowed. Fewer than k spots are then all there are, so that the ceiling is the least rank.
fn is_top(
    q: Question,
    said: within::Said,
    map: &[u8; 512],
    top: block::Answer,
    marks: &[u8; 512],
) -> bool {
    if q.allowance as usize + 1 < blocks_of(marks) {
        return true;
    }
    let n = block::answer_of(said.answer).detail;
    let closed = (q.k <= n) | (said.ceiling == FIRST);
    (n == top.detail) & (map == marks) & closed
}

// Top of the same arguments reads in the same order, so that it begins with the spots given.
fn beside_top(
    run: Run,
    q: Question,
    said: within::Said,
    output: &[u8; 57408],
    map: &[u8; 512],
    top: block::Answer,
    spots: &[u8; 57408],
    marks: &[u8; 512],
) -> Run {
    let n = block::answer_of(said.answer).detail;
    let first = (n <= top.detail) & begins(output, spots, (n as usize).min(SLOTS));
    let begun = compared(run, (top.number == 0) & first);
    let allowed = reads_allowed(q.allowance, map, marks);
    let read = found(begun, blocks_of(map) as u64, allowed);
    compared(read, is_top(q, said, map, top, marks))
}

// The number of spots of the list in range that are above a rank.
fn above(list: &List, x1: i32, x2: i32, rank: i32) -> u64 {
    let y = spot::bias(rank) + 1;
    if 4294967295 < y {
        return 0;
    }
    list.report_count(x1, x2, spot::unbias(y))
}

// Whether the last of n spots is not under a rank.
fn reach(output: &[u8; 57408], n: usize, rank: i32) -> bool
    requires { (n ≤ 4784) × (limited_from output.now 12 n 0 ≡ true) }
{
    if n == 0 {
        return true;
    }
    rank <= spot::rank_in(spot::read_key(output, 12 * n - 12))
}

// Whether the list has no spot above the ceiling but among the n given, which are not under it. Where nothing may be read or given, it is the last rank.
fn ceiling_holds(list: &List, q: Question, ceiling: i32, output: &[u8; 57408], n: usize) -> bool
    requires { (n ≤ 4784) × (limited_from output.now 12 n 0 ≡ true) }
{
    if (q.k == 0) | (q.allowance == 0) {
        return (ceiling == LAST) & (n == 0);
    }
    (above(list, q.x1, q.x2, ceiling) <= n as u64) & reach(output, n, ceiling)
}

// The spots and the ceiling, compared with the list.
fn in_list(list: &List, run: Run, q: Question, said: within::Said, output: &[u8; 57408]) -> Run
    requires { GivenInside (answer_of said.answer) output.now }
{
    let a = block::answer_of(said.answer);
    let n = a.detail as usize;
    if (a.number != 0) | (SLOTS < n) {
        return run;
    }
    let seen = top_in_list(output, n, list, run, q.x1, q.x2);
    let holds = ceiling_holds(list, q, said.ceiling, output, n);
    found(seen, spot::bias(said.ceiling), holds)
}

// One block more never gives fewer spots, raises the ceiling or leaves out a mark.
fn beside_more(table: &[u8], run: Run, q: Question, said: within::Said, map: &[u8; 512]) -> Run {
    if q.allowance == u32::MAX {
        return run;
    }
    let mut o = [165u8; 57408];
    let mut m = [165u8; 512];
    let more = call(table, allowing(q, q.allowance + 1), &mut o, 57408, &mut m);
    let n = block::answer_of(said.answer).detail;
    let grown = (n <= block::answer_of(more.answer).detail) & (more.ceiling <= said.ceiling);
    compared(run, more.answer.is_ok() & grown & asks::within(map, &m, &m))
}

// Whether two outputs and two maps are the same.
fn same_left(a: &[u8; 57408], b: &[u8; 57408], m: &[u8; 512], n: &[u8; 512]) -> bool {
    (a == b) & (m == n)
}

// Makes the call again and compares all of it.
fn call_again(
    table: &[u8],
    run: Run,
    q: Question,
    said: within::Said,
    output: &[u8; 57408],
    map: &[u8; 512],
) -> Run {
    let mut o = [165u8; 57408];
    let mut m = [165u8; 512];
    let again = call(table, q, &mut o, 57408, &mut m);
    let left = same_left(&o, output, &m, map);
    compared(run, (again == said) & left)
}

// The call on a second table.
fn on_second(
    table: &[u8],
    second: &mut [u8],
    run: Run,
    q: Question,
    said: within::Said,
    output: &[u8; 57408],
    map: &[u8; 512],
) -> Run {
    let n = table.len();
    if second.len() < n {
        return run;
    }
    lay_second(table, second, map);
    call_again(&second[0..n], run, q, said, output, map)
}

// Whether an output and a map are as lent.
fn as_lent(output: &[u8; 57408], map: &[u8; 512]) -> bool {
    let o = [165u8; 57408];
    let m = [165u8; 512];
    same_left(output, &o, map, &m)
}

// With a byte less than n spots need, all stays as lent.
fn refused_short(table: &[u8], run: Run, q: Question, n: usize) -> Run
    requires { n ≤ 4784 }
{
    if n == 0 {
        return run;
    }
    let mut o = [165u8; 57408];
    let mut m = [165u8; 512];
    let said = call(table, q, &mut o, 12 * n - 1, &mut m);
    let answered = told(run, block::answer_of(said.answer), 5, n as u64);
    compared(answered, (said.ceiling == 0) & as_lent(&o, &m))
}

fn compare(
    table: &[u8],
    second: &mut [u8],
    list: &List,
    run: Run,
    q: Question,
    top: block::Answer,
    spots: &[u8; 57408],
    marks: &[u8; 512],
) -> Run {
    let mut output = [165u8; 57408];
    let mut map = [165u8; 512];
    let said = call(table, q, &mut output, 57408, &mut map);
    let a = block::answer_of(said.answer);
    let answered = told(run, a, 0, a.detail as u64);
    let begun = beside_top(answered, q, said, &output, &map, top, spots, marks);
    let listed = in_list(list, begun, q, said, &output);
    let wider = beside_more(table, listed, q, said, &map);
    let again = on_second(table, second, wider, q, said, &output, &map);
    let n = (a.detail as usize).min(SLOTS);
    refused_short(table, again, q, n)
}

// A call, and those beside it; the second table lies in bytes that are of no account between the calls.
pub fn ask(table: &[u8], second: &mut [u8], list: &List, run: Run) -> Run {
    let r = drawn(run);
    let s = later(later(later(r.seed)));
    let asked = draw_question(r.seed);
    let mut spots = [165u8; 57408];
    let mut marks = [165u8; 512];
    let top = call_top(table, asked.x1, asked.x2, asked.k, &mut spots, &mut marks);
    let q = allowing(asked, draw_allowance(s, &marks));
    let after = Run {
        seed: later(s),
        ..run
    };
    compare(table, second, list, after, q, top, &spots, &marks)
}
