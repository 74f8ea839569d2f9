// What the calls that read say, compared with the list.
ghost use Rattle.std.specs.Prelude.{◌≡◌, ◌<◌, ◌≤◌, true};
ghost use Rattle.spot.specs.Spots.{limited_from};
ghost use Rattle.table.specs.Queries.{GivenInside};

use crate::kinds::around;
use crate::list::{List, SLOTS};
use crate::{Run, compared, drawn, found, list, told};
use random::below;

pub const FIRST: i32 = i32::MIN;

pub const LAST: i32 = i32::MAX;

// Whether a comes before b in a Report that begins at place x1: what lies past the door comes last.
fn report_before(x1: i32, a: u64, b: u64) -> bool {
    let near = x1 <= spot::place_of(a);
    if near == (x1 <= spot::place_of(b)) {
        return a < b;
    }
    near
}

fn in_order(by_top: bool, x1: i32, a: u64, b: u64) -> bool {
    if by_top {
        return list::top_before(a, b);
    }
    report_before(x1, a, b)
}

fn wanted(id: u64, x1: i32, x2: i32, y: i32) -> bool {
    list::lies(spot::place_of(id), x1, x2) & (y <= spot::rank_in(id))
}

fn spot_in_list(list: &List, run: Run, id: u64, track: u32, fine: bool) -> Run {
    let placed = found(run, id / 4294967296, fine);
    let ranked = found(placed, id % 4294967296, true);
    found(ranked, u64::from(track), list.track_of(id) == Some(track))
}

// Compares n spots of an output with the list: each is there with its track and in the range, and they come in the order of a Report or in that of Top's answers.
pub fn spots_in_list(
    output: &[u8; 57408],
    n: usize,
    list: &List,
    begun: Run,
    x1: i32,
    x2: i32,
    y: i32,
    by_top: bool,
) -> Run
    requires { (n ≤ 4784) × (limited_from output.now 12 n 0 ≡ true) }
{
    let mut run = begun;
    let mut last = 0;
    for i in 0..n {
        let id = spot::read_key(output, 12 * i);
        let track = octets::read32(output, 12 * i + 8) as u32;
        let fine = wanted(id, x1, x2, y) & (in_order(by_top, x1, last, id) | (i == 0));
        run = spot_in_list(list, run, id, track, fine);
        last = id;
    }
    run
}

pub fn call_report(
    table: &[u8],
    x1: i32,
    x2: i32,
    y: i32,
    output: &mut [u8; 57408],
    map: &mut [u8; 512],
) -> block::Answer
    ensures { GivenInside result output.new }
{
    block::answer_of(table::report(table, x1, x2, y, output, map))
}

pub fn call_top(
    table: &[u8],
    x1: i32,
    x2: i32,
    k: u32,
    output: &mut [u8; 57408],
    map: &mut [u8; 512],
) -> block::Answer
    ensures { GivenInside result output.new }
{
    block::answer_of(table::top(table, x1, x2, k, output, map))
}

// Whether every block that one map marks is marked in one of two others.
pub fn within(a: &[u8; 512], b: &[u8; 512], c: &[u8; 512]) -> bool {
    for i in 0..512 {
        if a[i] & !(b[i] | c[i]) != 0 {
            return false;
        }
    }
    true
}

// Whether a Report past the door marks what those over its two stretches mark, and no more.
fn reads_stretches(table: &[u8], x1: i32, x2: i32, y: i32, marks: &[u8; 512]) -> bool {
    if x1 <= x2 {
        return true;
    }
    let mut output = [0u8; 57408];
    let mut up = [0u8; 512];
    let mut down = [0u8; 512];
    call_report(table, x1, LAST, y, &mut output, &mut up);
    call_report(table, FIRST, x2, y, &mut output, &mut down);
    within(marks, &up, &down) & within(&up, marks, marks) & within(&down, marks, marks)
}

// How far the last of n spots lies behind the first, in centimetres: 32 bits hold the difference of two places.
fn stretch(output: &[u8; 57408], n: usize) -> i32
    requires { (n ≤ 4784) × (limited_from output.now 12 n 0 ≡ true) }
{
    if n == 0 {
        return 0;
    }
    let first = spot::read_key(output, 0);
    let last = spot::read_key(output, 12 * n - 12);
    spot::gap(spot::place_of(last), spot::place_of(first))
}

fn report(table: &[u8], list: &List, run: Run, x1: i32, x2: i32, y: i32) -> Run {
    let mut output = [0u8; 57408];
    let mut map = [0u8; 512];
    let a = call_report(table, x1, x2, y, &mut output, &mut map);
    let counted = told(run, a, 0, list.report_count(x1, x2, y));
    let marked = compared(counted, reads_stretches(table, x1, x2, y, &map));
    let n = a.detail as usize;
    if (a.number != 0) | (SLOTS < n) {
        return marked;
    }
    let far = stretch(&output, n);
    let measured = found(marked, spot::bias(far), (0 <= far) | (x2 < x1));
    spots_in_list(&output, n, list, measured, x1, x2, y, false)
}

// Whether Top's marks are among those of a Report over the same places from the rank of the last of the k spots, or the least where there are fewer; for k = 0 block 0
// alone.
fn reads_little(table: &[u8], list: &List, x1: i32, x2: i32, k: u32, marks: &[u8; 512]) -> bool {
    let mut map = [0u8; 512];
    map[0] = 1;
    if k == 0 {
        return within(marks, &map, &map) & within(&map, marks, marks);
    }
    let mut output = [0u8; 57408];
    let y = list.last_rank(x1, x2, k as u64);
    call_report(table, x1, x2, y, &mut output, &mut map);
    within(marks, &map, &map)
}

// Compares n spots that Top gave with the list: none that is not given comes before the last.
pub fn top_in_list(output: &[u8; 57408], n: usize, list: &List, run: Run, x1: i32, x2: i32) -> Run
    requires { (n ≤ 4784) × (limited_from output.now 12 n 0 ≡ true) }
{
    if n == 0 {
        return run;
    }
    let seen = spots_in_list(output, n, list, run, x1, x2, FIRST, true);
    let above = list.count(x1, x2, spot::read_key(output, 12 * n - 12));
    found(seen, above, above == n as u64)
}

fn top(table: &[u8], list: &List, run: Run, x1: i32, x2: i32, k: u32) -> Run {
    let mut output = [0u8; 57408];
    let mut map = [0u8; 512];
    let a = call_top(table, x1, x2, k, &mut output, &mut map);
    let all = list.report_count(x1, x2, FIRST);
    let counted = told(run, a, 0, all.min(u64::from(k)));
    let marked = compared(counted, reads_little(table, list, x1, x2, k, &map));
    let n = a.detail as usize;
    if (a.number != 0) | (SLOTS < n) {
        return marked;
    }
    top_in_list(&output, n, list, marked, x1, x2)
}

// Report and Top over such places, the Report from a rank near 0 or at one of the ends.
fn ask(table: &[u8], list: &List, run: Run, x1: i32, x2: i32) -> Run {
    let r1 = drawn(run);
    let r2 = drawn(report(table, list, r1, x1, x2, around(r1.seed, 4)));
    top(table, list, r2, x1, x2, below(r2.seed, 200) as u32)
}

// Past the door with a gap of up to three places. With no gap each place is in range, from the one behind x2 on; behind the last place there is none.
fn ask_gap(table: &[u8], list: &List, run: Run, x2: i32) -> Run {
    let r = drawn(run);
    let x1 = spot::bias(x2) + 1 + below(r.seed, 4);
    if 4294967295 < x1 {
        return r;
    }
    ask(table, list, r, spot::unbias(x1), x2)
}

// Past the door with few spots on either side.
fn ask_door(table: &[u8], list: &List, run: Run) -> Run {
    let r = drawn(run);
    let near = below(r.seed, 300);
    let x1 = spot::unbias(2147486648 - near);
    let x2 = spot::unbias(2147480648 + near);
    ask(table, list, r, x1, x2)
}

// Report and Top over random places.
fn ask_any(table: &[u8], list: &List, run: Run) -> Run {
    let r1 = drawn(run);
    let x1 = around(r1.seed, 3000);
    let r2 = drawn(r1);
    let x2 = around(r2.seed, 3000);
    let r3 = drawn(r2);
    let r4 = drawn(report(table, list, r3, x1, x2, around(r3.seed, 3000)));
    let k = below(r4.seed, 200) as u32;
    let r5 = top(table, list, r4, x1, x2, k);
    let r6 = top(table, list, r5, FIRST, LAST, k);
    ask_gap(table, list, r6, x2)
}

pub fn look(table: &[u8], list: &List, run: Run) -> Run {
    let counted = told(run, block::answer_of(table::count(table)), 0, list.live());
    let checked = told(counted, block::yes_or_no(table::check(table)), 0, 1);
    ask_door(table, list, ask_any(table, list, checked))
}

// The two places at the door, then each place: from the second one on, and from the last.
fn ask_ends(table: &[u8], list: &List, run: Run) -> Run {
    let door = ask(table, list, run, LAST, FIRST);
    let second = ask(table, list, door, FIRST + 1, FIRST);
    ask(table, list, second, LAST, LAST - 1)
}

// All of the table.
pub fn look_at_all(table: &[u8], list: &List, run: Run) -> Run {
    let r = report(table, list, run, FIRST, LAST, FIRST);
    let t = top(table, list, r, FIRST, LAST, 4294967295);
    look(table, list, ask_ends(table, list, t))
}
