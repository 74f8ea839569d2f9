// Reports of a tour, compared with the list.
ghost use Rattle.std.specs.Prelude.{◌<◌, ◌≤◌};

use crate::list::scan;
use crate::{REPORTS, Run, told};
use random::{below, next};

// A number at the place or the rank of some spot or beside it.
fn draw_beside(list: &[u8; 6144], n: usize, seed: u64, by_rank: bool) -> i32
    requires { (0 < n) × (n ≤ 512) }
{
    let key = spot::raw_key(list, 12 * (below(seed, n as u64) as usize));
    let beside = 4294967295 + below(next(seed), 3);
    let number = if by_rank {
        key % 4294967296
    } else {
        key / 4294967296
    };
    spot::unbias((number + beside) % 4294967296)
}

// Such a number, or one of the two ends.
fn draw_end(list: &[u8; 6144], n: usize, seed: u64, by_rank: bool) -> i32
    requires { n ≤ 512 }
{
    if n == 0 {
        return 0;
    }
    match below(seed, 16) {
        0 => i32::MIN,
        1 => i32::MAX,
        _ => draw_beside(list, n, next(seed), by_rank),
    }
}

// Whether no more blocks are marked than n spots allow: the catalogue, three, two for each 64 spots, and one more past the door.
fn few(q: spot::Query, n: usize, map: &[u8; 512]) -> bool
    requires { n ≤ 512 }
{
    let past_door = usize::from(q.x2 < q.x1);
    octets::ones(map) <= 4 + 2 * (n / 64) + past_door
}

// A Report, which is to give the first n spots of `wanted` and to leave the bytes behind them.
fn ask_tour(
    tour: &[u8; 32768],
    bytes: usize,
    q: spot::Query,
    wanted: &[u8; 6144],
    n: usize,
    map: &mut [u8; 512],
    run: Run,
) -> Run
    requires { (bytes ≤ 32768) × (n ≤ 512) }
{
    let all: &[u8] = tour;
    let mut output = [165u8; 6144];
    let reported = tour::tour_report(&all[0..bytes], q.x1, q.x2, q.y, &mut output, map);
    let right = (output == *wanted) & few(q, n, map);
    told(run, block::answer_of(reported), 0, n as u64, right)
}

// Zeroes the blocks that are not marked.
fn veil(tour: &mut [u8; 32768], map: &[u8; 512]) {
    for b in 0..16 {
        if !octets::test_bit(map, b) {
            tour[2048 * b..2048 * b + 2048].fill(0);
        }
    }
}

// A Report of the tour, and the same of one that has other bytes in the blocks that are not marked.
fn ask(
    tour: &[u8; 32768],
    bytes: usize,
    list: &[u8; 6144],
    n: usize,
    q: spot::Query,
    run: Run,
) -> Run
    requires { (bytes ≤ 32768) × (n ≤ 512) }
{
    let mut wanted = [165u8; 6144];
    let near = scan(list, n, q, false, &mut wanted, 0);
    let count = scan(list, n, q, true, &mut wanted, near);
    let mut map = [165u8; 512];
    let first = ask_tour(tour, bytes, q, &wanted, count, &mut map, run);
    let mut second = *tour;
    veil(&mut second, &map);
    let mut other = [165u8; 512];
    let again = ask_tour(&second, bytes, q, &wanted, count, &mut other, first);
    Run {
        wrong: again.wrong.wrapping_add(u64::from(other != map)),
        ..again
    }
}

// The random number three steps on: as many as an end takes.
fn later(seed: u64) -> u64 {
    next(next(next(seed)))
}

fn draw_query(list: &[u8; 6144], n: usize, seed: u64) -> spot::Query
    requires { n ≤ 512 }
{
    let second = later(seed);
    let x1 = draw_end(list, n, seed, false);
    let x2 = draw_end(list, n, second, false);
    let y = draw_end(list, n, later(second), true);
    spot::make_query(x1, x2, y)
}

// Reports over random places and from random ranks on.
pub fn ask_all(tour: &[u8; 32768], bytes: usize, list: &[u8; 6144], n: usize, begun: Run) -> Run
    requires { (bytes ≤ 32768) × (n ≤ 512) }
{
    let mut run = begun;
    for _ in 0..REPORTS {
        let s = next(run.seed);
        run.seed = later(later(later(s)));
        run.reports = run.reports.wrapping_add(1);
        run = ask(tour, bytes, list, n, draw_query(list, n, s), run);
    }
    run
}
