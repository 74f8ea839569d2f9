// Many ranges in one call.
ghost use Rattle.std.specs.Prelude.{◌≤◌};
ghost use Rattle.table.specs.Queries.{GivenInside};

use crate::marks::Marks;
use crate::shown::{BYTE, changed, show, show_others, show_spots};
use crate::{Row, plain};

// What a count is when it is lent.
const COUNT: u32 = 77;

// n ranges over place 0, from rank 0 on.
pub fn begun(n: usize) -> ranges::Batch {
    let r = ranges::Range { x1: 0, x2: 0, y: 0 };
    ranges::Batch { n, all: [r; 64] }
}

// The range of a row behind the others, where they are under 64.
pub fn with_row(b: ranges::Batch, r: Row) -> ranges::Batch {
    let n = b.n;
    if 64 <= n {
        return b;
    }
    let mut all = b.all;
    all[n] = ranges::Range {
        x1: r.x,
        x2: r.y,
        y: r.z,
    };
    ranges::Batch { n: n + 1, all }
}

fn asked(
    table: &[u8],
    b: ranges::Batch,
    r: Row,
    counts: &mut [u32],
    output: &mut [u8],
    map: &mut [u8],
) -> block::Answer
    ensures { GivenInside result output.new }
{
    let c = plain(r.x).min(counts.len());
    let o = plain(r.y).min(output.len());
    let m = plain(r.z).min(map.len());
    let reported = many::report_batch(
        table,
        b,
        &mut counts[0..c],
        &mut output[0..o],
        &mut map[0..m],
    );
    block::answer_of(reported)
}

fn show_counts(rt: &impl Print, counts: &[u32]) {
    let _ = print!(rt; "    counts");
    for count in counts {
        let _ = print!(rt; " {count}");
    }
    let _ = println!(rt);
}

// How many counts and bytes of the output differ from what was lent, behind the first n counts and the bytes up to the end of the spots.
fn show_changed(rt: &impl Print, counts: &[u32; 66], n: usize, output: &[u8; 4096], end: usize) {
    show_others(
        rt,
        changed(counts, n, COUNT).wrapping_add(changed(output, end, BYTE)),
    );
}

fn show_left(rt: &impl Print, a: block::Answer, n: usize, counts: &[u32; 66], output: &[u8; 4096])
    requires { GivenInside a output.now }
{
    if a.number != 0 {
        show_changed(rt, counts, 0, output, 0);
        return;
    }
    if 66 < n {
        return;
    }
    show_counts(rt, &counts[..n]);
    show_spots(rt, a, output);
    show_changed(rt, counts, n, output, 12 * (a.detail as usize));
}

// Reports the ranges that are handed in, with x counts, up to 66, y bytes of room, up to 4,096, and a map of z bytes, up to 513.
pub fn ask(rt: &impl Print, table: &[u8], marks: &mut Marks, b: ranges::Batch, r: Row) {
    let mut counts = [COUNT; 66];
    let mut output = [BYTE; 4096];
    let mut map = [0u8; 513];
    let a = asked(table, b, r, &mut counts, &mut output, &mut map);
    show(rt, a);
    show_left(rt, a, b.n, &counts, &output);
    marks.set(&map);
}
