// Pressed tours: the list of spots, which lies in the scratch bytes, the tour in the table's bytes, and reports of it.
ghost use Rattle.std.specs.Prelude.{◌<◌};
ghost use Rattle.table.specs.Queries.{GivenInside};

use crate::Row;
use crate::allowances::{Allowed, keep_marks, others_changed, show_blocks};
use crate::marks::Marks;
use crate::shown::{BYTE, show, show_others, show_spot, show_spots};

// A spot behind the first `at` bytes, where there is room; the bytes of the list after it.
pub fn put(list: &mut [u8], at: usize, place: i32, rank: i32, track: u32) -> usize {
    if list.len().saturating_sub(at) < 12 {
        return at;
    }
    let key = spot::key_of(place, rank);
    spot::write_spot(list, at, spot::Spot { key, track });
    at + 12
}

// n spots behind the first bytes: number i at place 10i + 5, with rank 37i mod 512 + 1 and track i.
pub fn put_spots(list: &mut [u8], bytes: usize, n: u64) -> usize
    requires { n < 2147483648 }
{
    let mut at = bytes;
    for i in 0..n {
        let place = spot::unbias((2147483653 + 10 * i) % 4294967296);
        let rank = spot::unbias(2147483649 + 37 * i % 512);
        at = put(list, at, place, rank, i as u32);
    }
    at
}

fn show_pressed(rt: &impl Print, a: block::Answer, tour: &[u8]) {
    show(rt, a);
    if a.number != 0 {
        return;
    }
    if tour.len() < 4 {
        return;
    }
    let _ = println!(rt; "    blocks {}", octets::read32(tour, 0) / 2048);
}

// Presses the list into the table's bytes.
pub fn press(rt: &impl Print, table: &mut [u8], scratch: &[u8], bytes: usize, r: Row) {
    let n = bytes.min(scratch.len());
    let a = block::told(press::press(&scratch[0..n], table));
    if !r.quiet {
        show_pressed(rt, a, table);
    }
}

// Prints the FNV-1a sum of 64 bits of the table's bytes from one on.
pub fn show_sum(rt: &impl Print, table: &[u8], from: usize) {
    let sum = table
        .iter()
        .skip(from)
        .fold(14695981039346656037u64, |sum, &b| {
            (sum ^ u64::from(b)).wrapping_mul(1099511628211)
        });
    let _ = println!(rt; ": {sum:016x}");
}

fn asked(tour: &[u8], l: Allowed, r: Row, output: &mut [u8], map: &mut [u8]) -> block::Answer
    ensures { GivenInside result output.new }
{
    let o = l.room.min(output.len());
    let m = l.map.min(map.len());
    let reported = tour::tour_report(tour, r.x, r.y, r.z, &mut output[0..o], &mut map[0..m]);
    block::answer_of(reported)
}

// The spots of an answer; of more than eight the first and the last.
fn show_some(rt: &impl Print, a: block::Answer, output: &[u8; 6156])
    requires { GivenInside a output.now }
{
    if a.number != 0 {
        return;
    }
    let n = a.detail as usize;
    if n <= 8 {
        show_spots(rt, a, output);
        return;
    }
    show_spot(rt, output, 0);
    show_spot(rt, output, 12 * (n - 1));
}

// The spots, how many other bytes differ from what was lent, and the blocks marked.
fn show_left(rt: &impl Print, a: block::Answer, output: &[u8; 6156], map: &[u8; 513])
    requires { GivenInside a output.now }
{
    if a.number != 0 {
        show_others(rt, others_changed(output, 0, map, 0));
        return;
    }
    show_some(rt, a, output);
    let end = 12 * (a.detail as usize);
    show_others(rt, others_changed(output, end, map, 512));
    show_blocks(rt, map);
}

// Reports on the tour, from x to y and from rank z on, with the bytes that are lent, of room up to 6,156.
pub fn ask(rt: &impl Print, tour: &[u8], marks: &mut Marks, l: Allowed, r: Row) {
    let mut output = [BYTE; 6156];
    let mut map = [BYTE; 513];
    let a = asked(tour, l, r, &mut output, &mut map);
    show(rt, a);
    show_left(rt, a, &output, &map);
    keep_marks(a.number == 0, &map, marks);
}
