// Messages: a letter, which is a list of changes or a message, lies in the scratch bytes.
ghost use Rattle.std.specs.Prelude.{◌<◌};

use crate::marks::set_bytes;
use crate::ops::Recoded;
use crate::shown::{BYTE, changed, show, show_others};
use crate::{Row, low_byte, plain, tours};

// The first byte of a change.
pub const ADDITION: u8 = 1;

pub const WITHDRAWAL: u8 = 2;

// A change behind the first `at` bytes, where there is room; the bytes of the letter after it.
pub fn put(letter: &mut [u8], at: usize, kind: u8, place: i32, rank: i32, track: u32) -> usize {
    if letter.len().saturating_sub(at) < 13 {
        return at;
    }
    letter[at] = kind;
    tours::put(letter, at + 1, place, rank, track)
}

// n withdrawals: number i at place i, with rank 0.
pub fn put_withdrawals(letter: &mut [u8], bytes: usize, n: u64) -> usize
    requires { n < 2147483648 }
{
    let mut at = bytes;
    for i in 0..n {
        at = put(letter, at, WITHDRAWAL, spot::unbias(2147483648 + i), 0, 0);
    }
    at
}

// Gives y bytes from x on the value z; the letter ends behind them at least.
pub fn set(letter: &mut [u8], bytes: usize, r: Row) -> usize {
    let end = plain(r.x) + plain(r.y);
    if letter.len() < end {
        return bytes;
    }
    set_bytes(letter, plain(r.x), plain(r.y), low_byte(r.z));
    bytes.max(end)
}

fn call(
    recoded: Recoded,
    letter: &[u8],
    bytes: usize,
    output: &mut [u8],
    room: usize,
) -> block::Answer {
    let n = bytes.min(letter.len());
    let o = room.min(output.len());
    let done = match recoded {
        Recoded::Written => message::write_message(&letter[0..n], &mut output[0..o]),
        Recoded::Read => message::read_message(&letter[0..n], &mut output[0..o]),
    };
    block::told(done)
}

// The bytes that come of it.
fn size(recoded: Recoded, letter: &[u8], output: &[u8; 53261]) -> usize {
    match recoded {
        Recoded::Written => octets::read32(output, 0) as usize,
        Recoded::Read if letter.len() < 7 => 0,
        Recoded::Read => 13 * octets::read16(letter, 5),
    }
}

fn take_over(output: &[u8], letter: &mut [u8], n: usize) -> usize {
    if (output.len() < n) | (letter.len() < n) {
        return 0;
    }
    letter[..n].copy_from_slice(&output[..n]);
    n
}

fn show_answer(rt: &impl Print, a: block::Answer, output: &[u8; 53261], n: usize, r: Row) {
    if !r.quiet {
        show(rt, a);
        show_others(rt, changed(output, n, BYTE));
    }
}

// Makes a message of a list of changes, or a list of a message, in the letter's place, with x bytes of room.
pub fn recode(rt: &impl Print, letter: &mut [u8], bytes: usize, recoded: Recoded, r: Row) -> usize {
    let mut output = [BYTE; 53261];
    let a = call(recoded, letter, bytes, &mut output, plain(r.x));
    if a.number != 0 {
        show_answer(rt, a, &output, 0, r);
        return bytes;
    }
    let n = size(recoded, letter, &output);
    show_answer(rt, a, &output, n, r);
    take_over(&output, letter, n)
}

// The letter's first bytes.
pub fn show_bytes(rt: &impl Print, letter: &[u8], n: usize) {
    let _ = print!(rt; ":");
    for b in letter.iter().take(n) {
        let _ = print!(rt; " {b}");
    }
    let _ = println!(rt);
}

fn call_apply(
    table: &mut [u8],
    work: &mut [u8],
    room: usize,
    letter: &[u8],
    bytes: usize,
) -> block::Answer {
    let w = room.min(work.len());
    let n = bytes.min(letter.len());
    block::told(apply::apply(table, &mut work[0..w], &letter[0..n]))
}

// How many bytes are zero before one that isn't.
fn zeros(work: &[u8]) -> usize {
    work.iter().take_while(|&&b| b == 0).count()
}

// How many bytes of the table differ from a copy.
fn differing(table: &[u8], copy: &[u8]) -> usize {
    table.iter().zip(copy).filter(|(a, b)| a != b).count()
}

fn show_work(rt: &impl Print, work: &[u8; 65536]) {
    let n = zeros(work);
    let others = changed(work, n, BYTE);
    let _ = print!(rt; "    zeros: {n}, others changed: {others}");
}

fn keep(table: &[u8], copy: &mut [u8]) {
    let n = table.len();
    if n <= copy.len() {
        copy[..n].copy_from_slice(table);
    }
}

// Applies the letter to the table, with a work area of x bytes; prints how many of its bytes are zero, how many of the others differ from what was lent, and after a refusal
// how many of the table's.
pub fn apply(rt: &impl Print, table: &mut [u8], letter: &[u8], bytes: usize, r: Row) {
    let mut work = [BYTE; 65536];
    let mut copy = [BYTE; 65536];
    keep(table, &mut copy);
    let a = call_apply(table, &mut work, plain(r.x), letter, bytes);
    show(rt, a);
    show_work(rt, &work);
    if a.number != 0 {
        let _ = print!(rt; ", of the table: {}", differing(table, &copy));
    }
    let _ = println!(rt);
}
