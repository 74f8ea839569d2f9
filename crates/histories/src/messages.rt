// Messages of changes, compared with the list carried through them one by one. A message has up to 24 changes; its rows and its bytes lie in 320 bytes each.
ghost use Rattle.std.specs.Prelude.{◌<◌, ◌≤◌, length};

use crate::batches::later;
use crate::kinds::Stage;
use crate::list::List;
use crate::{Change, Run, change_list, compared, drawn, kinds, told};
use random::{below, next};

// A byte as it is lent.
const LENT: u8 = 165;

// The first byte of a row that adds, and of one that withdraws.
const ADDITION: u8 = 1;

const WITHDRAWAL: u8 = 2;

// The harm that is done to a message: a byte of the first seven is another, the last one is cut off, or there is one more.
#[derive(Clone, Copy, Debug, PartialEq, Eq)]
enum Harm {
    None,
    Flips(u8),
    CutsOff,
    Lengthens,
}

// A message of n changes: its harm, how many bytes of it are handed in, and how many the work area has.
#[derive(Clone, Copy)]
struct Letter {
    n: usize,
    harm: Harm,
    bytes: usize,
    work: usize,
}

// The identity of one of the first j rows again, and the random number after the change.
fn again(rows: &[u8; 320], seed: u64, j: usize) -> (Change, u64)
    requires { (0 < j) × (j ≤ 24) }
{
    let s = next(seed);
    let row = below(seed, j as u64) as usize;
    let id = spot::raw_key(rows, 13 * row + 1);
    if below(s, 2) == 0 {
        return (Change::Add(id), s);
    }
    (Change::Withdraw(id), s)
}

// Change j of a message, as the history would have it, or to an identity that the message has named.
fn next_change(list: &List, rows: &[u8; 320], seed: u64, stage: Stage, j: usize) -> (Change, u64)
    requires { j ≤ 24 }
{
    if 0 < j {
        if below(seed, 4) == 0 {
            return again(rows, next(seed), j);
        }
    }
    let later = Stage {
        capacity: stage.capacity,
        kind: stage.kind,
        i: (stage.i + j as u64) % 65536,
    };
    kinds::next_change(list, next(seed), later)
}

fn put(rows: &mut [u8; 320], j: usize, c: Change, track: u64)
    requires { j < 24 }
{
    let (kind, id, field) = match c {
        Change::Add(id) => (ADDITION, id, track),
        Change::Withdraw(id) => (WITHDRAWAL, id, 0),
    };
    rows[13 * j] = kind;
    spot::write_key(rows, 13 * j + 1, id);
    octets::write32(rows, 13 * j + 9, field);
}

// The rows of n changes; the random number after them.
fn draw_rows(list: &List, rows: &mut [u8; 320], seed: u64, stage: Stage, n: usize) -> u64
    requires { n ≤ 24 }
{
    let mut s = seed;
    for j in 0..n {
        let (c, seed) = next_change(list, rows, s, stage, j);
        s = next(seed);
        put(rows, j, c, s);
    }
    s
}

fn size_of(kind: u8) -> usize
    ensures { result ≤ 13 }
{
    if kind == ADDITION {
        return 13;
    }
    9
}

fn spell_head(m: &mut [u8], bytes: usize, n: usize)
    requires { 7 ≤ length m.old }
{
    octets::write32(m, 0, bytes as u64);
    octets::write8(m, 4, 1);
    octets::write16(m, 5, n);
}

// The message of the rows, spelled as the request has it; says how many bytes it has.
fn spell(rows: &[u8], n: usize, m: &mut [u8]) -> usize
    requires { (n ≤ 24) × (320 ≤ length rows.now) × (320 ≤ length m.old) }
    ensures { (0 < result) × (result < 320) }
{
    let mut at = 7;
    for i in 0..n {
        let from = 13 * i;
        let size = size_of(rows[from]);
        m[at..at + size].copy_from_slice(&rows[from..from + size]);
        at += size;
    }
    spell_head(m, at, n);
    at
}

fn spell_rows(rows: &[u8; 320], n: usize, m: &mut [u8; 320]) -> usize
    requires { n ≤ 24 }
    ensures { (0 < result) × (result < 320) }
{
    spell(rows, n, m)
}

// Of two refusals 9 comes first, then the earlier one.
fn graver(a: block::Answer, number: u32, i: usize) -> block::Answer
    requires { i < 24 }
{
    if number <= a.number {
        return a;
    }
    block::Answer {
        number,
        detail: i as u32,
    }
}

// Carries the list through the rows; says which one it turns down.
fn carry(list: &mut List, capacity: u64, rows: &[u8; 320], n: usize) -> block::Answer
    requires { n ≤ 24 }
{
    let mut a = block::Answer {
        number: 0,
        detail: 0,
    };
    for i in 0..n {
        let id = spot::raw_key(rows, 13 * i + 1);
        let track = octets::read32(rows, 13 * i + 9) as u32;
        let c = if rows[13 * i] == ADDITION {
            Change::Add(id)
        } else {
            Change::Withdraw(id)
        };
        let number = change_list(list, capacity, c, track);
        a = graver(a, number, i);
    }
    a
}

// A work area as long as the table, or longer; once in sixteen a byte shorter.
fn draw_work(seed: u64, bytes: usize, all: usize) -> usize {
    match below(seed, 16) {
        8.. => all,
        _ if bytes == 0 => all,
        0 => bytes - 1,
        _ => bytes,
    }
}

// Once in eight some harm.
fn draw_harm(seed: u64) -> Harm {
    match below(seed, 72) {
        at @ 0..=6 => Harm::Flips(at as u8),
        7 => Harm::CutsOff,
        8 => Harm::Lengthens,
        _ => Harm::None,
    }
}

fn do_harm(m: &mut [u8; 320], harm: Harm) {
    if let Harm::Flips(at) = harm {
        m[at as usize] ^= 4;
    }
}

fn handed_in(end: usize, harm: Harm) -> usize
    requires { (0 < end) × (end < 320) }
{
    match harm {
        Harm::CutsOff => end - 1,
        Harm::Lengthens => end + 1,
        Harm::None | Harm::Flips(_) => end,
    }
}

// This number where it is so, else what is said anyway.
fn first(so: bool, number: u32, a: block::Answer) -> block::Answer {
    if so {
        return block::Answer { number, detail: 0 };
    }
    a
}

fn told_as(run: Run, a: block::Answer, asked: block::Answer) -> Run {
    told(run, a, asked.number, asked.detail as u64)
}

fn call(writes: bool, from: &[u8], bytes: usize, to: &mut [u8]) -> block::Answer {
    let n = bytes.min(from.len());
    if writes {
        return block::told(message::write_message(&from[0..n], to));
    }
    block::told(message::read_message(&from[0..n], to))
}

// Writes or reads a message. What comes is what is right, or after a refusal what was lent.
fn recode(
    run: Run,
    writes: bool,
    from: &[u8; 320],
    bytes: usize,
    asked: block::Answer,
    right: &[u8; 320],
) -> Run {
    let lent = [LENT; 320];
    let mut left = [LENT; 320];
    let a = call(writes, from, bytes, &mut left);
    let r = told_as(run, a, asked);
    if asked.number == 0 {
        return compared(r, left == *right);
    }
    compared(r, left == lent)
}

// Writes the message, does it harm, and reads it. Without a table 4 is not said.
fn exchange(run: Run, rows: &[u8; 320], m: &mut [u8; 320], l: Letter, a: block::Answer) -> Run
    requires { l.n ≤ 24 }
{
    let asked = first(a.number != 9, 0, a);
    let written = recode(run, true, rows, 13 * l.n, asked, m);
    do_harm(m, l.harm);
    let second = first(l.harm != Harm::None, 8, asked);
    recode(written, false, m, l.bytes, second, rows)
}

// Copies bytes, to compare them later.
pub fn keep(s: &[u8], kept: &mut [u8]) {
    let n = s.len();
    if n <= kept.len() {
        kept[..n].copy_from_slice(s);
    }
}

fn same_as(s: &[u8], kept: &[u8]) -> bool {
    let front = &kept[..s.len().min(kept.len())];
    s == front
}

fn call_apply(
    table: &mut [u8],
    scratch: &mut [u8],
    work: usize,
    m: &[u8],
    bytes: usize,
) -> block::Answer {
    let w = work.min(scratch.len());
    let n = bytes.min(m.len());
    block::told(apply::apply(table, &mut scratch[0..w], &m[0..n]))
}

// Whether a refusal has left the work area as it was, and the table as the copy there; else whether the work area has zeros, as many as the table has bytes.
fn left_right(table: &[u8], scratch: &[u8], work: &mut [u8], number: u32) -> bool {
    if number == 0 {
        let n = table.len().min(work.len());
        work[..n].fill(0);
        return same_as(scratch, work);
    }
    same_as(scratch, work) & same_as(table, work)
}

fn apply_kept(
    table: &mut [u8],
    scratch: &mut [u8],
    work: &mut [u8],
    m: &[u8],
    l: Letter,
    asked: block::Answer,
    run: Run,
) -> Run {
    let a = call_apply(table, scratch, l.work, m, l.bytes);
    let right = left_right(table, scratch, work, asked.number);
    compared(told_as(run, a, asked), right)
}

// Applies a message.
fn apply_it(
    table: &mut [u8],
    scratch: &mut [u8],
    m: &[u8; 320],
    l: Letter,
    asked: block::Answer,
    run: Run,
) -> Run {
    let mut work = [0u8; 614400];
    keep(scratch, &mut work);
    apply_kept(table, scratch, &mut work, m, l, asked, run)
}

// The list follows where all is accepted.
fn follow(list: &mut List, after: &List, number: u32) {
    if number == 0 {
        *list = *after;
    }
}

// The calls for a message, and what the list says of it.
fn go_through(
    table: &mut [u8],
    scratch: &mut [u8],
    list: &mut List,
    capacity: u64,
    rows: &[u8; 320],
    m: &mut [u8; 320],
    l: Letter,
    run: Run,
) -> Run
    requires { l.n ≤ 24 }
{
    let mut after = *list;
    let a = carry(&mut after, capacity, rows, l.n);
    let asked = first(l.work < table.len(), 2, first(l.harm != Harm::None, 8, a));
    let coded = exchange(run, rows, m, l, a);
    let applied = apply_it(table, scratch, m, l, asked, coded);
    follow(list, &after, asked.number);
    told(
        applied,
        block::answer_of(table::count(table)),
        0,
        list.live(),
    )
}

// A message of changes that the history might have made, on a table of which there is a copy in the work area.
pub fn send(table: &mut [u8], scratch: &mut [u8], list: &mut List, stage: Stage, run: Run) -> Run {
    let mut rows = [LENT; 320];
    let mut m = [LENT; 320];
    let r = drawn(run);
    let n = below(r.seed, 25) as usize;
    let s = draw_rows(list, &mut rows, later(r.seed), stage, n);
    let end = spell_rows(&rows, n, &mut m);
    let harm = draw_harm(next(s));
    let l = Letter {
        n,
        harm,
        bytes: handed_in(end, harm),
        work: draw_work(later(s), table.len(), scratch.len()),
    };
    go_through(
        table,
        scratch,
        list,
        stage.capacity,
        &rows,
        &mut m,
        l,
        Run {
            seed: later(later(s)),
            ..run
        },
    )
}
