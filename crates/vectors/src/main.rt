// Runs the rows of the file `stdin`: the scope paper's cases, and damaged tables. A row is a letter or a sign, its numbers as a line of the bench program has them, a bar
// and a label, as in `A+ 0 5 1|  add`. Behind the label an answer is printed as its number and its detail, and below it its spots; a row with no label prints nothing. A
// line with no bar is a remark. `ops` has the letters and signs.
#![tactic(auto)]

ghost use Rattle.std.specs.Prelude.{◌+◌, ◌<◌, ◌≤◌, length};
ghost use Rattle.table.specs.Queries.{GivenInside};

mod allowances;
mod batches;
mod marks;
mod messages;
mod ops;
mod shown;
mod tours;

use allowances::Allowed;
use marks::Marks;
use ops::{Call, Hung, Lent, Op, Query};
use shown::{show, show_number};
use std::io::Read;

// What a row asks, whether it has no label, and its numbers: x, y and z, or n where the third is unsigned.
#[derive(Clone, Copy)]
struct Row {
    op: Op,
    quiet: bool,
    x: i32,
    y: i32,
    z: i32,
    n: u32,
}

fn row_of(op: Op, quiet: bool, c: Option<text::Command>) -> Row {
    let (x, y, z, n) = match c {
        Some(text::Command::Add(x, y, n)) => (x, y, 0, n),
        Some(text::Command::Withdraw(x, y)) => (x, y, 0, 0),
        Some(text::Command::Report(x, y, z)) => (x, y, z, 0),
        Some(text::Command::Top(x, y, n)) => (x, y, 0, n),
        None => (0, 0, 0, 0),
    };
    Row {
        op,
        quiet,
        x,
        y,
        z,
        n,
    }
}

// A number that is not negative.
fn plain(x: i32) -> usize
    ensures { result < 2147483648 }
{
    (spot::bias(x) % 2147483648) as usize
}

fn low_byte(x: i32) -> u8 {
    (plain(x) % 256) as u8
}

fn call(table: &mut [u8], scratch: &mut [u8], call: Call, r: Row) -> block::Answer {
    match call {
        Call::Add => block::told(table::add(table, scratch, r.x, r.y, r.n)),
        Call::Withdraw => block::told(table::withdraw(table, scratch, r.x, r.y)),
        Call::Rebuild => block::told(table::rebuild(table, scratch)),
        Call::Format => block::told(table::format(table)),
        Call::Check => block::yes_or_no(table::check(table)),
        Call::Count => block::answer_of(table::count(table)),
    }
}

fn make_call(rt: &impl Print, table: &mut [u8], scratch: &mut [u8], made: Call, r: Row) {
    let a = call(table, scratch, made, r);
    if !r.quiet {
        show(rt, a);
    }
}

fn asked(table: &[u8], query: Query, r: Row, output: &mut [u8], map: &mut [u8]) -> block::Answer
    ensures { GivenInside result output.new }
{
    match query {
        Query::Report => block::answer_of(table::report(table, r.x, r.y, r.z, output, map)),
        Query::Top => block::answer_of(table::top(table, r.x, r.y, r.n, output, map)),
    }
}

// The bytes of room for an answer.
fn room(lent: Lent) -> usize
    ensures { result ≤ 4096 }
{
    match lent {
        Lent::None => 1,
        Lent::One => 12,
        Lent::Two | Lent::ShortMap | Lent::LongMap => 24,
        Lent::Ten => 120,
        Lent::Many => 4096,
    }
}

fn map_length(lent: Lent) -> usize
    ensures { result ≤ 513 }
{
    match lent {
        Lent::ShortMap => 511,
        Lent::LongMap => 513,
        _ => 512,
    }
}

fn ask_within(
    table: &[u8],
    query: Query,
    lent: Lent,
    r: Row,
    output: &mut [u8],
    map: &mut [u8],
) -> block::Answer
    requires { (4096 ≤ length output.old) × (513 ≤ length map.old) }
    ensures { GivenInside result output.new }
{
    let most = room(lent);
    let long = map_length(lent);
    asked(table, query, r, &mut output[0..most], &mut map[0..long])
}

// Prints the spots, where there are few.
fn show_found(rt: &impl Print, a: block::Answer, output: &[u8; 4096], lent: Lent)
    requires { GivenInside a output.now }
{
    if lent != Lent::Many {
        shown::show_spots(rt, a, output);
    }
}

fn ask(rt: &impl Print, table: &[u8], marks: &mut Marks, query: Query, lent: Lent, r: Row) {
    let mut output = [0u8; 4096];
    let mut map = [0u8; 513];
    let a = ask_within(table, query, lent, r, &mut output, &mut map);
    show(rt, a);
    show_found(rt, a, &output, lent);
    marks.set(&map);
}

// The place of spot i that is hung: from x on, or below 1,024.
fn place_at(hung: Hung, r: Row, i: u64) -> i32
    requires { i < 2147483648 }
{
    match hung {
        Hung::SideBySide => spot::unbias((spot::bias(r.x) + i) % 4294967296),
        Hung::Scattered => spot::unbias(2147483648 + i * 77 % 1024),
    }
}

// Its rank: z, or below 64.
fn rank_at(hung: Hung, r: Row, i: u64) -> i32
    requires { i < 2147483648 }
{
    match hung {
        Hung::SideBySide => r.z,
        Hung::Scattered => spot::unbias(2147483648 + i * 31 % 64),
    }
}

// Adds n spots and returns the sum of the answers' numbers.
fn hang_all(table: &mut [u8], scratch: &mut [u8], hung: Hung, r: Row, n: u64) -> usize
    requires { n < 2147483648 }
{
    let mut refused = 0usize;
    for i in 0..n {
        let place = place_at(hung, r, i);
        let rank = rank_at(hung, r, i);
        let a = block::told(table::add(table, scratch, place, rank, i as u32));
        refused = refused.wrapping_add(a.number as usize);
    }
    refused
}

// Hangs y spots.
fn hang(rt: &impl Print, table: &mut [u8], scratch: &mut [u8], hung: Hung, r: Row) {
    let refused = hang_all(table, scratch, hung, r, plain(r.y) as u64);
    if !r.quiet {
        show_number(rt, refused);
    }
}

fn print_byte(rt: &impl Print, table: &[u8], at: usize) {
    if let Some(b) = table.get(at) {
        let _ = print!(rt; "{b}");
    }
}

// What is kept from row to row: the table's length, the ranges that are handed in, what is allowed, and the length of the list or message in the scratch bytes.
#[derive(Clone, Copy)]
struct State {
    bytes: usize,
    batch: ranges::Batch,
    allowed: Allowed,
    listed: usize,
}

// What a row does with the table: SetBytes gives y bytes from x on the value z, and Veil the blocks that are not marked the value x; Marked says how many blocks the last call
// marked, and LeftOut how many of those kept it left out; PrintByte prints the byte at x, and Sum the sum of those from x on.
fn carry_out(
    rt: &impl Print,
    table: &mut [u8],
    scratch: &mut [u8],
    marks: &mut Marks,
    s: State,
    r: Row,
) {
    match r.op {
        Op::Call(made) => make_call(rt, table, scratch, made, r),
        Op::Ask(query, lent) => ask(rt, table, marks, query, lent, r),
        Op::Hang(hung) => hang(rt, table, scratch, hung, r),
        Op::SetBytes => marks::set_bytes(table, plain(r.x), plain(r.y), low_byte(r.z)),
        Op::Veil => marks::veil(table, marks, low_byte(r.x)),
        Op::Marked => show_number(rt, marks.marked()),
        Op::KeepMarks => marks.keep(),
        Op::LeftOut => show_number(rt, marks.left_out()),
        Op::PrintByte => print_byte(rt, table, plain(r.x)),
        Op::EndLine => {
            let _ = println!(rt);
        }
        Op::ReportRanges => batches::ask(rt, table, marks, s.batch, r),
        Op::TopWithin => allowances::ask(rt, table, marks, s.allowed, r),
        Op::Press => tours::press(rt, table, scratch, s.listed, r),
        Op::Sum => tours::show_sum(rt, table, plain(r.x)),
        Op::ReportTour => tours::ask(rt, table, marks, s.allowed, r),
        Op::Apply => messages::apply(rt, table, scratch, s.listed, r),
        _ => {}
    }
}

// The bytes of the list or the letter after a row: PutSpots leaves the first x bytes and puts y spots behind them, and PrintLetter prints the first x.
fn listed_after(rt: &impl Print, scratch: &mut [u8], listed: usize, r: Row) -> usize {
    match r.op {
        Op::PutSpots => { tours::put_spots(scratch, plain(r.x).min(listed), plain(r.y) as u64) }
        Op::PutSpot => tours::put(scratch, listed, r.x, r.y, r.n),
        Op::PutAddition => { messages::put(scratch, listed, messages::ADDITION, r.x, r.y, r.n) }
        Op::PutWithdrawal => { messages::put(scratch, listed, messages::WITHDRAWAL, r.x, r.y, r.n) }
        Op::PutWithdrawals => messages::put_withdrawals(scratch, listed, plain(r.x) as u64),
        Op::SetLetter => messages::set(scratch, listed, r),
        Op::Recode(recoded) => messages::recode(rt, scratch, listed, recoded, r),
        Op::PrintLetter => {
            messages::show_bytes(rt, scratch, plain(r.x).min(listed));
            listed
        }
        _ => listed,
    }
}

// What is kept after a row: TableLength makes the table x bytes long, at most 65,536; BeginRanges hands in x ranges over place 0, from rank 0 on, and none else, and AddRange one
// more.
fn state_after(rt: &impl Print, s: State, scratch: &mut [u8], r: Row) -> State
    requires { s.bytes ≤ 65536 }
    ensures { result.bytes ≤ 65536 }
{
    match r.op {
        Op::TableLength => State {
            bytes: plain(r.x) % 65537,
            ..s
        },
        Op::BeginRanges => State {
            batch: batches::begun(plain(r.x)),
            ..s
        },
        Op::AddRange => State {
            batch: batches::with_row(s.batch, r),
            ..s
        },
        Op::Allow => State {
            allowed: Allowed::from(r),
            ..s
        },
        _ => State {
            listed: listed_after(rt, scratch, s.listed, r),
            ..s
        },
    }
}

// A line of the file; what is kept after it.
fn obey(
    rt: &impl Print,
    line: &[u8],
    memory: &mut [u8],
    scratch: &mut [u8],
    marks: &mut Marks,
    s: State,
) -> State
    requires { (65536 ≤ length memory.old) × (s.bytes ≤ 65536) }
    ensures { result.bytes ≤ 65536 }
{
    let bar = find(line, 0, b'|');
    if bar == 0 {
        return s;
    }
    if bar == line.len() {
        return s;
    }
    let label = &line[bar + 1..];
    let _ = rt.write_all(label);
    let Ok(op) = Op::try_from(line[0]) else {
        return s;
    };
    let r = row_of(op, label.is_empty(), text::parse(&line[1..bar]));
    let after = state_after(rt, s, scratch, r);
    let bytes = after.bytes;
    carry_out(rt, &mut memory[0..bytes], scratch, marks, after, r);
    after
}

// Where the next such byte stands, or the end.
fn find(s: &[u8], from: usize, b: u8) -> usize
    requires { from ≤ length s.now }
    ensures { (from ≤ result) × (result ≤ length s.now) }
{
    for i in from..s.len() {
        if s[i] == b {
            return i;
        }
    }
    s.len()
}

fn empty_state() -> State
    ensures { result.bytes ≤ 65536 }
{
    State {
        bytes: 0,
        batch: batches::begun(0),
        allowed: Allowed::default(),
        listed: 0,
    }
}

fn obey_all(
    rt: &impl Print,
    script: &[u8],
    memory: &mut [u8],
    scratch: &mut [u8],
    marks: &mut Marks,
)
    requires { 65536 ≤ length memory.old }
{
    let mut s = empty_state();
    let mut at = 0;
    // Stays: a line begins behind the end of the last, which no range counts.
    while at < script.len() {
        let end = find(script, at, b'\n');
        s = obey(rt, &script[at..end], memory, scratch, marks, s);
        at = end + 1;
    }
}

// The bytes of the standard input, up to so many. A read that fails ends them.
fn read_all(rt: &impl Input, script: &mut [u8; 65536]) -> usize
    ensures { result ≤ 65536 }
{
    let mut end = 0;
    for _ in 0..65536 {
        let n = rt.reader().read(&mut script[end..]).unwrap_or(0);
        if n == 0 {
            break;
        }
        end += n;
    }
    end
}

fn main(rt: HostRuntime) {
    let mut script = [0u8; 65536];
    let end = read_all(&rt, &mut script);
    let mut memory = [165u8; 65536];
    let mut scratch = [165u8; 65536];
    obey_all(
        &rt,
        &script[..end],
        &mut memory,
        &mut scratch,
        &mut Marks::new(),
    );
}
