// Long histories on tables of 9, 10, 32 and 300 blocks, compared call by call with a plain list.
#![tactic(auto)]

ghost use Rattle.std.specs.Prelude.{◌<◌, ◌≤◌, length};

mod allowances;
mod asks;
mod batches;
mod kinds;
mod list;
mod messages;

use kinds::{Kind, Stage};
use list::List;
use random::next;

// What a history has come to: its random number, how many calls were made, refused and answered wrongly, and a digest of all answers.
#[derive(Clone, Copy)]
struct Run {
    seed: u64,
    calls: u64,
    refused: u64,
    wrong: u64,
    digest: u64,
}

// The same of the calls of many ranges, of those with an allowance and of messages, which are told apart.
#[derive(Clone, Copy)]
struct Played {
    run: Run,
    many: Run,
    within: Run,
    sent: Run,
}

// A change to be made of the spot with an identity.
#[derive(Clone, Copy, Debug, PartialEq, Eq)]
enum Change {
    Add(u64),
    Withdraw(u64),
}

fn begun(seed: u64) -> Run {
    Run {
        seed,
        calls: 0,
        refused: 0,
        wrong: 0,
        digest: 0,
    }
}

fn drawn(run: Run) -> Run {
    Run {
        seed: next(run.seed),
        ..run
    }
}

// Something was compared with the list.
fn compared(run: Run, right: bool) -> Run {
    Run {
        wrong: run.wrong.wrapping_add(u64::from(!right)),
        ..run
    }
}

// A number of an answer was compared; it joins the digest.
fn found(run: Run, x: u64, right: bool) -> Run {
    Run {
        wrong: run.wrong.wrapping_add(u64::from(!right)),
        digest: next(run.digest.wrapping_add(x)),
        ..run
    }
}

fn called(run: Run, refused: bool) -> Run {
    Run {
        calls: run.calls.wrapping_add(1),
        refused: run.refused.wrapping_add(u64::from(refused)),
        ..run
    }
}

// A call gave this answer; the list asks for a number and a detail.
fn told(run: Run, a: block::Answer, number: u32, detail: u64) -> Run {
    let counted = called(run, a.number != 0);
    let first = found(counted, u64::from(a.number), a.number == number);
    found(first, u64::from(a.detail), u64::from(a.detail) == detail)
}

// An added spot gets this track.
fn change_table(table: &mut [u8], scratch: &mut [u8], c: Change, track: u32) -> block::Answer {
    let done = match c {
        Change::Add(id) => {
            table::add(table, scratch, spot::place_of(id), spot::rank_in(id), track)
        }
        Change::Withdraw(id) => {
            table::withdraw(table, scratch, spot::place_of(id), spot::rank_in(id))
        }
    };
    block::told(done)
}

// The number that the list asks for.
fn change_list(list: &mut List, capacity: u64, c: Change, track: u32) -> u32 {
    match c {
        Change::Add(id) => list.add(capacity, list::Held { id, track }),
        Change::Withdraw(id) => list.withdraw(id),
    }
}

fn step(table: &mut [u8], scratch: &mut [u8], list: &mut List, stage: Stage, run: Run) -> Run {
    let (c, seed) = kinds::next_change(list, next(run.seed), stage);
    let track = next(seed) as u32;
    let a = change_table(table, scratch, c, track);
    let number = change_list(list, stage.capacity, c, track);
    told(Run { seed, ..run }, a, number, 0)
}

// A look after every 151 steps.
fn look_at_times(table: &[u8], list: &List, i: u64, run: Run) -> Run {
    if i % 151 == 150 {
        return asks::look(table, list, run);
    }
    run
}

// Many ranges in one call after every 75 steps.
fn ask_at_times(table: &[u8], scratch: &mut [u8], list: &List, i: u64, run: Run) -> Run {
    if i % 75 == 74 {
        return batches::ask(table, scratch, list, run);
    }
    run
}

// An allowance after every 50 steps.
fn allow_at_times(table: &[u8], scratch: &mut [u8], list: &List, i: u64, run: Run) -> Run {
    if i % 50 == 49 {
        return allowances::ask(table, scratch, list, run);
    }
    run
}

// A message after every 40 steps.
fn send_at_times(
    table: &mut [u8],
    scratch: &mut [u8],
    list: &mut List,
    stage: Stage,
    run: Run,
) -> Run {
    if stage.i % 40 == 39 {
        messages::keep(table, scratch);
        return messages::send(table, scratch, list, stage, run);
    }
    run
}

fn ask_all(table: &[u8], scratch: &mut [u8], list: &List, i: u64, played: Played) -> Played {
    let run = look_at_times(table, list, i, played.run);
    let many = ask_at_times(table, scratch, list, i, played.many);
    let within = allow_at_times(table, scratch, list, i, played.within);
    Played {
        run,
        many,
        within,
        ..played
    }
}

// A step, and a message if one is due.
fn step_and_send(
    table: &mut [u8],
    scratch: &mut [u8],
    list: &mut List,
    stage: Stage,
    played: Played,
) -> Played {
    let run = step(table, scratch, list, stage, played.run);
    let sent = send_at_times(table, scratch, list, stage, played.sent);
    Played {
        run,
        sent,
        ..played
    }
}

// Changes, and the questions that are due.
fn turn(
    table: &mut [u8],
    scratch: &mut [u8],
    list: &mut List,
    stage: Stage,
    played: Played,
) -> Played {
    let changed = step_and_send(table, scratch, list, stage, played);
    ask_all(table, scratch, list, stage.i, changed)
}

// All of the table, many ranges, and an allowance.
fn see_all(table: &[u8], scratch: &mut [u8], list: &List, played: Played) -> Played {
    let many = batches::ask(table, scratch, list, played.many);
    let within = allowances::ask(table, scratch, list, played.within);
    let run = asks::look_at_all(table, list, played.run);
    Played {
        run,
        many,
        within,
        ..played
    }
}

fn rebuild(table: &mut [u8], scratch: &mut [u8], played: Played) -> Played {
    let rebuilt = table::rebuild(table, scratch);
    let run = told(played.run, block::told(rebuilt), 0, 0);
    Played { run, ..played }
}

// All before and after a rebuild.
fn end(table: &mut [u8], scratch: &mut [u8], list: &List, played: Played) -> Played {
    let seen = see_all(table, scratch, list, played);
    let anew = rebuild(table, scratch, seen);
    see_all(table, scratch, list, anew)
}

fn format(table: &mut [u8], capacity: u64, kind: Kind) -> Played {
    let formatted = table::format(table);
    let run = told(begun(kind as u64), block::told(formatted), 0, 0);
    let others = begun(capacity.wrapping_add(kind as u64));
    Played {
        run,
        many: others,
        within: others,
        sent: others,
    }
}

// The n steps of a history on a table just formatted.
fn begin(
    table: &mut [u8],
    scratch: &mut [u8],
    list: &mut List,
    capacity: u64,
    kind: Kind,
    n: u64,
) -> Played
    requires { (0 < capacity) × (capacity ≤ 4784) × (n ≤ 65536) }
{
    let mut played = format(table, capacity, kind);
    for i in 0..n {
        let stage = Stage { capacity, kind, i };
        played = turn(table, scratch, list, stage, played);
    }
    played
}

// A history of n steps, and all that it leaves.
fn play(table: &mut [u8], scratch: &mut [u8], capacity: u64, kind: Kind, n: u64) -> Played
    requires { (0 < capacity) × (capacity ≤ 4784) × (n ≤ 65536) }
{
    let mut list = List::new();
    let played = begin(table, scratch, &mut list, capacity, kind, n);
    end(table, scratch, &list, played)
}

// A write that fails is passed over: what is compared with the wanted output shows it.
fn show_run(rt: &impl Print, run: Run) {
    let _ = println!(rt;
        ": calls {}, refused {}, wrong {}, digest {}",
        run.calls, run.refused, run.wrong, run.digest,
    );
}

fn show_played(rt: &impl Print, capacity: u64, kind: Kind, played: Played) {
    let _ = print!(rt; "capacity {capacity}, history {}", kind as u64);
    show_run(rt, played.run);
    let _ = print!(rt; "  many ranges");
    show_run(rt, played.many);
    let _ = print!(rt; "  allowances");
    show_run(rt, played.within);
    let _ = print!(rt; "  messages");
    show_run(rt, played.sent);
}

// Each kind of history on a table of so many bytes.
fn each_kind(rt: &impl Print, memory: &mut [u8], scratch: &mut [u8], bytes: usize, n: u64)
    requires { (4096 ≤ bytes) × (bytes ≤ 614400) × (bytes ≤ length memory.old) × (n ≤ 65536) }
{
    let capacity = (bytes / 2048 - 1) as u64 * 16;
    for kind in Kind::ALL {
        let played = play(&mut memory[0..bytes], scratch, capacity, kind, n);
        show_played(rt, capacity, kind, played);
    }
}

fn each_size(rt: &impl Print, memory: &mut [u8; 614400], scratch: &mut [u8; 614400]) {
    each_kind(rt, memory, scratch, 18432, 3000);
    each_kind(rt, memory, scratch, 20480, 3000);
    each_kind(rt, memory, scratch, 65536, 4000);
    each_kind(rt, memory, scratch, 614400, 9000);
}

fn main(rt: HostRuntime) {
    let mut memory = [165u8; 614400];
    let mut scratch = [165u8; 614400];
    each_size(&rt, &mut memory, &mut scratch);
}
