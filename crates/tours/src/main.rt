// Tours pressed of random sets, and their reports compared with a plain scan of the spots.
#![tactic(auto)]

ghost use Rattle.std.specs.Prelude.{◌<◌, ◌≤◌};

mod asks;
mod list;

use list::Kind;
use random::{below, next};

// The sets of a kind, and the reports of each.
const SETS: u64 = 16;

const REPORTS: u64 = 20;

// What a kind has come to: its random number, how many reports were made, calls refused and answered wrongly, and a digest of all answers.
#[derive(Clone, Copy)]
struct Run {
    seed: u64,
    reports: u64,
    refused: u64,
    wrong: u64,
    digest: u64,
}

// A call gave this answer, which joins the digest; the list asks for a number and a detail, and for what else is right.
fn told(run: Run, a: block::Answer, number: u32, detail: u64, right: bool) -> Run {
    let all = right & (a.number == number) & (a.detail as u64 == detail);
    let first = next(run.digest.wrapping_add(u64::from(a.number)));
    Run {
        refused: run.refused.wrapping_add(u64::from(a.number != 0)),
        wrong: run.wrong.wrapping_add(u64::from(!all)),
        digest: next(first.wrapping_add(u64::from(a.detail))),
        ..run
    }
}

// How many spots a set has: all, whole blocks, one more, or any number.
fn size(seed: u64) -> usize
    ensures { result ≤ 512 }
{
    let n = below(next(seed), 513) as usize;
    match below(seed, 5) {
        0 => 512,
        1 => n / 64 * 64,
        2 => n / 65 * 64 + 1,
        _ => n,
    }
}

// The bytes of a tour of n spots: two blocks for each 64, and the catalogue alone for none.
fn tour_bytes(n: usize) -> usize
    requires { n ≤ 512 }
    ensures { result ≤ 32768 }
{
    if n == 0 {
        return 2048;
    }
    (n + 63) / 64 * 4096
}

// Presses the spots. A tour of so many is there then, even if the call is to be refused.
fn press(list: &[u8; 6144], n: usize, tour: &mut [u8; 32768], number: u32, run: Run) -> Run
    requires { n ≤ 512 }
{
    let all: &[u8] = list;
    let pressed = press::press(&all[0..12 * n], tour);
    let right = octets::read32(tour, 0) == tour_bytes(n) as u64;
    told(run, block::told(pressed), number, 0, right)
}

// Presses the spots, and once more with an identity that stands twice: this leaves the tour as it is.
fn press_both(list: &[u8; 6144], n: usize, tour: &mut [u8; 32768], run: Run) -> Run
    requires { n ≤ 512 }
{
    let first = press(list, n, tour, 0, run);
    if n < 2 {
        return first;
    }
    let mut twice = *list;
    list::repeat(&mut twice, below(run.seed, n as u64 - 1) as usize);
    press(&twice, n, tour, 7, first)
}

// A set of a kind, pressed, and its reports.
fn play(kind: Kind, run: Run) -> Run {
    let n = size(run.seed);
    let mut list = [0u8; 6144];
    let seed = list::draw(&mut list, n, kind, next(run.seed));
    let mut tour = [165u8; 32768];
    let pressed = press_both(&list, n, &mut tour, Run { seed, ..run });
    asks::ask_all(&tour, tour_bytes(n), &list, n, pressed)
}

fn show_run(rt: &impl Print, kind: Kind, run: Run) {
    let _ = println!(rt;
        "kind {}: sets {SETS}, reports {}, refused {}, wrong {}, digest {}",
        kind as u64, run.reports, run.refused, run.wrong, run.digest,
    );
}

fn play_all(rt: &impl Print, kind: Kind) {
    let mut run = Run {
        seed: kind as u64,
        reports: 0,
        refused: 0,
        wrong: 0,
        digest: 0,
    };
    for _ in 0..SETS {
        run = play(kind, run);
    }
    show_run(rt, kind, run);
}

fn main(rt: HostRuntime) {
    for kind in Kind::ALL {
        play_all(&rt, kind);
    }
}
