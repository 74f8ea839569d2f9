// The kinds of histories: what each does next.
ghost use Rattle.std.specs.Prelude.{◌<◌, ◌≤◌};

use crate::Change;
use crate::list::List;
use random::{below, next};

#[derive(Clone, Copy, Debug, PartialEq, Eq)]
pub enum Kind {
    Random,
    RisingPlaces,
    HighestWithdrawn,
    // Adds and withdrawals by turns, at capacity.
    Alternating,
    // Two of the four are the ends.
    FourRanks,
}

impl Kind {
    pub const ALL: [Kind; 5] = [
        Kind::Random,
        Kind::RisingPlaces,
        Kind::HighestWithdrawn,
        Kind::Alternating,
        Kind::FourRanks,
    ];
}

// Where a history stands: its kind, how many spots its table holds, and how many steps were made.
#[derive(Clone, Copy)]
pub struct Stage {
    pub capacity: u64,
    pub kind: Kind,
    pub i: u64,
    ghost some: { 0 < capacity },
    ghost most: { capacity ≤ 4784 },
    ghost early: { i < 65536 },
}

// A change, and the random number after it.
fn adding(seed: u64, id: u64) -> (Change, u64) {
    (Change::Add(id), next(seed))
}

fn withdrawing(seed: u64, id: u64) -> (Change, u64) {
    (Change::Withdraw(id), seed)
}

// A number from -h to h - 1, or one of the two ends.
pub fn around(seed: u64, h: u64) -> i32
    requires { (0 < h) × (h ≤ 32768) }
{
    let x = below(seed, 2 * h + 2);
    if x == 2 * h {
        return i32::MIN;
    }
    if x == 2 * h + 1 {
        return i32::MAX;
    }
    spot::unbias(2147483648 + x - h)
}

// A place at the limits: the two ends, those just outside, and the ends of 32 bits.
fn edge(x: u64) -> i32 {
    match x {
        0 => -1000000,
        1 => 1000000,
        2 => -1000001,
        3 => 1000001,
        4 => i32::MIN,
        _ => i32::MAX,
    }
}

// A place from -3000 to 2999, and of 32 one at the limits: a third of these are inside.
fn any_place(seed: u64) -> i32 {
    let x = below(seed, 6192);
    if x < 6000 {
        return spot::unbias(2147480648 + x);
    }
    edge(x % 6)
}

// An add of a random identity, with a rank around 0, from -h to h - 1, or at one of the ends.
fn add_any(seed: u64, h: u64) -> (Change, u64)
    requires { (0 < h) × (h ≤ 32768) }
{
    let s = next(seed);
    let t = next(s);
    adding(t, spot::key_of(any_place(s), around(t, h)))
}

// A withdrawal of a spot; of any identity where there is none.
fn withdraw_or_any(seed: u64, id: Option<u64>) -> (Change, u64) {
    match id {
        Some(id) => withdrawing(seed, id),
        None => {
            let s = next(seed);
            withdrawing(s, spot::key_of(any_place(s), 0))
        }
    }
}

// A spot that is there, from a random slot on.
fn any_held(list: &List, seed: u64, stage: Stage) -> Option<u64> {
    list.first_from(below(seed, stage.capacity) as usize)
}

fn withdraw_any(list: &List, seed: u64, stage: Stage) -> (Change, u64) {
    let s = next(seed);
    withdraw_or_any(s, any_held(list, s, stage))
}

// A spot that is there, with a new track; any where there is none.
fn add_present(list: &List, seed: u64, stage: Stage) -> (Change, u64) {
    let s = next(seed);
    match any_held(list, s, stage) {
        Some(id) => adding(s, id),
        None => add_any(s, 20),
    }
}

// Of eight changes `adds` are adds of a random identity, with ranks as there, the others withdrawals.
fn mixed(list: &List, seed: u64, stage: Stage, adds: u64, h: u64) -> (Change, u64)
    requires { (0 < h) × (h ≤ 32768) }
{
    if below(seed, 8) < adds {
        return add_any(seed, h);
    }
    withdraw_any(list, seed, stage)
}

fn rising_places(list: &List, seed: u64, stage: Stage) -> (Change, u64) {
    if stage.i % 3 < 2 {
        let place = spot::unbias(2147450880 + stage.i);
        return adding(seed, spot::key_of(place, around(seed, 500)));
    }
    withdraw_any(list, seed, stage)
}

fn highest_withdrawn(list: &List, seed: u64, i: u64) -> (Change, u64) {
    if i % 512 < 300 {
        return add_any(seed, 20);
    }
    withdraw_or_any(seed, list.highest())
}

fn alternating(list: &List, seed: u64, stage: Stage) -> (Change, u64) {
    if (stage.i < stage.capacity + stage.capacity / 4) | (2 <= stage.i % 4) {
        return add_any(seed, 20);
    }
    if stage.i % 4 == 0 {
        return withdraw_any(list, seed, stage);
    }
    add_present(list, seed, stage)
}

// The next change of a history.
pub fn next_change(list: &List, seed: u64, stage: Stage) -> (Change, u64) {
    match stage.kind {
        Kind::Random => mixed(list, seed, stage, 5, 20),
        Kind::RisingPlaces => rising_places(list, seed, stage),
        Kind::HighestWithdrawn => highest_withdrawn(list, seed, stage.i),
        Kind::Alternating => alternating(list, seed, stage),
        Kind::FourRanks => mixed(list, seed, stage, 6, 1),
    }
}
