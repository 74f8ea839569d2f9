// The plain list: the spots of a set as bytes, in place order, and what a scan of them finds.
// Stays: a list lies in an array of the most spots, with their number beside, since nothing here takes memory from a heap.
ghost use Rattle.std.specs.Prelude.{◌<◌, ◌≤◌};

use random::{below, next};

// The kinds of sets, by their ranks.
#[derive(Clone, Copy, Debug, PartialEq, Eq)]
pub enum Kind {
    FourAboutZero,
    Any,
    One,
    TwoEnds,
    Rising,
    Falling,
}

impl Kind {
    pub const ALL: [Kind; 6] = [
        Kind::FourAboutZero,
        Kind::Any,
        Kind::One,
        Kind::TwoEnds,
        Kind::Rising,
        Kind::Falling,
    ];
}

// How far a spot lies behind the one before it. Places stay inside the limits.
fn gap(kind: Kind, x: u64) -> u64
    ensures { result < 3901 }
{
    match kind {
        Kind::FourAboutZero => x % 4,
        Kind::Any => x % 21,
        Kind::One => x % 3901,
        Kind::TwoEnds | Kind::Rising | Kind::Falling => x % 2,
    }
}

// The rank of spot i, moved up by 2^31.
fn rank(kind: Kind, i: u64, x: u64) -> u64
    requires { (i < 512) × (x < 65536) }
    ensures { result < 4294967296 }
{
    match kind {
        Kind::FourAboutZero => 2147483646 + x % 4,
        Kind::Any => x * 65537,
        Kind::One => 2147483648,
        Kind::TwoEnds => x % 2 * 4294967295,
        Kind::Rising => 2147483648 + 8 * i + x % 64,
        Kind::Falling => 2147483648 - 8 * i + x % 64,
    }
}

// The key of the next spot; one place further on where its rank at the same place would not rise.
fn key_after(last: u64, far: u64, rank: u64) -> u64
    requires { (far < 3901) × (rank < 4294967296) }
{
    let place = last / 4294967296 + far;
    if (far == 0) & (rank <= last % 4294967296) {
        return (place + 1) % 4294967296 * 4294967296 + rank;
    }
    place % 4294967296 * 4294967296 + rank
}

// Lays out n spots from place -1,000,000 on; the random number after them.
pub fn draw(list: &mut [u8; 6144], n: usize, kind: Kind, seed: u64) -> u64
    requires { n ≤ 512 }
{
    let mut s = seed;
    let mut key = spot::START_KEY;
    for i in 0..n {
        let t = next(s);
        s = next(t);
        let far = gap(kind, below(t, 65536));
        key = key_after(key, far, rank(kind, i as u64, below(s, 65536)));
        spot::write_spot(
            list,
            12 * i,
            spot::Spot {
                key,
                track: s as u32,
            },
        );
    }
    s
}

// Spot i + 1 gets the identity of spot i.
pub fn repeat(list: &mut [u8; 6144], i: usize)
    requires { i < 511 }
{
    let key = spot::raw_key(list, 12 * i);
    spot::write_key(list, 12 * i + 12, key);
}

fn between(place: i32, x1: i32, x2: i32) -> bool {
    if x2 < x1 {
        return (x1 <= place) | (place <= x2);
    }
    (x1 <= place) & (place <= x2)
}

// Whether a Report gives this spot, before the door or past it.
fn wanted(q: spot::Query, key: u64, past: bool) -> bool {
    let place = spot::place_of(key);
    between(place, q.x1, q.x2) & (q.y <= spot::rank_in(key)) & (past == (place < q.x1))
}

// Puts the spots that a Report gives before the door or past it behind the first `count`; how many there are then.
pub fn scan(
    list: &[u8; 6144],
    n: usize,
    q: spot::Query,
    past: bool,
    output: &mut [u8; 6144],
    count: usize,
) -> usize
    requires { (n ≤ 512) × (count ≤ 512) }
    ensures { result ≤ 512 }
{
    let mut k = count;
    for i in 0..n {
        let key = spot::raw_key(list, 12 * i);
        if wanted(q, key, past) & (k < 512) {
            let track = octets::read32(list, 12 * i + 8) as u32;
            spot::write_spot(output, 12 * k, spot::Spot { key, track });
            k += 1;
        }
    }
    k
}
