// A lent slice of range structs, taken apart by one thin function per range, and held by value from then on.
#![tactic(auto)]

ghost use Rattle.std.specs.Prelude.{◌≡◌, ◌+◌, ◌*◌, ◌≤◌, ◌<◌, length, replicate};
ghost use Rattle.ranges.specs.Ranges.{range_at, no_range, batch_of, range_in, ranges_in};

// The most ranges of a batch.
pub const MOST_RANGES: usize = 64;

// Two places and a lowest rank.
#[repr(C)]
#[derive(Clone, Copy)]
pub struct Range {
    pub x1: i32,
    pub x2: i32,
    pub y: i32,
}

// How many ranges were handed in, and the first 64 of them.
// Stays: an array with a number beside it, since nothing here lies on a heap; the number may be above 64.
#[derive(Clone, Copy)]
pub struct Batch {
    pub n: usize,
    pub all: [Range; MOST_RANGES],
}

// One range of the slice.
pub fn range_at(ranges: &[Range], i: usize) -> Range
    requires { i < length ranges.now }
    ensures { result ≡ range_at ranges.now i }
{
    ranges[i]
}

// None yet.
fn no_ranges() -> [Range; MOST_RANGES]
    ensures { result ≡ replicate 64 no_range }
{
    let none = Range { x1: 0, x2: 0, y: 0 };
    [none; MOST_RANGES]
}

// The ranges of the slice, by value.
pub fn load(ranges: &[Range]) -> Batch
    ensures { result ≡ batch_of ranges.now }
{
    let n = ranges.len();
    let mut all = no_ranges();
    for i in 0..n.min(MOST_RANGES) {
        all[i] = range_at(ranges, i);
    }
    Batch { n, all }
}

// A range in bytes: three numbers of four bytes, big-endian and in two's complement.
fn read_range(bytes: &[u8], at: usize) -> Range
    requires { at + 12 ≤ length bytes.now }
    ensures { result ≡ range_in bytes.now at }
{
    Range {
        x1: spot::read_i32(bytes, at),
        x2: spot::read_i32(bytes, at + 4),
        y: spot::read_i32(bytes, at + 8),
    }
}

// The n ranges that stand in bytes from one on, by value.
pub fn read_batch(bytes: &[u8], at: usize, n: usize) -> Batch
    requires { at + 12 * n ≤ length bytes.now }
    ensures { result ≡ batch_of (ranges_in bytes.now n at) }
{
    let mut all = no_ranges();
    for i in 0..n.min(MOST_RANGES) {
        all[i] = read_range(bytes, at + 12 * i);
    }
    Batch { n, all }
}
