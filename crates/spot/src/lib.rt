// Spots, their keys, and queries over them. The only crate that meets signed numbers.
#![tactic(auto)]

ghost use Rattle.std.specs.Prelude.{◌≡◌, ◌+◌, ◌<◌, ◌≤◌, true, length, ◌-ℤ◌};
ghost use Rattle.std.specs.Int.{w32};
ghost use Rattle.std.proofs.Common.{to_z};
ghost use Rattle.octets.specs.Bytes.{be};
ghost use Rattle.spot.specs.Keys.{biased, unbiased, turned, key, place_of, rank_in, rank_key, turn_low, top_key, key_of_top, in_limits, limited};
ghost use Rattle.spot.specs.Spots.{key_at, spot_at, put_key, put_spot};
ghost use Rattle.spot.specs.Query.{query, top_query, all_places, everything, from_of, last_of, least_of, lowest_of, highest_of, is_ring, ends, placed, wants_key, wanted};

// The bytes of a spot and of a key on the card.
pub const SPOT_BYTES: usize = 12;

pub const KEY_BYTES: usize = 8;

// The first key with a place inside the limits, and the first key behind them: places are -1,000,000 to 1,000,000.
pub const START_KEY: u64 = 9219077069558775808;

pub const END_KEY: u64 = 9227667008445743104;

// A spot: its key, which stands for place and rank together, and its track number.
#[derive(Clone, Copy)]
pub struct Spot {
    pub key: u64,
    pub track: u32,
}

// The spots asked for: those with a place from x1 to x2 and a rank of at least y. If x1 is greater than x2, the places run on past the door: from x1 up, and then
// up to x2.
#[derive(Clone, Copy)]
pub struct Query {
    pub x1: i32,
    pub x2: i32,
    pub y: i32,
}

// A signed number moved up by 2^31, so that the order stays.
pub fn bias(x: i32) -> u64
    ensures { (result ≡ biased x) × (result < 4294967296) }
{
    ((x as i64) + 2147483648) as u64
}

// And back.
pub fn unbias(u: u64) -> i32
    requires { u < 4294967296 }
    ensures { result ≡ unbiased u }
{
    ((u as i64) - 2147483648) as i32
}

// The two's complement of a number moved up by 2^31, and back.
fn turn(u: u64) -> u64
    requires { u < 4294967296 }
    ensures { (result ≡ turned u) × (result < 4294967296) }
{
    (u + 2147483648) % 4294967296
}

pub fn read_i32(s: &[u8], at: usize) -> i32
    requires { at + 4 ≤ length s.now }
    ensures { result ≡ to_z w32 (be 4 s.now at) }
{
    unbias(turn(octets::read32(s, at)))
}

// The place is one that a spot may have.
pub fn in_limits(place: i32) -> bool
    ensures { result ≡ in_limits place }
{
    (-1000000 <= place) & (place <= 1000000)
}

// The difference of two such places: 32 bits hold it.
pub fn gap(a: i32, b: i32) -> i32
    requires { (in_limits a ≡ true) × (in_limits b ≡ true) }
    ensures { result ≡ a -ℤ b }
{
    a - b
}

pub fn key_of(place: i32, rank: i32) -> u64
    ensures { result ≡ key place rank }
{
    bias(place) * 4294967296 + bias(rank)
}

// The place and the rank of a key.
pub fn place_of(k: u64) -> i32
    ensures { result ≡ place_of k }
{
    unbias(k / 4294967296)
}

pub fn rank_in(k: u64) -> i32
    ensures { result ≡ rank_in k }
{
    unbias(k % 4294967296)
}

// A key with its halves the other way round.
pub fn rank_key(k: u64) -> u64
    ensures { result ≡ rank_key k }
{
    k % 4294967296 * 4294967296 + k / 4294967296
}

// A number with its lower half the other way up.
fn turn_low(r: u64) -> u64
    ensures { result ≡ turn_low r }
{
    r / 4294967296 * 4294967296 + (4294967295 - r % 4294967296)
}

// What Top's answers are ordered by, the highest first: the higher rank, and of equal ranks the lower place.
pub fn top_key(k: u64) -> u64
    ensures { result ≡ top_key k }
{
    turn_low(rank_key(k))
}

// And back.
pub fn key_of_top(r: u64) -> u64
    ensures { result ≡ key_of_top r }
{
    rank_key(turn_low(r))
}

// The key of 8 bytes, whatever they hold: for those that find out whether it may stand there.
pub fn raw_key(s: &[u8], at: usize) -> u64
    requires { at + 8 ≤ length s.now }
    ensures { result ≡ key_at s.now at }
{
    turn(octets::read32(s, at)) * 4294967296 + turn(octets::read32(s, at + 4))
}

// The reader of an identity, for all that use one: its place is inside the limits.
pub fn read_key(s: &[u8], at: usize) -> u64
    requires { (at + 8 ≤ length s.now) × (limited (key_at s.now at) ≡ true) }
    ensures { (result ≡ key_at s.now at) × (limited result ≡ true) }
{
    raw_key(s, at)
}

// Its place and its rank as signed numbers, for those that compare them with a query's ends: of the place the same is promised.
pub fn read_place(s: &[u8], at: usize) -> i32
    requires { (at + 8 ≤ length s.now) × (limited (key_at s.now at) ≡ true) }
    ensures { (result ≡ place_of (key_at s.now at)) × (in_limits result ≡ true) }
{
    read_i32(s, at)
}

pub fn read_rank(s: &[u8], at: usize) -> i32
    requires { at + 8 ≤ length s.now }
    ensures { result ≡ rank_in (key_at s.now at) }
{
    read_i32(s, at + 4)
}

pub fn write_key(s: &mut [u8], at: usize, k: u64)
    requires { at + 8 ≤ length s.old }
    ensures { s.new ≡ put_key s.old at k }
{
    octets::write32(s, at, turn(k / 4294967296));
    octets::write32(s, at + 4, turn(k % 4294967296));
}

pub fn read_spot(s: &[u8], at: usize) -> Spot
    requires { (at + 12 ≤ length s.now) × (limited (key_at s.now at) ≡ true) }
    ensures { (result ≡ spot_at s.now at) × (limited result.key ≡ true) }
{
    let key = read_key(s, at);
    let track = octets::read32(s, at + 8) as u32;
    Spot { key, track }
}

pub fn write_spot(s: &mut [u8], at: usize, spot: Spot)
    requires { at + 12 ≤ length s.old }
    ensures { s.new ≡ put_spot s.old at spot }
{
    let k = spot.key;
    let t = spot.track as u64;
    write_key(s, at, k);
    octets::write32(s, at + 8, t);
}

pub fn make_query(x1: i32, x2: i32, y: i32) -> Query
    ensures { result ≡ query x1 x2 y }
{
    Query { x1, x2, y }
}

// The same with a least rank that is moved up.
pub fn top_query(x1: i32, x2: i32, least: u64) -> Query
    requires { least < 4294967296 }
    ensures { result ≡ top_query x1 x2 least }
{
    let y = unbias(least);
    Query { x1, x2, y }
}

// Asks for every place, with a least rank: the two ends of 32 bits.
pub fn all_places(y: i32) -> Query
    ensures { result ≡ all_places y }
{
    Query {
        x1: -2147483648,
        x2: 2147483647,
        y,
    }
}

// Asks for every spot.
pub fn everything() -> Query
    ensures { result ≡ everything }
{
    all_places(-2147483648)
}

// The key at which the query's places begin, and the one at which they end.
pub fn from_key(q: Query) -> u64
    ensures { result ≡ from_of q }
{
    bias(q.x1) * 4294967296
}

pub fn last_key(q: Query) -> u64
    ensures { result ≡ last_of q }
{
    bias(q.x2) * 4294967296 + 4294967295
}

// The places run on past the door.
pub fn is_ring(q: Query) -> bool
    ensures { result ≡ is_ring q }
{
    q.x2 < q.x1
}

// A test against the first end of the places and one against the last: both are asked for, of a ring one of them. No branch depends on it: it is asked of each child.
pub fn ends(q: Query, first: bool, last: bool) -> bool
    ensures { result ≡ ends q first last }
{
    (first & last) | (is_ring(q) & (first | last))
}

// No key of the query's places is below this one, and none is above the other. The places of a ring lie on both sides of the door.
pub fn lowest_key(q: Query) -> u64
    ensures { result ≡ lowest_of q }
{
    if is_ring(q) {
        return 0;
    }
    from_key(q)
}

pub fn highest_key(q: Query) -> u64
    ensures { result ≡ highest_of q }
{
    if is_ring(q) {
        return 18446744073709551615;
    }
    last_key(q)
}

// The least rank, moved up as in a key.
pub fn least_of(q: Query) -> u64
    ensures { result ≡ least_of q }
{
    bias(q.y)
}

// Both keys are counted from the first key of the places on, past the last key of all on from 0: so one test serves every range.
pub fn placed(q: Query, k: u64) -> bool
    ensures { result ≡ placed q k }
{
    let from = from_key(q);
    std::num::wrapping_sub_u64(k, from) <= std::num::wrapping_sub_u64(last_key(q), from)
}

pub fn wants(q: Query, k: u64) -> bool
    ensures { result ≡ wants_key q k }
{
    placed(q, k) & (least_of(q) <= k % 4294967296)
}

// The same of a place and a rank as they are, for a range that is no ring.
pub fn wanted(place: i32, rank: i32, x1: i32, x2: i32, y: i32) -> bool
    ensures { result ≡ wanted place rank x1 x2 y }
{
    (x1 <= place) & (place <= x2) & (y <= rank)
}
