// The sweep that presses a tour, in rank order over spots in place order: which blocks are made, of which spots, and whose passing made and ended them. Nothing is
// written.
#![tactic(auto)]

ghost use Rattle.std.specs.Prelude.{◌≡◌, ◌+◌, ◌-◌, ◌≤◌, ◌<◌, MatchOption, length, take, get_or};
ghost use Rattle.spot.specs.Spots.{spots_in};
ghost use Rattle.plan.specs.Plans.{Spots, SpotsReadable, Nearer, NextRank, SweepPlanned, Started, PlanShaped, RipeAt, Fused, PassedRank, piece_left, piece_at, closed_up, ended_at};

// Zero in its eight bytes: stands where no passing made or ended a block. It is also the key of place 0 and rank 0: the block's position decides.
pub const NO_KEY: u64 = 9223372039002259456;

// A block: of the spots from `from` on, before `to`, those with a rank key of at least `floor`; and the key whose passing ended it.
// Stays: the card has `NO_KEY` where no passing ended a block, so None would only be written back as that.
#[derive(Clone, Copy)]
pub struct Piece {
    pub from: usize,
    pub to: usize,
    pub floor: u64,
    pub ended: u64,
}

// The blocks made so far, by their numbers, and the places in `pieces` of those that stand, from left to right.
// Stays: memory of a fixed size, with the numbers of entries beside it, since there is no heap.
#[derive(Clone, Copy)]
pub struct Plan {
    pub count: usize,
    pub stands: usize,
    pub pieces: [Piece; 16],
    pub order: [usize; 8],
}

// The place blocks of n spots: all of 64 spots but the last.
fn start(n: usize) -> Plan
    requires { n ≤ 512 }
    ensures { Started n result }
{
    let none = Piece {
        from: 0,
        to: 0,
        floor: 0,
        ended: NO_KEY,
    };
    let mut pieces = [none; 16];
    let mut order = [0usize; 8];
    let places = (n + 63) / 64;
    for i in 0..places {
        let from = 64 * i;
        pieces[i] = Piece {
            from,
            to: (from + 64).min(n),
            floor: 0,
            ended: NO_KEY,
        };
        order[i] = i;
    }
    Plan {
        count: places,
        stands: places,
        pieces,
        order,
    }
}

// The lesser of best and r, if r is at least floor.
fn nearer(best: u64, r: u64, floor: u64) -> u64
    ensures { Nearer best r floor result }
{
    if floor <= r {
        return best.min(r);
    }
    best
}

// The least rank key of at least floor: that of the spot that the sweep passes next.
fn next_rank(spots: &[u8], n: usize, floor: u64) -> u64
    requires { SpotsReadable spots.now n }
    ensures { NextRank spots.now n floor 18446744073709551615 result }
{
    let mut best: u64 = 18446744073709551615;
    for i in 0..n {
        best = nearer(best, spot::rank_key(spot::read_key(spots, 12 * i)), floor);
    }
    best
}

// How many spots of a piece have a rank key of at least floor.
fn count_left(spots: &[u8], p: Piece, floor: u64) -> usize
    requires { SpotsReadable spots.now p.to }
    ensures { (result ≡ piece_left spots.now p floor) × (result ≤ p.to) }
{
    let mut c: usize = 0;
    for i in p.from..p.to {
        c += (floor <= spot::rank_key(spot::read_key(spots, 12 * i))) as usize;
    }
    c
}

// The i-th of the blocks that stand.
fn piece_at(plan: Plan, i: usize) -> Piece
    requires { (i < 8) × (get_or plan.order i 0 < 16) }
    ensures { result ≡ piece_at plan i }
{
    let at = plan.order[i];
    plan.pieces[at]
}

// The first of the blocks that stand which has, with its right neighbour, 64 spots left of a rank key of at least floor.
fn ripe_at(spots: &[u8], plan: Plan, floor: u64) -> Option<usize>
    requires { PlanShaped spots.now plan }
    ensures { MatchOption result (RipeAt spots.now plan floor plan.stands) (λ i. RipeAt spots.now plan floor i × (i + 1 < plan.stands)) }
{
    let pairs = plan.stands.saturating_sub(1);
    for i in 0..pairs {
        let here = count_left(spots, piece_at(plan, i), floor);
        let next = count_left(spots, piece_at(plan, i + 1), floor);
        if here + next == 64 {
            return Some(i);
        }
    }
    None
}

// The i-th of n entries is replaced, and those behind the next one move up.
pub fn closed(order: [usize; 8], i: usize, n: usize, block: usize) -> [usize; 8]
    requires { (i + 1 < n) × (n ≤ 8) }
    ensures { (length result ≡ 8) × (take (n - 1) result ≡ closed_up order i n block) }
{
    let mut next = order;
    next[i] = block;
    next.copy_within(i + 2..n, i + 1);
    next
}

// The piece at `at` is ended by the passing of a key.
fn ended_at(pieces: [Piece; 16], at: usize, key: u64) -> [Piece; 16]
    requires { at < 16 }
    ensures { result ≡ ended_at pieces at key }
{
    let mut next = pieces;
    next[at] = Piece {
        ended: key,
        ..pieces[at]
    };
    next
}

// The i-th of the blocks that stand is fused with its right neighbour by the passing of the rank key r.
fn fused(plan: Plan, i: usize, r: u64) -> Plan
    requires { (i + 1 < plan.stands) × (plan.stands ≤ 8) × (plan.count < 16) × (get_or plan.order i 0 < 16) × (get_or plan.order (i + 1) 0 < 16) × (r < 18446744073709551615) }
    ensures { Fused plan i r result }
{
    let n = plan.count;
    let a = plan.order[i];
    let b = plan.order[i + 1];
    let left = plan.pieces[a];
    let right = plan.pieces[b];
    let key = spot::rank_key(r);
    let mut pieces = ended_at(ended_at(plan.pieces, a, key), b, key);
    pieces[n] = Piece {
        from: left.from,
        to: right.to,
        floor: r + 1,
        ended: NO_KEY,
    };
    Plan {
        count: n + 1,
        stands: plan.stands - 1,
        pieces,
        order: closed(plan.order, i, plan.stands, n),
    }
}

// The sweep passes the rank key r.
fn pass(spots: &[u8], plan: Plan, r: u64) -> Plan
    requires { PlanShaped spots.now plan × (r < 18446744073709551615) }
    ensures { PassedRank spots.now plan r result }
{
    match ripe_at(spots, plan, r + 1) {
        Some(i) => fused(plan, i, r),
        None => plan,
    }
}

// The whole sweep over the first n spots.
pub fn plan_of(spots: &[u8], n: usize) -> Plan
    requires { Spots spots.now n }
    ensures { SweepPlanned (spots_in spots.now n) result }
{
    let mut plan = start(n);
    let mut floor: u64 = 0;
    for passed in 0..n {
        let r = next_rank(spots, n, floor);
        plan = pass(spots, plan, r);
        floor = r + 1;
    }
    plan
}
