// Top: reads best first, and gives the highest spots, the highest first.
#![tactic(auto)]

ghost use Rattle.std.specs.Prelude.{◌≡◌, cond, [], ◌-◌, ◌*◌, ◌/◌, ◌≤◌, ◌<◌, max, eqb, ltb, length};
ghost use Rattle.std.specs.Option.{unwrap_or};
ghost use Rattle.spot.specs.Spots.{put_spot};
ghost use Rattle.heap.specs.Heaps.{Heap};
ghost use Rattle.frontier.specs.Frontier.{block_by};
ghost use Rattle.frontier.specs.Picks.{spot_by, best_at};
ghost use Rattle.top.specs.Rows.{pick_row, kid_row, first_key, lead_at, lead_slot, Seated, Hung, Lowered};
ghost use Rattle.top.specs.Runs.{Joinable, Added, Readable, NodeRead, Takable, KidTaken, leads_with, NextKid, KidRead, LeadRow, Movable, MovedOn, Givable, Gave, Sweepable, Searchable, Searched, Runnable, WideRun, WithinFront, TopFront};

// How many slots there are, and how many rows in the heaps of children and of spots.
// Stays: the rows are lent arrays of fixed length, so how many of them are in use is counted here, and a slot names its parent by index.
// Stays: the rows of slots and both heaps are lent one by one, since most steps read some of them while they write another.
#[derive(Clone, Copy)]
pub struct Sizes {
    pub slots: usize,
    pub kids: usize,
    pub heads: usize,
}

// A child on its way to a slot: its place and the entry that leads to it, where it hangs, and the rows left in the heap of children.
#[derive(Clone, Copy)]
pub struct Fresh {
    pub place: frontier::Place,
    pub entry: block::Entry,
    pub up: usize,
    pub kids: usize,
}

// How many spots are given, and the rows left in the heap of spots.
#[derive(Clone, Copy)]
pub struct Given {
    pub spots: usize,
    pub heads: usize,
}

// A search at its end: how many spots it gave, and the highest rank that is left: of an unread child or of a spot found and not given.
#[derive(Clone, Copy)]
pub struct TopTally {
    pub spots: usize,
    pub ceiling: u64,
}

// Why a search gives nothing: a rule is broken, or it would need more slots.
#[derive(Clone, Copy, Debug, PartialEq, Eq)]
pub enum Stop {
    Broken,
    Short,
}

// The row of slot s's best spot, if it has one.
fn head_row(s: usize, p: Option<frontier::Pick>) -> Option<[u64; 2]>
    requires { Seated s p }
    ensures { unwrap_or result [] ≡ pick_row s p }
{
    let best = p?;
    Some([
        best.key,
        best.at as u64 + 128 * (s as u64 + 4096 * best.more),
    ])
}

// The row of slot s's best unread child, if it has one.
fn kid_row(s: usize, k: Option<frontier::KidPick>) -> Option<[u64; 2]>
    requires { (s < 4096) × (best_at k < 8) }
    ensures { unwrap_or result [] ≡ kid_row s k }
{
    let best = k?;
    Some([best.key, (8 * s + best.at) as u64])
}

// A slot more in a heap of m rows: its row x comes in, if it has one.
fn hang(h: &mut [[u64; 2]], m: usize, x: Option<[u64; 2]>) -> usize
    requires { (m < length h.old) × Heap m h.old }
    ensures { Hung h.old m (unwrap_or x []) h.new result }
{
    let Some(row) = x else {
        return m;
    };
    heap::push(h, m, row);
    m + 1
}

// The slot of the first row takes the row x in its place, or has none any more.
fn lower(h: &mut [[u64; 2]], m: usize, x: Option<[u64; 2]>) -> usize
    requires { (0 < m) × (m ≤ length h.old) × Heap m h.old }
    ensures { Lowered h.old m (unwrap_or x []) h.new result }
{
    let Some(row) = x else {
        heap::pop_top(h, m);
        return m - 1;
    };
    heap::replace_top(h, m, row);
    m
}

// A node that keeps the rules comes into the next slot, its best spot and its best child into the heaps.
fn join(
    t: &[u8],
    rows: &mut [[u16; 2]],
    kids: &mut [[u64; 2]],
    heads: &mut [[u64; 2]],
    z: Sizes,
    place: frontier::Place,
    up: usize,
    q: spot::Query,
) -> Sizes
    requires { Joinable t.now rows.old kids.old heads.old z place up }
    ensures { Added t.now q rows.old rows.new kids.old kids.new heads.old heads.new z result place up }
{
    let n = z.slots;
    rows[n] = [place.block as u16, up as u16];
    let best = frontier::first_pick(t, rows, n, q);
    let head = head_row(n, best);
    let spots = hang(heads, z.heads, head);
    let kid = frontier::best_kid(t, place.block, place.span, q, u64::MAX);
    let row = kid_row(n, kid);
    let unread = hang(kids, z.kids, row);
    Sizes {
        slots: n + 1,
        kids: unread,
        heads: spots,
    }
}

// Reads a node into the next slot, unless it was read before or breaks a rule.
fn read_node(
    t: &[u8],
    seen: &mut [u8],
    rows: &mut [[u16; 2]],
    kids: &mut [[u64; 2]],
    heads: &mut [[u64; 2]],
    z: Sizes,
    place: frontier::Place,
    asked: block::Asked,
    up: usize,
    q: spot::Query,
) -> Option<Sizes>
    requires { Readable t.now seen.old rows.old kids.old heads.old z place asked up }
    ensures { NodeRead t.now q seen.old seen.new rows.old rows.new kids.old kids.new heads.old heads.new z place asked up result }
{
    if octets::test_bit(seen, place.block) {
        return None;
    }
    if !block::block_ok(t, place.block, place.level, asked) {
        return None;
    }
    octets::set_bit(seen, place.block);
    Some(join(t, rows, kids, heads, z, place, up, q))
}

// The child with the highest key goes out of the heap, and the next of the same parent comes in, if there is one.
fn take_kid(t: &[u8], rows: &[[u16; 2]], kids: &mut [[u64; 2]], m: usize, q: spot::Query) -> Fresh
    requires { Takable t.now rows.now kids.old m }
    ensures { KidTaken t.now q rows.now kids.old kids.new m result }
{
    let row = kids[0];
    let up = row[1] as usize;
    let s = up / 8;
    let parent = frontier::place_at(t, rows, s);
    let next = frontier::best_kid(t, parent.block, parent.span, q, row[0] - 1);
    let lower_row = kid_row(s, next);
    let left = lower(kids, m, lower_row);
    let kid = frontier::kid_of(t, parent.block, up % 8, parent.span);
    let entry = kid.entry;
    let span = kid.span;
    let place = frontier::Place {
        block: entry.block,
        level: parent.level - 1,
        span,
    };
    Fresh {
        place,
        entry,
        up,
        kids: left,
    }
}

// The first of m rows has this key.
fn leads_with(kids: &[[u64; 2]], m: usize, key: u64) -> bool
    requires { m ≤ length kids.now }
    ensures { result ≡ leads_with kids.now m key }
{
    if m == 0 {
        return false;
    }
    let row = kids[0];
    row[0] == key
}

// Reads the child with the highest key into the next slot. Where another has that key, two entries lead to one block: none is read.
fn read_kid(
    t: &[u8],
    seen: &mut [u8],
    rows: &mut [[u16; 2]],
    kids: &mut [[u64; 2]],
    heads: &mut [[u64; 2]],
    z: Sizes,
    q: spot::Query,
) -> Option<Sizes>
    requires { NextKid t.now q seen.old rows.old kids.old heads.old z }
    ensures { KidRead t.now q seen.old seen.new rows.old rows.new kids.old kids.new heads.old heads.new z result }
{
    let first = kids[0];
    let kid = take_kid(t, rows, kids, z.kids, q);
    if leads_with(kids, kid.kids, first[0]) {
        return None;
    }
    let place = kid.place;
    let entry = kid.entry;
    let sizes = Sizes {
        kids: kid.kids,
        ..z
    };
    read_node(
        t,
        seen,
        rows,
        kids,
        heads,
        sizes,
        place,
        block::Asked::Child(entry),
        kid.up,
        q,
    )
}

// The spot at the head of the heap of spots.
fn lead(t: &[u8], rows: &[[u16; 2]], heads: &[[u64; 2]]) -> spot::Spot
    requires { LeadRow t.now rows.now heads.now }
    ensures { result ≡ spot_by t.now (block_by rows.now (lead_slot heads.now)) (lead_at heads.now) }
{
    let row = heads[0];
    let v = row[1] as usize;
    let slot = rows[v / 128 % 4096];
    frontier::spot_by(t, slot[0] as usize, v % 128)
}

// The first spot is given: the next one of its slot takes its place, if there is one. At most `left` more are asked for.
fn move_on(
    t: &[u8],
    rows: &[[u16; 2]],
    heads: &mut [[u64; 2]],
    m: usize,
    q: spot::Query,
    left: usize,
) -> usize
    requires { Movable t.now q rows.now heads.old m }
    ensures { MovedOn t.now q rows.now heads.old heads.new m result }
{
    let row = heads[0];
    let v = row[1];
    let s = (v / 128 % 4096) as usize;
    let next = frontier::next_pick(t, rows, s, q, row[0], v / 524288, left);
    let head = head_row(s, next);
    lower(heads, m, head)
}

// Writes the j-th spot, if there is room.
fn put_out(out: &mut [u8], j: usize, room: usize, s: spot::Spot)
    requires { 12 * room ≤ length out.old }
    ensures { out.new ≡ cond (ltb j room) (put_spot out.old (12 * j) s) out.old }
{
    if j < room {
        spot::write_spot(out, 12 * j, s);
    }
}

// Gives spots, the highest first, while they are not under the floor, until k are given; `given` were before.
fn give_above(
    t: &[u8],
    rows: &[[u16; 2]],
    heads: &mut [[u64; 2]],
    m: usize,
    q: spot::Query,
    floor: u64,
    given: usize,
    k: usize,
    out: &mut [u8],
    room: usize,
) -> Given
    requires { Givable t.now q k room rows.now heads.old m floor out.old given }
    ensures { Gave t.now q k room rows.now heads.old heads.new m floor out.old out.new given result }
{
    let mut j = given;
    let mut left = m;
    // Stays: it ends in three ways, and `j` is handed back at each; a range would need the same count beside it.
    while (j < k) & (0 < left) {
        let row = heads[0];
        if row[0] / 4294967296 < floor {
            return Given {
                spots: j,
                heads: left,
            };
        }
        let s = lead(t, rows, heads);
        put_out(out, j, room, s);
        left = move_on(t, rows, heads, left, q, k - j - 1);
        j += 1;
    }
    Given {
        spots: j,
        heads: left,
    }
}

// One more than the highest rank that an unread child promises, 0 where there is none.
fn floor_of(kids: &[[u64; 2]], m: usize) -> u64
    requires { m ≤ length kids.now }
    ensures { result ≡ cond (eqb m 0) 0 (first_key kids.now / 65536) }
{
    if m == 0 {
        return 0;
    }
    let row = kids[0];
    row[0] / 65536
}

// The highest rank that an unread child shows, where `floor` is one more, or that the first of m spots left has; 0 where there is neither.
fn ceiling_of(floor: u64, heads: &[[u64; 2]], m: usize) -> u64
    requires { m ≤ length heads.now }
    ensures { result ≡ max (floor - 1) (cond (eqb m 0) 0 (first_key heads.now / 4294967296)) }
{
    if m == 0 {
        if floor == 0 {
            return 0;
        }
        return floor - 1;
    }
    let row = heads[0];
    let rank = row[0] / 4294967296;
    if rank < floor {
        return floor - 1;
    }
    rank
}

// The search once the root is read, with as many slots as are lent; `seen` becomes the map of the blocks read. At most `most` are read.
fn sweep(
    t: &[u8],
    seen: &mut [u8],
    rows: &mut [[u16; 2]],
    kids: &mut [[u64; 2]],
    heads: &mut [[u64; 2]],
    start: Sizes,
    q: spot::Query,
    k: usize,
    most: usize,
    out: &mut [u8],
    room: usize,
) -> Result<TopTally, Stop>
    requires { Sweepable t.now q seen.old out.old rows.old kids.old heads.old start k most room }
    ensures { Searched t.now q k most room (length rows.old) out.old seen.new out.new result }
{
    let cap = rows.len();
    let mut z = start;
    let mut given = 0;
    // Stays: reading a child takes the next slot, so there is no count of its own to run over.
    while z.slots < cap {
        let floor = floor_of(kids, z.kids);
        let g = give_above(t, rows, heads, z.heads, q, floor, given, k, out, room);
        given = g.spots;
        if (k <= given) | (floor == 0) | (most <= z.slots) {
            let ceiling = ceiling_of(floor, heads, g.heads);
            octets::set_bit(seen, 0);
            return Ok(TopTally {
                spots: given,
                ceiling,
            });
        }
        let sizes = Sizes {
            heads: g.heads,
            ..z
        };
        z = read_kid(t, seen, rows, kids, heads, sizes, q).ok_or(Stop::Broken)?;
    }
    Err(Stop::Short)
}

// The search of a table from its root.
fn look(
    t: &[u8],
    seen: &mut [u8],
    q: spot::Query,
    k: usize,
    most: usize,
    out: &mut [u8],
    room: usize,
    rows: &mut [[u16; 2]],
    kids: &mut [[u64; 2]],
    heads: &mut [[u64; 2]],
) -> Result<TopTally, Stop>
    requires { Searchable t.now q seen.old out.old rows.old kids.old heads.old k most room }
    ensures { Searched t.now q k most room (length rows.old) out.old seen.new out.new result }
{
    if !block::header_ok(t) {
        return Err(Stop::Broken);
    }
    let root = frontier::root_place(t);
    let none = Sizes {
        slots: 0,
        kids: 0,
        heads: 0,
    };
    let sizes = read_node(
        t,
        seen,
        rows,
        kids,
        heads,
        none,
        root,
        block::Asked::Root(root.block),
        0,
        q,
    )
    .ok_or(Stop::Broken)?;
    sweep(t, seen, rows, kids, heads, sizes, q, k, most, out, room)
}

// The search with N slots, cleared.
fn run_in<const N: usize>(
    t: &[u8],
    seen: &mut [u8],
    q: spot::Query,
    k: usize,
    most: usize,
    out: &mut [u8],
    room: usize,
) -> Result<TopTally, Stop>
    requires { Runnable t.now q seen.old out.old k room × (0 < most) × (1 ≤ N) × (N ≤ 4096) }
    ensures { Searched t.now q k most room N out.old seen.new out.new result }
{
    let mut rows = [[0u16; 2]; N];
    let mut kids = [[0u64; 2]; N];
    let mut heads = [[0u64; 2]; N];
    look(
        t, seen, q, k, most, out, room, &mut rows, &mut kids, &mut heads,
    )
}

// The search with a slot for every block that a table may have.
// Its frame takes 148 KB, so it has one caller: inlined at two, it would lie on the stack twice.
fn wide_run(
    t: &[u8],
    seen: &mut [u8],
    q: spot::Query,
    k: usize,
    most: usize,
    out: &mut [u8],
    room: usize,
) -> Option<TopTally>
    requires { Runnable t.now q seen.old out.old k room × (0 < most) }
    ensures { WideRun t.now q k most room out.old seen.new out.new result }
{
    run_in::<4096>(t, seen, q, k, most, out, room).ok()
}

// The search with few slots, which are soon cleared; for many spots and blocks of more than 128 it is short at once, since they are seldom enough.
fn narrow_run(
    t: &[u8],
    seen: &mut [u8],
    q: spot::Query,
    k: usize,
    most: usize,
    out: &mut [u8],
    room: usize,
) -> Result<TopTally, Stop>
    requires { Runnable t.now q seen.old out.old k room × (0 < most) }
    ensures { Searched t.now q k most room 128 out.old seen.new out.new result }
{
    if (513 < k) & (262144 < t.len()) & (127 < most) {
        return Err(Stop::Short);
    }
    run_in::<128>(t, seen, q, k, most, out, room)
}

// A Top that reads at most `most` node blocks, unless a rule is broken: tried with few slots first, which are enough for most.
pub fn run_within(
    t: &[u8],
    seen: &mut [u8],
    q: spot::Query,
    k: usize,
    most: usize,
    out: &mut [u8],
    room: usize,
) -> Option<TopTally>
    requires { Runnable t.now q seen.old out.old k room × (0 < most) }
    ensures { WithinFront t.now q k most room out.old seen.new out.new result }
{
    match narrow_run(t, seen, q, k, most, out, room) {
        Ok(few) => Some(few),
        Err(Stop::Broken) => None,
        Err(Stop::Short) => {
            octets::zero(seen, 512);
            wide_run(t, seen, q, k, most, out, room)
        }
    }
}

// Top of a table, unless a rule is broken: as many blocks as it takes, which are fewer than 4,096.
pub fn top_run(
    t: &[u8],
    seen: &mut [u8],
    q: spot::Query,
    k: usize,
    out: &mut [u8],
    room: usize,
) -> Option<TopTally>
    requires { Runnable t.now q seen.old out.old k room }
    ensures { TopFront t.now q k room out.old seen.new out.new result }
{
    run_within(t, seen, q, k, 4096, out, room)
}
