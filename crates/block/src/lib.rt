// The one place that knows the layout of a card's blocks.
#![tactic(auto)]

ghost use Rattle.std.specs.Prelude.{◌≡◌, true, false, cond, not, ◌+◌, ◌-◌, ◌*◌, ◌≤◌, ◌<◌, min, max, length, drop};
ghost use Rattle.octets.specs.Lists.{every, rising_from, rising, up_to};
ghost use Rattle.octets.specs.Bitmap.{bit};
ghost use Rattle.spot.specs.Keys.{limited};
ghost use Rattle.spot.specs.Spots.{key_at, keys_from};
ghost use Rattle.block.specs.Table.{version1, table_sized, capacity};
ghost use Rattle.block.specs.Header.{head_of, header_of};
ghost use Rattle.block.specs.Node.{node_of, store_of, points_from, inserts_from, deletes_from};
ghost use Rattle.block.specs.NodeRules.{node_ok, ValidBytes, fewest, stands_in};
ghost use Rattle.block.specs.HeaderRules.{header_ok};
ghost use Rattle.block.specs.Fresh.{formatted};
ghost use Rattle.block.specs.Answers.{answer, refused, answer_of, told, yes_or_no};
ghost use Rattle.block.specs.Access.{front_of, Small, used_of, EntryIs};
ghost use Rattle.block.specs.Checks.{is_zero, start_of, rises_under, PointsAre, Past, apart, in_fine, credible_fine, entry_fine, entries_fine, fresh_fine, blocks_fine, above_tops, count_fine, sizes_fine, leaf_fine, front_fine, entry_keyed, agrees_fine, body_fine, map_fine, numbers_fine, fresh_marks};

// A table: its blocks, and the spots that it has room for in each block after the first.
pub const BLOCK_BYTES: usize = 2048;

pub const BLOCKS_LEAST: usize = 9;

pub const BLOCKS_MOST: usize = 4096;

pub const SPOTS_A_BLOCK: usize = 16;

// The map of blocks in use, in block 0.
pub const MAP_BYTES: usize = 512;

pub const MAP_FROM: usize = 12;

pub const MAP_END: usize = 524;

// A node: the numbers at its front, its entries, and its limits.
pub const FRONT_BYTES: usize = 8;

pub const ENTRY_BYTES: usize = 28;

pub const USED_MOST: usize = 1896;

pub const ENTRIES_MOST: usize = 8;

pub const POINTS_LEAST: usize = 32;

pub const POINTS_MOST: usize = 64;

pub const INSERTS_MOST: usize = 64;

pub const DELETES_MOST: usize = 16;

// What a call answers: one of the paper's numbers, and its detail.
#[derive(Clone, Copy)]
pub struct Answer {
    pub number: u32,
    pub detail: u32,
}

// Why a call is refused.
#[derive(Clone, Copy, Debug, PartialEq, Eq)]
pub enum Refusal {
    // No table or tour has this length.
    TableLength,
    // What else is lent has a wrong length.
    LentLength,
    // A block that was read breaks a rule.
    Broken,
    // No room for one spot more; of a message, the position of the change.
    Full(u32),
    // The output is too short; how many spots there are.
    Output(u32),
    TooManyRanges,
    NotPressable,
    NotAMessage,
    // A place is outside the limits; of changes, the position of the first such one.
    PlaceOutside(u32),
}

impl From<Refusal> for Answer {
    ghost from_gives = { λ r a. a ≡ refused r };

    fn from(r: Refusal) -> Answer {
        let (number, detail) = match r {
            Refusal::TableLength => (1, 0),
            Refusal::LentLength => (2, 0),
            Refusal::Broken => (3, 0),
            Refusal::Full(at) => (4, at),
            Refusal::Output(spots) => (5, spots),
            Refusal::TooManyRanges => (6, 0),
            Refusal::NotPressable => (7, 0),
            Refusal::NotAMessage => (8, 0),
            Refusal::PlaceOutside(at) => (9, at),
        };
        Answer { number, detail }
    }
}

// The answer to a call that was carried out, with its detail, or refused.
pub fn answer_of(done: Result<u32, Refusal>) -> Answer
    ensures { result ≡ answer_of done }
{
    match done {
        Ok(detail) => Answer { number: 0, detail },
        Err(r) => Answer::from(r),
    }
}

// A child entry: the child's block, the size of its points, the lowest key of its range, and the highest and the lowest key of its points in rank order.
#[derive(Clone, Copy)]
pub struct Entry {
    pub block: usize,
    pub size: usize,
    pub low: u64,
    pub top: u64,
    pub bottom: u64,
}

// The same where there is no detail.
pub fn told(done: Result<(), Refusal>) -> Answer
    ensures { result ≡ told done }
{
    match done {
        Ok(()) => Answer {
            number: 0,
            detail: 0,
        },
        Err(refusal) => Answer::from(refusal),
    }
}

// The same of a question: the detail is 1 or 0.
pub fn yes_or_no(done: Result<bool, Refusal>) -> Answer
    ensures { result ≡ yes_or_no done }
{
    match done {
        Ok(yes) => Answer {
            number: 0,
            detail: yes as u32,
        },
        Err(why) => Answer::from(why),
    }
}

// The entry of no child, where an array has none yet.
pub const NO_ENTRY: Entry = Entry {
    block: 0,
    size: 0,
    low: 0,
    top: 0,
    bottom: 0,
};

// What leads to a node: block 0 to the root, which stands in the block that it names, and an entry of its parent to any other.
#[derive(Clone, Copy)]
pub enum Asked {
    Root(usize),
    Child(Entry),
}

// The numbers at the front of a node: p, i and d are the sizes of its points, inserts and deletes, c that of its entries.
#[derive(Clone, Copy)]
pub struct Front {
    pub used: usize,
    pub version: usize,
    pub level: usize,
    pub p: usize,
    pub i: usize,
    pub d: usize,
    pub c: usize,
}

// The lowest and the highest rank key of a node's points.
#[derive(Clone, Copy)]
pub struct Extent {
    pub low: u64,
    pub high: u64,
}

// ---- sizes

// A table is 9 to 4,096 whole blocks.
pub fn sized(bytes: usize) -> bool
    ensures { result ≡ table_sized bytes }
{
    (bytes % BLOCK_BYTES == 0)
        & (BLOCKS_LEAST <= bytes / BLOCK_BYTES)
        & (bytes / BLOCK_BYTES <= BLOCKS_MOST)
}

// The spots that a table of this many bytes has room for.
pub fn capacity_of(bytes: usize) -> usize
    ensures { result ≡ capacity bytes }
{
    let blocks = bytes / BLOCK_BYTES;
    if blocks == 0 {
        return 0;
    }
    SPOTS_A_BLOCK * (blocks - 1)
}

// ---- reading block 0, of a table

// The number of levels.
pub fn levels_of(t: &[u8]) -> usize
    requires { 2048 ≤ length t.now }
    ensures { (result ≡ (head_of t.now).levels) × (result < 256) }
{
    octets::count_at(t, 5)
}

// The root's block.
pub fn root_of(t: &[u8]) -> usize
    requires { 2048 ≤ length t.now }
    ensures { (result ≡ (head_of t.now).root) × (result < 65536) }
{
    octets::read16(t, 6)
}

// The figure that is never below the live count.
pub fn bound_of(t: &[u8]) -> u64
    requires { 2048 ≤ length t.now }
    ensures { (result ≡ (head_of t.now).bound) × (result < 4294967296) }
{
    octets::read32(t, 8)
}

// ---- reading a node, in the bytes of its block

// The numbers at the front of a node.
pub fn front_of(s: &[u8]) -> Front
    requires { length s.now ≡ 2048 }
    ensures { (result ≡ front_of s.now) × Small result }
{
    Front {
        used: octets::read16(s, 0),
        version: octets::count_at(s, 2),
        level: octets::count_at(s, 3),
        p: octets::count_at(s, 4),
        i: octets::count_at(s, 5),
        d: octets::count_at(s, 6),
        c: octets::count_at(s, 7),
    }
}

// Where the points, the inserts and the deletes of a node begin.
pub fn points_from(h: Front) -> usize
    requires { used_of h ≤ 2048 }
    ensures { result ≡ points_from version1 h.c }
{
    FRONT_BYTES + ENTRY_BYTES * h.c
}

pub fn inserts_from(h: Front) -> usize
    requires { used_of h ≤ 2048 }
    ensures { result ≡ inserts_from version1 h.c h.p }
{
    FRONT_BYTES + ENTRY_BYTES * h.c + spot::SPOT_BYTES * h.p
}

pub fn deletes_from(h: Front) -> usize
    requires { used_of h ≤ 2048 }
    ensures { result ≡ deletes_from version1 h.c h.p h.i }
{
    FRONT_BYTES + ENTRY_BYTES * h.c + spot::SPOT_BYTES * (h.p + h.i)
}

// The key at a place that is in use, else 0.
fn key_unless(s: &[u8], at: usize, unused: bool) -> u64
    requires { (at + 8 ≤ length s.now) × (unused ≡ false → limited (key_at s.now at) ≡ true) }
    ensures { result ≡ cond unused 0 (key_at s.now at) }
{
    if unused {
        return 0;
    }
    spot::read_key(s, at)
}

// The entry with index i of a node that keeps the rules.
pub fn entry_at(s: &[u8], i: usize) -> Entry
    requires { ValidBytes s.now × (i < (front_of s.now).c) }
    ensures { EntryIs s.now i result }
{
    let at = FRONT_BYTES + ENTRY_BYTES * i;
    let block = octets::read16(s, at);
    let size = octets::count_at(s, at + 2);
    let low = key_unless(s, at + 4, i == 0);
    let top = key_unless(s, at + 12, size == 0);
    let bottom = key_unless(s, at + 20, size == 0);
    Entry {
        block,
        size,
        low,
        top,
        bottom,
    }
}

// ---- validating a node

// All bytes from at on are zero.
pub fn zeros(s: &[u8], at: usize) -> bool
    requires { at ≤ length s.now }
    ensures { result ≡ every is_zero (drop at s.now) }
{
    let mut ok = true;
    for i in at..s.len() {
        ok = ok & (s[i] == 0);
    }
    ok
}

// The keys of the n records of w bytes from at on rise, and the first is at least floor.
pub fn rises(s: &[u8], at: usize, w: usize, n: usize, floor: u64) -> bool
    requires { (8 ≤ w) × (at + w * n ≤ length s.now) }
    ensures { result ≡ rising_from floor (keys_from s.now w n at) }
{
    if n == 0 {
        return true;
    }
    let mut prev = spot::raw_key(s, at);
    let mut ok = floor <= prev;
    for i in 1..n {
        let k = spot::raw_key(s, at + w * i);
        ok = ok & (prev < k);
        prev = k;
    }
    ok
}

// The same, all are inside the limits above, and all are below low in rank order. As they rise, the last one decides about the limits.
fn rises_under(s: &[u8], at: usize, w: usize, n: usize, floor: u64, low: u64) -> bool
    requires { (8 ≤ w) × (at + w * n ≤ length s.now) }
    ensures { result ≡ rises_under floor low (keys_from s.now w n at) }
{
    if n == 0 {
        return true;
    }
    let mut prev = spot::raw_key(s, at);
    let mut ok = (floor <= prev) & (spot::rank_key(prev) < low);
    for i in 1..n {
        let k = spot::raw_key(s, at + w * i);
        ok = ok & ((prev < k) & (spot::rank_key(k) < low));
        prev = k;
    }
    ok & (prev < spot::END_KEY)
}

// One pass over P: its lowest and highest in rank order, if it rises from floor on inside the limits.
fn points_of(s: &[u8], at: usize, n: usize, floor: u64) -> Option<Extent>
    requires { at + 12 * n ≤ length s.now }
    ensures { PointsAre floor (keys_from s.now 12 n at) result }
{
    if n == 0 {
        return Some(Extent {
            low: 18446744073709551615,
            high: 0,
        });
    }
    let mut prev = spot::raw_key(s, at);
    let mut ok = floor <= prev;
    let mut low = spot::rank_key(prev);
    let mut high = low;
    for i in 1..n {
        let k = spot::raw_key(s, at + spot::SPOT_BYTES * i);
        let r = spot::rank_key(k);
        ok = ok & (prev < k);
        low = low.min(r);
        high = high.max(r);
        prev = k;
    }
    if ok & (prev < spot::END_KEY) {
        return Some(Extent { low, high });
    }
    None
}

// The first of the n spots from at on, not before the one at from, whose key is at least k.
fn past(s: &[u8], at: usize, n: usize, from: usize, k: u64) -> usize
    requires { (at + 12 * n ≤ length s.now) × (from ≤ n) }
    ensures { Past s.now at n from k result }
{
    for i in from..n {
        if k <= spot::raw_key(s, at + spot::SPOT_BYTES * i) {
            return i;
        }
    }
    n
}

// No key of the n spots from at on is one of the d identities from ad on; both rise.
fn apart_ok(s: &[u8], at: usize, n: usize, ad: usize, d: usize) -> bool
    requires { (at + 12 * n ≤ length s.now) × (ad + 8 * d ≤ length s.now) × (rising (keys_from s.now 12 n at) ≡ true) × (rising (keys_from s.now 8 d ad) ≡ true) }
    ensures { result ≡ apart (keys_from s.now 12 n at) (keys_from s.now 8 d ad) }
{
    let mut i = 0;
    for j in 0..d {
        let b = spot::raw_key(s, ad + spot::KEY_BYTES * j);
        i = past(s, at, n, i, b);
        if n <= i {
            return true;
        }
        if spot::raw_key(s, at + spot::SPOT_BYTES * i) == b {
            return false;
        }
    }
    true
}

// A key lies in a child's range: from its low on, and before the next child's low.
fn in_child(k: u64, from: u64, next: u64) -> bool
    ensures { result ≡ in_fine from next k }
{
    (from <= k) & (k < next)
}

// There are n points with this highest and this lowest in rank order, in a child's range.
fn credible(n: usize, top: u64, bottom: u64, from: u64, next: u64) -> bool
    ensures { result ≡ credible_fine n top bottom from next }
{
    (((n == 1) & (top == bottom)) | ((n != 1) & (spot::rank_key(bottom) < spot::rank_key(top))))
        & in_child(top, from, next)
        & in_child(bottom, from, next)
}

// The entry at a place, in the node of block own, of a child whose range is from one key up to the next. The size is read with the zero byte after it, which
// makes it no size where it isn't zero.
fn entry_ok(s: &[u8], a: usize, blocks: usize, own: usize, low: u64, from: u64, next: u64) -> bool
    requires { a + 28 ≤ length s.now }
    ensures { result ≡ entry_fine blocks own low from next s.now a }
{
    let b = octets::read16(s, a);
    let n = octets::count_at(s, a + 2) + 256 * octets::count_at(s, a + 3);
    let top = spot::raw_key(s, a + 12);
    let bottom = spot::raw_key(s, a + 20);
    ((1 <= b) & (b < blocks) & (own != b))
        & (((n == 0) & (octets::read64(s, a + 12) == 0) & (octets::read64(s, a + 20) == 0))
            | ((n != 0)
                & (n <= POINTS_MOST)
                & ((spot::rank_key(top) < low) & credible(n, top, bottom, from, next))))
}

// The entries, from the last to the first, in the node of block own whose keys begin at floor: what each shows, and that their lows rise. The first one's range
// field is zero, and it begins where the node does; the last one ends where the limits do, and so no key of an entry is asked for them by itself.
fn entries_ok(s: &[u8], c: usize, blocks: usize, own: usize, low: u64, floor: u64) -> bool
    requires { 40 + 28 * c ≤ length s.now }
    ensures { result ≡ entries_fine s.now c blocks own low floor }
{
    if c == 0 {
        return true;
    }
    let mut ok = true;
    let mut next = spot::END_KEY;
    for i in (1..c).rev() {
        let from = spot::raw_key(s, 12 + ENTRY_BYTES * i);
        ok = ok
            & (from < next)
            & entry_ok(
                s,
                FRONT_BYTES + ENTRY_BYTES * i,
                blocks,
                own,
                low,
                from,
                next,
            );
        next = from;
    }
    ok & (octets::read64(s, 12) == 0)
        & ((c == 1) | (floor <= next))
        & entry_ok(s, FRONT_BYTES, blocks, own, low, floor, next)
}

// No entry before the one with index j names its block.
fn fresh_ok(s: &[u8], j: usize) -> bool
    requires { 36 + 28 * j ≤ length s.now }
    ensures { result ≡ fresh_fine s.now j }
{
    let b = octets::read16(s, FRONT_BYTES + ENTRY_BYTES * j);
    let mut ok = true;
    for i in 0..j {
        ok = ok & (b != octets::read16(s, FRONT_BYTES + ENTRY_BYTES * i));
    }
    ok
}

// No two of c entries, at most eight, name one block. Every place of eight is looked at, so that the number of turns is known.
fn blocks_ok(s: &[u8], c: usize) -> bool
    requires { 232 ≤ length s.now }
    ensures { result ≡ blocks_fine s.now c }
{
    if c == 0 {
        return true;
    }
    let mut ok = true;
    for j in 0..8 {
        ok = ok & ((c <= j) | fresh_ok(s, j));
    }
    ok
}

// The number of children, of a leaf and of an inner node.
fn count_ok(level: usize, few: usize, c: usize) -> bool
    ensures { result ≡ count_fine level few c }
{
    ((level == 0) & (c == 0)) | ((level != 0) & ((few <= c) & (c <= ENTRIES_MOST)))
}

// The sizes of points, inserts and deletes, of a filled node and of one with nothing below.
fn sizes_ok(p: usize, i: usize, d: usize) -> bool
    ensures { result ≡ sizes_fine p i d }
{
    ((POINTS_LEAST <= p) & (p <= POINTS_MOST) & (i <= INSERTS_MOST) & (d <= DELETES_MOST))
        | ((p < POINTS_LEAST) & (i == 0) & (d == 0))
}

// A leaf has no inserts and no deletes.
fn leaf_ok(level: usize, i: usize, d: usize) -> bool
    ensures { result ≡ leaf_fine level i d }
{
    (level != 0) | ((i == 0) & (d == 0))
}

// The front of a node, read at this level.
fn front_ok(h: Front, level: usize, few: usize) -> bool
    requires { Small h }
    ensures { result ≡ front_fine level few h }
{
    let used = FRONT_BYTES
        + ENTRY_BYTES * h.c
        + spot::SPOT_BYTES * (h.p + h.i)
        + spot::KEY_BYTES * h.d;
    (h.used == used)
        & (used <= USED_MOST)
        & (h.version == 1)
        & (h.level == level)
        & count_ok(h.level, few, h.c)
        & sizes_ok(h.p, h.i, h.d)
        & leaf_ok(h.level, h.i, h.d)
}

// Where the keys of a node begin: where the range that leads to it does, inside the limits.
fn floor_of(a: Asked) -> u64
    ensures { result ≡ start_of a }
{
    match a {
        Asked::Root(_) => spot::START_KEY,
        Asked::Child(e) => e.low.max(spot::START_KEY),
    }
}

// The block that a node stands in.
fn own_of(a: Asked) -> usize
    ensures { result ≡ stands_in a }
{
    match a {
        Asked::Root(b) => b,
        Asked::Child(e) => e.block,
    }
}

// What the tops of a node's children lie below in rank order: its lowest point, and where it has under 32, which leaves them empty, nothing does.
fn above_tops(p: usize, low: u64) -> u64
    ensures { result ≡ above_tops p low }
{
    if p < POINTS_LEAST {
        return 0;
    }
    low
}

// The fewest children of an inner node. The keys of what leads there are of 64 bits by their type, which the entry as a record does not say.
fn fewest_of(a: Asked) -> usize
    ensures { (result ≡ fewest a) × (entry_keyed a ≡ true) }
{
    match a {
        Asked::Root(_) => 2,
        Asked::Child(e) => 4,
    }
}

// The entry agrees with the points: their number p, the lowest and the highest of their rank keys.
fn agrees_ok(a: Asked, p: usize, low: u64, high: u64) -> bool
    ensures { result ≡ agrees_fine a p low high }
{
    match a {
        Asked::Root(_) => true,
        Asked::Child(e) => {
            (e.size == p)
                & ((p == 0) | ((spot::rank_key(e.top) == high) & (spot::rank_key(e.bottom) == low)))
        }
    }
}

// What follows the front of a node.
fn body_ok(s: &[u8], blocks: usize, a: Asked, h: Front) -> bool
    requires { (length s.now ≡ 2048) × (used_of h ≤ 1896) × (h.used ≡ used_of h) }
    ensures { result ≡ body_fine s.now blocks a h }
{
    let at = FRONT_BYTES + ENTRY_BYTES * h.c;
    let ai = at + spot::SPOT_BYTES * h.p;
    let ad = at + spot::SPOT_BYTES * (h.p + h.i);
    let floor = floor_of(a);
    let Some(points) = points_of(s, at, h.p, floor) else {
        return false;
    };
    let low = points.low;
    if !(rises_under(s, ai, spot::SPOT_BYTES, h.i, floor, low)
        & rises_under(s, ad, spot::KEY_BYTES, h.d, floor, low))
    {
        return false;
    }
    apart_ok(s, ai, h.i, ad, h.d)
        & zeros(s, h.used)
        & entries_ok(s, h.c, blocks, own_of(a), above_tops(h.p, low), floor)
        & blocks_ok(s, h.c)
        & agrees_ok(a, h.p, low, points.high)
}

// All that a node block, read at this level, and the entry leading to it can show.
pub fn node_ok(s: &[u8], blocks: usize, level: usize, a: Asked) -> bool
    requires { length s.now ≡ 2048 }
    ensures { result ≡ node_ok level a (node_of blocks s.now) }
{
    let h = front_of(s);
    if !front_ok(h, level, fewest_of(a)) {
        return false;
    }
    body_ok(s, blocks, a, h)
}

// The same of block b of a table.
pub fn block_ok(t: &[u8], b: usize, level: usize, a: Asked) -> bool
    requires { b * 2048 + 2048 ≤ length t.now }
    ensures { result ≡ node_ok level a (store_of t.now b) }
{
    let from = b * BLOCK_BYTES;
    let to = from + BLOCK_BYTES;
    node_ok(&t[from..to], t.len() / BLOCK_BYTES, level, a)
}

// ---- validating block 0

// No bit from b on is set.
fn clear_from(m: &[u8], b: usize) -> bool
    requires { (length m.now ≡ 512) × (b ≤ 4096) }
    ensures { result ≡ every (λ k. not (bit m.now k)) (up_to b (4096 - b)) }
{
    let i = b / 8;
    if MAP_BYTES <= i {
        return true;
    }
    ((octets::count_at(m, i) >> (b % 8)) == 0) & zeros(m, i + 1)
}

// The map marks block 0 and the root, and no block past the last.
fn map_ok(m: &[u8], blocks: usize, root: usize) -> bool
    requires { (length m.now ≡ 512) × (blocks ≤ 4096) × (root < blocks) }
    ensures { result ≡ map_fine blocks root m.now }
{
    octets::test_bit(m, 0) & octets::test_bit(m, root) & clear_from(m, blocks)
}

// The numbers of block 0, in a table of this many bytes.
fn numbers_ok(s: &[u8], bytes: usize) -> bool
    requires { length s.now ≡ 2048 }
    ensures { result ≡ numbers_fine bytes s.now }
{
    let levels = octets::count_at(s, 5);
    let root = octets::read16(s, 6);
    (octets::read32(s, 0) == bytes as u64)
        & (octets::count_at(s, 4) == 1)
        & (1 <= levels)
        & (levels <= 7)
        & (1 <= root)
        & (root < bytes / BLOCK_BYTES)
        & (octets::read32(s, 8) <= capacity_of(bytes) as u64)
        & sized(bytes)
}

// All that block 0 can show, in a table of this many bytes.
pub fn head_ok(s: &[u8], bytes: usize) -> bool
    requires { length s.now ≡ 2048 }
    ensures { result ≡ header_ok bytes (header_of s.now) }
{
    if !numbers_ok(s, bytes) {
        return false;
    }
    map_ok(
        &s[MAP_FROM..MAP_END],
        bytes / BLOCK_BYTES,
        octets::read16(s, 6),
    ) & zeros(s, MAP_END)
}

// The same of a table.
pub fn header_ok(t: &[u8]) -> bool
    requires { 2048 ≤ length t.now }
    ensures { result ≡ header_ok (length t.now) (head_of t.now) }
{
    head_ok(&t[0..BLOCK_BYTES], t.len())
}

// ---- making a table

// The bytes of a fresh table that are not zero, past its length.
fn write_fresh(t: &mut [u8])
    requires { 4096 ≤ length t.old }
    ensures { t.new ≡ fresh_marks t.old }
{
    t[4] = 1;
    t[5] = 1;
    t[7] = 1;
    t[12] = 3;
    t[2049] = 8;
    t[2050] = 1;
}

// The empty table: one leaf and one level.
pub fn format(table: &mut [u8]) -> Result<(), Refusal>
    ensures answered { told result ≡ cond (table_sized (length table.old)) (answer 0 0) (answer 1 0) }
    ensures written { table.new ≡ cond (table_sized (length table.old)) (formatted (length table.old)) table.old }
{
    let n = table.len();
    if !sized(n) {
        return Err(Refusal::TableLength);
    }
    octets::zero(table, n);
    octets::write32(table, 0, n as u64);
    write_fresh(table);
    Ok(())
}
