// The catalogue of a pressed tour and its blocks: what they hold, whether they keep their layout, and which of them a Report reads.
#![tactic(auto)]

ghost use Rattle.std.specs.Prelude.{◌≡◌, true, ◌∷◌, ◌++◌, suc, ◌+◌, ◌*◌, ◌-◌, ◌≤◌, ◌<◌, MatchOption, length, take, drop, eqb};
ghost use Rattle.octets.specs.Lists.{every, up_to};
ghost use Rattle.spot.specs.Keys.{limited};
ghost use Rattle.spot.specs.Spots.{keys_from};
ghost use Rattle.sweep.specs.Report.{meets_span};
ghost use Rattle.catalogue.specs.Catalogue.{tour_sized, tile_entry_at, size_fine, span_fine, made_fine, ended_fine, tile_entry_fine, apart, makers_rise, in_spans, ended_both, fused_fine, joins, joins_all, entries_agree, catalogue_fine, above_maker, tile_fine, stands, asks};
ghost use Rattle.catalogue.specs.Rows.{Numbered, held, pair_at, RowFits};
ghost use Rattle.catalogue.specs.Reading.{Listed, LimitedEntry};

// What the catalogue says of a block: its number of spots, the lowest and the highest key, and the keys whose passing made and ended it.
#[derive(Clone, Copy)]
pub struct Entry {
    pub size: usize,
    pub low: u64,
    pub high: u64,
    pub made: u64,
    pub ended: u64,
}

// The blocks that stand, from left to right.
// Stays: memory of a fixed size, with the number of entries beside it, since there is no heap.
#[derive(Clone, Copy)]
struct Row {
    n: usize,
    blocks: [usize; 8],
}

pub fn sized(bytes: usize) -> bool
    ensures { result ≡ tour_sized bytes }
{
    (bytes % 2048 == 0) & (1 <= bytes / 2048) & (bytes / 2048 <= 16)
}

// The entry of block b, as it stands in a catalogue that may break its layout.
fn entry_at(s: &[u8], b: usize) -> Entry
    requires { Numbered b × (length s.now ≡ 2048) }
    ensures { result ≡ tile_entry_at s.now b }
{
    let at = 8 + 36 * (b - 1);
    Entry {
        size: octets::read32(s, at) as usize,
        low: spot::raw_key(s, at + 4),
        high: spot::raw_key(s, at + 12),
        made: spot::raw_key(s, at + 20),
        ended: spot::raw_key(s, at + 28),
    }
}

// The key's place is inside the limits.
fn limited_key(k: u64) -> bool
    ensures { result ≡ limited k }
{
    (spot::START_KEY <= k) & (k < spot::END_KEY)
}

// In a tour of m blocks block b may have n spots.
fn size_ok(m: usize, b: usize, n: usize) -> bool
    ensures { result ≡ size_fine m b n }
{
    if b == m / 2 {
        return (1 <= n) & (n <= 64);
    }
    n == 64
}

// The passing of key k may have made block b, or none did.
fn made_ok(m: usize, b: usize, k: u64) -> bool
    ensures { result ≡ made_fine m b k }
{
    if b <= m / 2 {
        return k == plan::NO_KEY;
    }
    limited_key(k)
}

// Block b is the last of m.
fn is_last(m: usize, b: usize) -> bool
    ensures { result ≡ eqb (suc b) m }
{
    if m <= b {
        return false;
    }
    m - b == 1
}

// The passing of key k may have ended block b, or none did.
fn ended_ok(m: usize, b: usize, k: u64) -> bool
    ensures { result ≡ ended_fine m b k }
{
    if is_last(m, b) {
        return k == plan::NO_KEY;
    }
    limited_key(k)
}

// The lowest and the highest key of n spots.
fn span_ok(n: usize, low: u64, high: u64) -> bool
    ensures { result ≡ span_fine n low high }
{
    if n == 1 {
        return low == high;
    }
    low < high
}

fn entry_ok(m: usize, b: usize, e: Entry) -> bool
    ensures { result ≡ tile_entry_fine m b e }
{
    size_ok(m, b, e.size)
        & span_ok(e.size, e.low, e.high)
        & limited_key(e.low)
        & limited_key(e.high)
        & made_ok(m, b, e.made)
        & ended_ok(m, b, e.ended)
}

// All entries of a tour of m blocks.
fn entries_ok(s: &[u8], m: usize) -> bool
    requires { (1 ≤ m) × (m ≤ 16) × (length s.now ≡ 2048) }
    ensures { result ≡ every (λ b. tile_entry_fine m b (tile_entry_at s.now b)) (up_to 1 (m - 1)) }
{
    (1..m).all(|b| entry_ok(m, b, entry_at(s, b)))
}

// ---- what the entries show of each other

// Block b ends before the next one begins.
fn apart(s: &[u8], b: usize) -> bool
    requires { (1 ≤ b) × (b < 15) × (length s.now ≡ 2048) }
    ensures { result ≡ apart (tile_entry_at s.now) b }
{
    entry_at(s, b).high < entry_at(s, b + 1).low
}

// The l place blocks.
fn apart_all(s: &[u8], l: usize) -> bool
    requires { (l ≤ 8) × (length s.now ≡ 2048) }
    ensures { result ≡ every (apart (tile_entry_at s.now)) (up_to 1 (l - 1)) }
{
    (1..l).all(|b| apart(s, b))
}

// The passing that made block b came before the one that made the next.
fn makers_rise(s: &[u8], b: usize) -> bool
    requires { (1 ≤ b) × (b < 15) × (length s.now ≡ 2048) }
    ensures { result ≡ makers_rise (tile_entry_at s.now) b }
{
    spot::rank_key(entry_at(s, b).made) < spot::rank_key(entry_at(s, b + 1).made)
}

// The fused blocks, those behind l place blocks of m.
fn makers_rise_all(s: &[u8], l: usize, m: usize) -> bool
    requires { (m ≤ 16) × (l ≤ 8) × (length s.now ≡ 2048) }
    ensures { result ≡ every (makers_rise (tile_entry_at s.now)) (up_to (suc l) (m - l - 2)) }
{
    (l + 1..m.saturating_sub(1)).all(|b| makers_rise(s, b))
}

// The key lies in the span of x or of y.
fn in_spans(x: Entry, y: Entry, k: u64) -> bool
    ensures { result ≡ in_spans x y k }
{
    ((x.low <= k) & (k <= x.high)) | ((y.low <= k) & (k <= y.high))
}

// The fused block z may have been made of x and y.
fn fused_ok(z: Entry, x: Entry, y: Entry) -> bool
    ensures { result ≡ fused_fine z x y }
{
    let maker = spot::rank_key(z.made);
    in_spans(x, y, z.made)
        & in_spans(x, y, z.low)
        & in_spans(x, y, z.high)
        & (maker < spot::rank_key(z.low))
        & (maker < spot::rank_key(z.high))
}

// The passing of p ended both.
fn ended_both(p: u64, x: Entry, y: Entry) -> bool
    ensures { result ≡ ended_both p x y }
{
    (x.ended == p) & (y.ended == p)
}

// The place of the first of two side by side that the passing of p ended.
fn pair_at(s: &[u8], row: Row, p: u64) -> Option<usize>
    requires { RowFits row × (length s.now ≡ 2048) }
    ensures { MatchOption result (row.n ≤ pair_at (tile_entry_at s.now) p (held row) + 1) (λ i. (i ≡ pair_at (tile_entry_at s.now) p (held row)) × (i + 1 < row.n)) }
{
    let pairs = row.n.saturating_sub(1);
    for i in 0..pairs {
        let x = entry_at(s, row.blocks[i]);
        let y = entry_at(s, row.blocks[i + 1]);
        if ended_both(p, x, y) {
            return Some(i);
        }
    }
    None
}

// Block b fits the two that its maker ended, the first of which stands at i.
fn joins(s: &[u8], row: Row, i: usize, b: usize) -> bool
    requires { RowFits row × Numbered b × (length s.now ≡ 2048) × (i + 1 < row.n) × (i ≡ pair_at (tile_entry_at s.now) (tile_entry_at s.now b).made (held row)) }
    ensures { result ≡ joins (tile_entry_at s.now) b (held row) }
{
    let x = entry_at(s, row.blocks[i]);
    let y = entry_at(s, row.blocks[i + 1]);
    fused_ok(entry_at(s, b), x, y)
}

// Block b in the place of the i-th block and the next one.
fn joined(row: Row, i: usize, b: usize) -> Row
    requires { RowFits row × (i + 1 < row.n) × Numbered b }
    ensures { RowFits result × (held result ≡ take i (held row) ++ (b ∷ drop (suc (suc i)) (held row))) }
{
    Row {
        n: row.n - 1,
        blocks: plan::closed(row.blocks, i, row.n, b),
    }
}

// The first l blocks.
fn first_row(l: usize) -> Row
    requires { l ≤ 8 }
    ensures { RowFits result × (held result ≡ up_to 1 l) }
{
    Row {
        n: l,
        blocks: [1, 2, 3, 4, 5, 6, 7, 8],
    }
}

// Each fused block takes the place of two that stood side by side; of m blocks l are place blocks.
fn joins_all(s: &[u8], l: usize, m: usize) -> bool
    requires { (m ≤ 16) × (l ≤ 8) × (length s.now ≡ 2048) }
    ensures { result ≡ joins_all (tile_entry_at s.now) (up_to (suc l) (m - l - 1)) (up_to 1 l) }
{
    let mut row = first_row(l);
    for b in l + 1..m {
        let Some(i) = pair_at(s, row, entry_at(s, b).made) else {
            return false;
        };
        if !joins(s, row, i, b) {
            return false;
        }
        row = joined(row, i, b);
    }
    true
}

// The entries of a tour of m blocks.
fn entries_agree(s: &[u8], m: usize) -> bool
    requires { (m ≤ 16) × (length s.now ≡ 2048) }
    ensures { result ≡ entries_agree m (tile_entry_at s.now) }
{
    let l = m / 2;
    apart_all(s, l) & makers_rise_all(s, l, m) & joins_all(s, l, m)
}

// ---- the catalogue and the blocks

// The catalogue of a tour of so many bytes.
pub fn catalogue_ok(s: &[u8], bytes: usize) -> bool
    requires { (tour_sized bytes ≡ true) × (length s.now ≡ 2048) }
    ensures { result ≡ catalogue_fine bytes s.now }
{
    let m = bytes / 2048;
    let long = octets::read32(s, 0) == bytes as u64;
    let version = octets::read32(s, 4) == 16777216;
    let count = (m == 1) | (m % 2 == 0);
    let tail = block::zeros(s, 8 + 36 * (m - 1));
    long & version & count & entries_ok(s, m) & tail & entries_agree(s, m)
}

// The entry of block b, where the catalogue is in order: every identity in it is inside the limits.
pub fn read_entry(s: &[u8], b: usize) -> Entry
    requires { Listed s.now b }
    ensures { (result ≡ tile_entry_at s.now b) × LimitedEntry result }
{
    let at = 8 + 36 * (b - 1);
    Entry {
        size: octets::read32(s, at) as usize,
        low: spot::read_key(s, at + 4),
        high: spot::read_key(s, at + 12),
        made: spot::read_key(s, at + 20),
        ended: spot::read_key(s, at + 28),
    }
}

// The keys of block b of m are above the passing that made it, in rank order.
fn above_maker(s: &[u8], m: usize, b: usize, e: Entry) -> bool
    requires { (e.size ≤ 64) × (length s.now ≡ 2048) }
    ensures { result ≡ every (above_maker m b e) (keys_from s.now 12 e.size 0) }
{
    let unmade = b <= m / 2;
    let maker = spot::rank_key(e.made);
    (0..e.size).all(|i| unmade | (maker < spot::rank_key(spot::raw_key(s, 12 * i))))
}

// The bytes of block b of m, which the entry e leads to.
pub fn tile_ok(s: &[u8], m: usize, b: usize, e: Entry) -> bool
    requires { (1 ≤ e.size) × (e.size ≤ 64) × (length s.now ≡ 2048) }
    ensures { result ≡ tile_fine m b e s.now }
{
    let n = e.size;
    let first = spot::raw_key(s, 0) == e.low;
    let last = spot::raw_key(s, 12 * (n - 1)) == e.high;
    let tail = block::zeros(s, 12 * n);
    block::rises(s, 0, 12, n, 0) & first & last & tail & above_maker(s, m, b, e)
}

// Block b of m stands once all ranks under the query's are passed. That a block was made, or ended, is told by its position.
fn standing(q: spot::Query, m: usize, b: usize, e: Entry) -> bool
    ensures { result ≡ stands q m b e }
{
    let places = m / 2;
    let least = spot::least_of(q);
    let made = (b <= places) | (e.made % 4294967296 < least);
    let lasts = is_last(m, b) | (least <= e.ended % 4294967296);
    made & lasts
}

// Its span meets the query's places.
fn meets(q: spot::Query, e: Entry) -> bool
    ensures { result ≡ meets_span q e.low e.high }
{
    spot::ends(q, spot::from_key(q) <= e.high, e.low <= spot::last_key(q))
}

// A Report of a tour of m blocks reads block b.
pub fn asks(q: spot::Query, m: usize, b: usize, e: Entry) -> bool
    ensures { result ≡ asks q m b e }
{
    standing(q, m, b, e) & meets(q, e)
}
