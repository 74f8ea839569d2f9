// Lays a sorted list of spots out as a sound table: the path that always succeeds.
#![tactic(auto)]

ghost use Rattle.std.specs.Prelude.{◌≡◌, true, ◌∷◌, [], ◌++◌, ◌+◌, ◌*◌, ◌^◌, ◌≤◌, ◌<◌, length};
ghost use Rattle.spot.specs.Keys.{rank_key, within};
ghost use Rattle.spot.specs.Spots.{spots_from};
ghost use Rattle.block.specs.Table.{table_sized, blocks_of, capacity};
ghost use Rattle.block.specs.Header.{header_of};
ghost use Rattle.block.specs.Node.{first_open};
ghost use Rattle.buffer.specs.Buffer.{held, Ordered};
ghost use Rattle.node.specs.Memory.{entries_of, EntryFits};
ghost use Rattle.rebuild_theory.specs.Build.{nodes, shape_of, band, first_spot_key, BuildPost, Rebuilt};
ghost use Rattle.build.specs.Building.{limit_of, Segment, Cut, Buildable, HeaderFits, HeaderWritten, ShapeIs, NumbersAre, HeadSays, FirstMarked, EntryOfPoints, Own, OwnPut};

// The fan-outs of a tree: the root has `fan` children, each of those `next`, every other inner node 6; `height` levels lie below the root.
#[derive(Clone, Copy)]
pub struct Fans {
    pub fan: usize,
    pub next: usize,
    pub height: usize,
}

// The key's rank key is at least the cut and under the limit. A limit is the last rank key that it admits, or none.
pub fn in_band(k: u64, cut: u64, limit: Option<u64>) -> bool
    ensures { result ≡ within cut (limit_of limit) (rank_key k) }
{
    let r = spot::rank_key(k);
    match limit {
        None => false,
        Some(last) => (cut <= r) & (r <= last),
    }
}

// How many of the n spots from `from` on lie in the band.
pub fn count_band(list: &[u8], from: usize, n: usize, cut: u64, limit: Option<u64>) -> usize
    requires { Segment list.now from n }
    ensures { (result ≡ length (band cut (limit_of limit) (spots_from list.now from n))) × (result ≤ n) }
{
    let mut sum = 0;
    for i in 0..n {
        let k = spot::read_key(list, spot::SPOT_BYTES * (from + i));
        if in_band(k, cut, limit) {
            sum += 1;
        }
    }
    sum
}

// Puts a rank key in its place among the highest 48, which stand rising, where it is higher than the least; that one falls out.
fn admit(top: &mut [u64], r: u64)
    requires { length top.old ≡ 48 }
    ensures { length top.new ≡ 48 }
{
    if r <= top[0] {
        return;
    }
    for j in 0..47 {
        let next = top[j + 1];
        if r <= next {
            top[j] = r;
            return;
        }
        top[j] = next;
    }
    top[47] = r;
}

// The 48th of the rank keys under the limit from the highest down, or 0 where they are 64 at most. Only a proposal: no proof rests on it.
fn likely_cut(list: &[u8], from: usize, n: usize, limit: Option<u64>) -> u64
    requires { Segment list.now from n }
{
    let mut top = [0u64; 48];
    let mut all: usize = 0;
    for i in 0..n {
        let k = spot::read_key(list, spot::SPOT_BYTES * (from + i));
        if in_band(k, 0, limit) {
            all += 1;
            admit(&mut top, spot::rank_key(k));
        }
    }
    if all <= block::POINTS_MOST {
        return 0;
    }
    top[0]
}

// Whether the cut is one by which the node takes 32 to 64 spots, or all.
fn cut_fits(list: &[u8], from: usize, n: usize, limit: Option<u64>, cut: u64) -> bool
    requires { Segment list.now from n }
    ensures { result ≡ true → Cut list.now from n limit cut }
{
    let taken = count_band(list, from, n, cut, limit);
    if block::POINTS_MOST < taken {
        return false;
    }
    if cut == 0 {
        return true;
    }
    block::POINTS_LEAST <= taken
}

// Such a cut found by halving, in as many passes as a rank key has bits at most.
fn halved_cut(list: &[u8], from: usize, n: usize, limit: Option<u64>) -> u64
    requires { Segment list.now from n }
    ensures { Cut list.now from n limit result }
{
    if count_band(list, from, n, 0, limit) <= block::POINTS_MOST {
        return 0;
    }
    let mut lo = 0; // Stays: a halving, which has no range to run over.
    let mut hi = limit.unwrap_or(0);
    while lo < hi {
        let mid = lo + (hi - lo) / 2;
        let taken = count_band(list, from, n, mid, limit);
        if block::POINTS_MOST < taken {
            lo = mid;
        } else {
            if block::POINTS_LEAST <= taken {
                return mid;
            }
            hi = mid;
        }
    }
    lo
}

// A cut by which the node takes 32 to 64 spots, or all. The likely one fits always; that it does is not proved but tested, which costs one pass.
pub fn choose_cut(list: &[u8], from: usize, n: usize, limit: Option<u64>) -> u64
    requires { Segment list.now from n }
    ensures { Cut list.now from n limit result }
{
    let cut = likely_cut(list, from, n, limit);
    if cut_fits(list, from, n, limit, cut) {
        return cut;
    }
    halved_cut(list, from, n, limit)
}

// The spots of the band, in place order.
pub fn take_band(
    list: &[u8],
    from: usize,
    n: usize,
    cut: u64,
    limit: Option<u64>,
) -> buffer::SpotBuffer
    requires { Segment list.now from n × (length (band cut (limit_of limit) (spots_from list.now from n)) ≤ 64) }
    ensures { Ordered result × (held result ≡ band cut (limit_of limit) (spots_from list.now from n)) × (result.n ≤ 64) }
{
    let mut out: buffer::SpotBuffer = buffer::empty();
    for i in 0..n {
        let s = spot::read_spot(list, spot::SPOT_BYTES * (from + i));
        if in_band(s.key, cut, limit) {
            let at = out.n;
            out.spots[at] = s;
            out.n = at + 1;
        }
    }
    out
}

// The number of nodes of a tree.
pub fn nodes_of(fan: usize, next: usize, height: usize) -> usize
    requires { (fan ≤ 8) × (next ≤ 8) × (height ≤ 6) }
    ensures { (result ≡ nodes (shape_of fan next height)) × (result ≤ 9 ^ height) }
{
    if height == 0 {
        return 1;
    }
    1 + fan * nodes_of(next, 6, height - 1)
}

// The shapes used, in rising order: the number of leaves, the fan-out of the root, that of its children, and the levels below the root.
const SHAPES: [(usize, usize, usize, usize); 31] = [
    (1, 0, 0, 0),
    (2, 2, 6, 1),
    (3, 3, 6, 1),
    (4, 4, 6, 1),
    (6, 6, 6, 1),
    (8, 8, 6, 1),
    (10, 2, 5, 2),
    (12, 2, 6, 2),
    (15, 3, 5, 2),
    (18, 3, 6, 2),
    (24, 4, 6, 2),
    (30, 5, 6, 2),
    (36, 6, 6, 2),
    (48, 8, 6, 2),
    (60, 2, 5, 3),
    (72, 2, 6, 3),
    (90, 3, 5, 3),
    (108, 3, 6, 3),
    (144, 4, 6, 3),
    (180, 5, 6, 3),
    (216, 6, 6, 3),
    (288, 8, 6, 3),
    (360, 2, 5, 4),
    (432, 2, 6, 4),
    (540, 3, 5, 4),
    (648, 3, 6, 4),
    (864, 4, 6, 4),
    (1080, 5, 6, 4),
    (1296, 6, 6, 4),
    (1728, 8, 6, 4),
    (2160, 2, 5, 5),
];

// The shape for n spots: the first with room for them at 32 a leaf.
pub fn shape_of(n: usize) -> Fans
    requires { n ≤ 65520 }
    ensures { ShapeIs n result }
{
    let mut i = 0; // Stays: the search ends inside the table, as is proved; a range would need an answer behind its end.
    while block::POINTS_LEAST * SHAPES[i].0 < n {
        i += 1;
    }
    let (_, fan, next, height) = SHAPES[i];
    Fans { fan, next, height }
}

// The numbers of block 0, and zeros in the rest of it.
fn write_numbers(s: &mut [u8], bytes: u64, levels: usize, bound: u64)
    requires { (length s.old ≡ 2048) × (bytes < 4294967296) × (levels < 256) × (bound < 4294967296) }
    ensures { NumbersAre s.new bytes levels bound }
{
    octets::zero(s, block::BLOCK_BYTES);
    octets::write32(s, 0, bytes);
    octets::write8(s, 4, 1);
    octets::write8(s, 5, levels);
    octets::write16(s, 6, 1);
    octets::write32(s, 8, bound);
}

// Marks the blocks up to `last` in a map.
fn mark_to(map: &mut [u8], last: usize)
    requires { (last < 8 * length map.old) × (length map.old ≤ 512) }
    ensures { FirstMarked map.old map.new last }
{
    for i in 0..=last {
        octets::set_bit(map, i);
    }
}

// The bytes of block 0.
fn write_head(s: &mut [u8], bytes: u64, levels: usize, bound: u64, last: usize)
    requires { (length s.old ≡ 2048) × (bytes < 4294967296) × (levels < 256) × (bound < 4294967296) × (last < 4096) }
    ensures { HeadSays (header_of s.new) bytes levels bound last }
{
    write_numbers(s, bytes, levels, bound);
    mark_to(&mut s[block::MAP_FROM..block::MAP_END], last);
}

// Block 0: root block 1, blocks 0 to `last` in use.
pub fn write_header(t: &mut [u8], levels: usize, bound: usize, last: usize)
    requires { HeaderFits t.old levels bound last }
    ensures { HeaderWritten t.old t.new levels bound last }
{
    let bytes = t.len() as u64;
    write_head(
        &mut t[0..block::BLOCK_BYTES],
        bytes,
        levels,
        bound as u64,
        last,
    );
}

// ---- the entries of a node

fn no_entries() -> node::Entries
    ensures { (result.n ≡ 0) × (entries_of result ≡ []) }
{
    let none = block::Entry {
        block: 0,
        size: 0,
        low: 0,
        top: 0,
        bottom: 0,
    };
    node::Entries {
        n: 0,
        list: [none; 8],
    }
}

// One entry more, at the end.
fn add_entry(es: node::Entries, e: block::Entry) -> node::Entries
    requires { es.n < 8 }
    ensures { (result.n ≡ es.n + 1) × (entries_of result ≡ entries_of es ++ (e ∷ [])) }
{
    let n = es.n;
    let mut next = es;
    next.list[n] = e;
    next.n = n + 1;
    next
}

// The first entry's range has no lower end of its own.
fn open_first(es: node::Entries) -> node::Entries
    requires { es.n ≤ 8 }
    ensures { (result.n ≡ es.n) × (entries_of result ≡ first_open (entries_of es)) }
{
    let mut next = es;
    let e = next.list[0];
    next.list[0] = block::Entry {
        block: e.block,
        size: e.size,
        low: 0,
        top: e.top,
        bottom: e.bottom,
    };
    next
}

// ---- a node and its entry

// The lowest key of a segment, 0 where it is empty.
fn first_key(list: &[u8], from: usize, n: usize) -> u64
    requires { Segment list.now from n }
    ensures { result ≡ first_spot_key (spots_from list.now from n) }
{
    if n == 0 {
        return 0;
    }
    spot::read_key(list, spot::SPOT_BYTES * from)
}

// The entry of a node in block b with these points: the highest and the lowest in rank order, 0 where there are none.
fn entry_for(b: usize, low: u64, points: buffer::SpotBuffer) -> block::Entry
    requires { Ordered points × (points.n ≤ 64) × (b < 65536) }
    ensures { EntryOfPoints b low (held points) result }
{
    let size = points.n;
    if size == 0 {
        return block::Entry {
            block: b,
            size: 0,
            low,
            top: 0,
            bottom: 0,
        };
    }
    let high = buffer::highest(points);
    let least = buffer::lowest(points);
    block::Entry {
        block: b,
        size,
        low,
        top: high.key,
        bottom: least.key,
    }
}

// Stores the node of a segment in block b: its points are those of the band. Returns its entry.
fn put_own(
    t: &mut [u8],
    list: &[u8],
    from: usize,
    n: usize,
    cut: u64,
    limit: Option<u64>,
    level: usize,
    es: node::Entries,
    b: usize,
) -> block::Entry
    requires { Own t.old list.now from n cut (limit_of limit) level es b }
    ensures { OwnPut t.old t.new b level (entries_of es) (band cut (limit_of limit) (spots_from list.now from n)) (first_spot_key (spots_from list.now from n)) result }
{
    let points = take_band(list, from, n, cut, limit);
    let entries = open_first(es);
    let inserts = buffer::empty();
    let deletes = buffer::empty();
    let own = node::NodeValue {
        level,
        entries,
        points,
        inserts,
        deletes,
    };
    node::put_node(t, b, own);
    let low = first_key(list, from, n);
    entry_for(b, low, points)
}

// ---- the tree

// The limit that admits what lies under a cut.
fn limit_at(cut: u64) -> Option<u64>
    ensures { limit_of result ≡ cut }
{
    cut.checked_sub(1)
}

// Builds the tree of a segment of the list from block b on: the spots under the limit. The node takes those from a cut on; the children share the segment
// evenly, with the cut as their limit.
pub fn build(
    t: &mut [u8],
    list: &[u8],
    from: usize,
    n: usize,
    limit: Option<u64>,
    fans: Fans,
    b: usize,
) -> block::Entry
    requires { Buildable t.old list.now from n fans.fan fans.next fans.height b }
    ensures { BuildPost (blocks_of (length t.old)) (shape_of fans.fan fans.next fans.height) b (spots_from list.now from n) (limit_of limit) t.old t.new result × EntryFits result }
{
    let mut es = no_entries();
    let height = fans.height;
    if height == 0 {
        return put_own(t, list, from, n, 0, limit, 0, es, b);
    }
    let fan = fans.fan;
    let cut = choose_cut(list, from, n, limit);
    let under = limit_at(cut);
    let below = Fans {
        fan: fans.next,
        next: 6,
        height: height - 1,
    };
    let width = nodes_of(fans.next, 6, height - 1);
    let mut left = n;
    for j in 0..fan {
        let share = left / (fan - j);
        let start = from + (n - left);
        let at = b + 1 + j * width;
        let e = build(t, list, start, share, under, below, at);
        es = add_entry(es, e);
        left -= share;
    }
    put_own(t, list, from, n, cut, limit, height, es, b)
}

// The table built whole from the n spots at the front of the list.
pub fn build_table(t: &mut [u8], list: &[u8], n: usize)
    requires { (table_sized (length t.old) ≡ true) × (n ≤ capacity (length t.old)) × Segment list.now 0 n }
    ensures { Rebuilt t.new (spots_from list.now 0 n) × (length t.new ≡ length t.old) }
{
    let fans = shape_of(n);
    let _root = build(t, list, 0, n, Some(u64::MAX), fans, 1);
    let last = nodes_of(fans.fan, fans.next, fans.height);
    write_header(t, fans.height + 1, n, last);
}
