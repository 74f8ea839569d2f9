// Reading one node during a walk: which of its spots a query takes, given what waits in the nodes above, and which children it reads.
#![tactic(auto)]

ghost use Rattle.std.specs.Prelude.{◌≡◌, true, false, ◌⊎◌, ◌∷◌, [], ◌++◌, ◌+◌, ◌*◌, ◌≤◌, ◌<◌, length, take, ltb, Some};
ghost use Rattle.octets.specs.Lists.{has};
ghost use Rattle.octets.specs.Bytes.{be};
ghost use Rattle.spot.specs.Query.{meets, least_of, is_ring, all_places};
ghost use Rattle.block.specs.Node.{store_of};
ghost use Rattle.block.specs.NodeRules.{ValidBlock, ValidBytes};
ghost use Rattle.block.specs.declared.Asked.TheVariants.{Child};
ghost use Rattle.tree.specs.Walk.{admits};
ghost use Rattle.visit.specs.Visit.{end_of, part_of, above, waiting, waiting_above, ValidPath, WaitsGathered, KeysKept, keys_from, Ready, AllWanted, RangeMarks, Unmarked, Through, Wanted, Blank, Struck, Marks, marks_in, below_in, taken, child_span, entries_in};

// A range of keys, from lo up to, and without, hi, or to the end.
#[derive(Clone, Copy)]
pub struct Span {
    pub lo: u64,
    pub hi: Option<u64>,
}

// The blocks of the nodes above a node, from the root on. Of the changes that wait in them the `waits` with a key from lo to last are gathered in a list that
// goes with the path: those near the node are few, and they are looked for once.
// Stays: the repository has no heap, so that the blocks and the list have their numbers, n and waits, beside them.
#[derive(Clone, Copy)]
pub struct Path {
    pub n: usize,
    pub blocks: [usize; 8],
    pub lo: u64,
    pub last: u64,
    pub waits: usize,
}

// The key lies before the end of the range.
pub fn before_end(s: Span, k: u64) -> bool
    ensures { result ≡ ltb k (end_of s) }
{
    match s.hi {
        Some(hi) => k < hi,
        None => true,
    }
}

// The range holds a key of the query's places.
pub fn meets_span(q: spot::Query, s: Span) -> bool
    ensures { result ≡ meets q s.lo (end_of s) }
{
    let first = before_end(s, spot::from_key(q));
    let last = s.lo <= spot::last_key(q);
    before_end(s, s.lo) & spot::ends(q, first, last)
}

// The child that an entry leads to is read.
pub fn admits_child(q: spot::Query, e: block::Entry, s: Span) -> bool
    ensures { result ≡ admits q (part_of e.block (Child e) s) }
{
    (e.size != 0) & (spot::least_of(q) <= spot::rank_key(e.top) / 4294967296) & meets_span(q, s)
}

// How many eights of the n keys, w bytes apart from at on, are below k; they rise. No branch depends on a key, here and in `near`: a branch that none can
// foresee costs more than the keys read in vain.
fn eighths(t: &[u8], at: usize, w: usize, n: usize, k: u64) -> usize
    requires { Ready t.now at w n }
    ensures { (8 * result ≤ below_in k (keys_from t.now w n at)) × (below_in k (keys_from t.now w n at) < 8 * result + 8) }
{
    let m = n / 8;
    let mut c: usize = 0;
    for j in 0..m {
        c += (spot::read_key(t, at + w * (8 * j + 7)) < k) as usize;
    }
    c
}

// How many of those keys are below k, if the first a are and those from e on are not.
fn near(t: &[u8], at: usize, w: usize, n: usize, k: u64, a: usize, e: usize) -> usize
    requires { Ready t.now at w n × (a ≤ below_in k (keys_from t.now w n at)) × (below_in k (keys_from t.now w n at) ≤ e) × (e ≤ n) }
    ensures { result ≡ below_in k (keys_from t.now w n at) }
{
    let mut r = a;
    for i in a..e {
        r += (spot::read_key(t, at + w * i) < k) as usize;
    }
    r
}

// How many of the n keys, w bytes apart from at on, are below k; they rise.
pub fn below(t: &[u8], at: usize, w: usize, n: usize, k: u64) -> usize
    requires { Ready t.now at w n }
    ensures { (result ≡ below_in k (keys_from t.now w n at)) × (result ≤ n) }
{
    let a = 8 * eighths(t, at, w, n, k);
    if n < a + 8 {
        return near(t, at, w, n, k, a, n);
    }
    near(t, at, w, n, k, a, a + 8)
}

// One of those keys is k.
pub fn has_key(t: &[u8], at: usize, w: usize, n: usize, k: u64) -> bool
    requires { Ready t.now at w n }
    ensures { result ≡ has k (keys_from t.now w n at) }
{
    let i = below(t, at, w, n, k);
    if n <= i {
        return false;
    }
    spot::read_key(t, at + w * i) == k
}

// The query wants each of the n spots from at on, which rise: it asks for no rank, and what lies between two keys that pass the tests at the ends is of its
// places; of a ring that is a run wholly on one side.
fn wants_all(t: &[u8], at: usize, n: usize, q: spot::Query) -> bool
    requires { Ready t.now at 12 n }
    ensures { result ≡ true → AllWanted t.now at n q }
{
    if n == 0 {
        return false;
    }
    let first = spot::read_key(t, at);
    let last = spot::read_key(t, at + 12 * (n - 1));
    (spot::least_of(q) == 0) & spot::ends(q, spot::from_key(q) <= first, last <= spot::last_key(q))
}

// Marks from a on, before e.
// Stays: a may lie above e, where there is no slice to fill.
fn range_marks(a: usize, e: usize) -> [bool; 64]
    requires { e ≤ 64 }
    ensures { RangeMarks a e result }
{
    let mut m = [false; 64];
    for i in a..e {
        m[i] = true;
    }
    m
}

// Takes the marks away from a on, before e.
// Stays: as in `range_marks`, there may be no slice from a to e.
fn unmarked(m: [bool; 64], a: usize, e: usize) -> [bool; 64]
    requires { (e ≤ 64) × (length m ≡ 64) }
    ensures { Unmarked a e m result }
{
    let mut left = m;
    for i in a..e {
        left[i] = false;
    }
    left
}

// Marks those of the n spots from at on that the query wants, each tested; it is no ring.
fn wanted_each(t: &[u8], at: usize, n: usize, q: spot::Query) -> [bool; 64]
    requires { Ready t.now at 12 n × (is_ring q ≡ false) }
    ensures { Wanted t.now at n q result }
{
    let mut m = [false; 64];
    for i in 0..n {
        let place = spot::read_place(t, at + 12 * i);
        let rank = spot::read_rank(t, at + 12 * i);
        m[i] = spot::wanted(place, rank, q.x1, q.x2, q.y);
    }
    m
}

// How many of the n spots from at on, which rise, have a key up to k.
fn through(t: &[u8], at: usize, n: usize, k: u64) -> usize
    requires { Ready t.now at 12 n }
    ensures { Through t.now at n k result }
{
    if n == 0 {
        return 0;
    }
    if spot::read_key(t, at + 12 * (n - 1)) <= k {
        return n;
    }
    below(t, at, 12, n, k + 1)
}

// Marks those of the n spots from at on, which rise, that are of the query's places; it asks for no rank, and is no ring.
fn placed_marks(t: &[u8], at: usize, n: usize, q: spot::Query) -> [bool; 64]
    requires { Ready t.now at 12 n × (least_of q ≡ 0) × (is_ring q ≡ false) }
    ensures { Wanted t.now at n q result }
{
    let a = below(t, at, 12, n, spot::from_key(q));
    let e = through(t, at, n, spot::last_key(q));
    range_marks(a, e)
}

// Marks those of the n spots from at on that have a rank of at least y.
fn ranked_marks(t: &[u8], at: usize, n: usize, y: i32) -> [bool; 64]
    requires { Ready t.now at 12 n }
    ensures { Wanted t.now at n (all_places y) result }
{
    let q = spot::all_places(y);
    if spot::least_of(q) == 0 {
        return range_marks(0, n);
    }
    wanted_each(t, at, n, q)
}

// Marks those of the n spots from at on, which rise, that a ring wants: those in the gap stand together.
fn ring_marks(t: &[u8], at: usize, n: usize, q: spot::Query) -> [bool; 64]
    requires { Ready t.now at 12 n × (is_ring q ≡ true) }
    ensures { Wanted t.now at n q result }
{
    let m = ranked_marks(t, at, n, q.y);
    let a = through(t, at, n, spot::last_key(q));
    let e = below(t, at, 12, n, spot::from_key(q));
    unmarked(m, a, e)
}

// Marks those of the n spots from at on, which rise, that the query wants.
fn wanted(t: &[u8], at: usize, n: usize, q: spot::Query) -> [bool; 64]
    requires { Ready t.now at 12 n }
    ensures { Wanted t.now at n q result }
{
    if wants_all(t, at, n, q) {
        return range_marks(0, n);
    }
    if spot::is_ring(q) {
        return ring_marks(t, at, n, q);
    }
    if spot::least_of(q) == 0 {
        return placed_marks(t, at, n, q);
    }
    wanted_each(t, at, n, q)
}

// The first of the n spots that rise from at on whose key is not below k; those before a are below it.
fn onward(t: &[u8], at: usize, n: usize, k: u64, a: usize) -> usize
    requires { Ready t.now at 12 n × (a ≤ below_in k (keys_from t.now 12 n at)) }
    ensures { result ≡ below_in k (keys_from t.now 12 n at) }
{
    for i in a..n {
        if k <= spot::read_key(t, at + 12 * i) {
            return i;
        }
    }
    n
}

// Takes the mark from the spot with key k, if it is among the n that rise from at on, and says how many are below k; the first a are.
fn strike_key(t: &[u8], at: usize, n: usize, m: &mut [bool], k: u64, a: usize) -> usize
    requires { Ready t.now at 12 n × (n ≤ length m.old) × (a ≤ below_in k (keys_from t.now 12 n at)) }
    ensures { (result ≡ below_in k (keys_from t.now 12 n at)) × Struck t.now at n (k ∷ []) m.old m.new }
{
    let i = onward(t, at, n, k, a);
    if i < n {
        m[i] = m[i] & (spot::read_key(t, at + 12 * i) != k);
    }
    i
}

// Takes the marks from those with one of c rising keys, w bytes apart from a on: only keys from lo to hi are looked for, the spots outside have no mark. As
// the keys rise, one pass over the spots serves them all.
fn strike(
    t: &[u8],
    at: usize,
    n: usize,
    m: &mut [bool],
    a: usize,
    w: usize,
    c: usize,
    lo: u64,
    hi: u64,
)
    requires { Ready t.now at 12 n × Ready t.now a w c × (n ≤ length m.old) × Blank t.now at n lo hi m.old }
    ensures { Struck t.now at n (keys_from t.now w c a) m.old m.new }
{
    let mut i = 0;
    for j in below(t, a, w, c, lo)..c {
        let k = spot::read_key(t, a + w * j);
        if hi < k {
            return;
        }
        i = strike_key(t, at, n, m, k, i);
    }
}

// The same with the keys of the changes that wait in the node at b.
fn strike_node(t: &[u8], at: usize, n: usize, m: &mut [bool], b: usize, lo: u64, hi: u64)
    requires { Ready t.now at 12 n × ValidBlock t.now b × (n ≤ length m.old) × Blank t.now at n lo hi m.old }
    ensures { Struck t.now at n (waiting (store_of t.now b)) m.old m.new }
{
    let from = b * block::BLOCK_BYTES;
    let to = from + block::BLOCK_BYTES;
    let h = block::front_of(&t[from..to]);
    if (h.i == 0) & (h.d == 0) {
        return;
    }
    let ai = from + block::inserts_from(h);
    let ad = from + block::deletes_from(h);
    strike(t, at, n, m, ai, 12, h.i, lo, hi);
    strike(t, at, n, m, ad, 8, h.d, lo, hi);
}

// The same with the keys of the changes that wait in all nodes above.
fn strike_path(t: &[u8], at: usize, n: usize, m: &mut [bool], p: Path, lo: u64, hi: u64)
    requires { Ready t.now at 12 n × ValidPath t.now p × (n ≤ length m.old) × Blank t.now at n lo hi m.old }
    ensures { Struck t.now at n (waiting_above t.now p) m.old m.new }
{
    for b in &p.blocks[..p.n] {
        strike_node(t, at, n, m, *b, lo, hi);
    }
}

// Where to go on looking for k, after another key with i spots below it.
fn restart(i: usize, prev: u64, k: u64) -> usize
    ensures { (result ≡ 0) ⊎ ((result ≡ i) × (prev ≤ k)) }
{
    if k < prev {
        return 0;
    }
    i
}

// Takes the marks from those with one of the first c keys of a list, which rises in parts.
fn strike_keys(t: &[u8], at: usize, n: usize, m: &mut [bool], ws: &[u64], c: usize)
    requires { Ready t.now at 12 n × (n ≤ length m.old) × (c ≤ length ws.now) }
    ensures { Struck t.now at n (take c ws.now) m.old m.new }
{
    let mut prev = 0;
    let mut i = 0;
    for k in &ws[..c] {
        let a = restart(i, prev, *k);
        i = strike_key(t, at, n, m, *k, a);
        prev = *k;
    }
}

// Marks those of the n spots from at on that the query takes: the wanted ones, but for those of which a change waits above. Where the spots leave the range
// that is gathered, the nodes above are asked.
pub fn marks(t: &[u8], at: usize, n: usize, q: spot::Query, p: Path, ws: &[u64]) -> [bool; 64]
    requires { Ready t.now at 12 n × ValidPath t.now p × WaitsGathered t.now p ws.now }
    ensures { Marks t.now at n q p result }
{
    let mut m = wanted(t, at, n, q);
    if n == 0 {
        return m;
    }
    let lo = spot::lowest_key(q).max(spot::read_key(t, at));
    let hi = spot::highest_key(q).min(spot::read_key(t, at + 12 * (n - 1)));
    if (p.lo <= lo) & (hi <= p.last) {
        strike_keys(t, at, n, &mut m, ws, p.waits);
        return m;
    }
    strike_path(t, at, n, &mut m, p, lo, hi);
    m
}

// How many of the first n have a mark.
pub fn count_marks(m: [bool; 64], n: usize) -> usize
    requires { n ≤ 64 }
    ensures { (result ≡ marks_in (take n m)) × (result ≤ n) }
{
    let mut sum = 0;
    for marked in &m[..n] {
        if *marked {
            sum += 1;
        }
    }
    sum
}

// The query takes each of the n spots from at on, which rise: it wants them all, and near them nothing waits.
fn takes_all(t: &[u8], at: usize, n: usize, q: spot::Query, p: Path, ws: &[u64]) -> bool
    requires { Ready t.now at 12 n × WaitsGathered t.now p ws.now }
    ensures { result ≡ true → length (taken t.now at n q p) ≡ n }
{
    if n == 0 {
        return false;
    }
    let first = spot::read_key(t, at);
    let last = spot::read_key(t, at + 12 * (n - 1));
    (p.waits == 0) & (p.lo <= first) & (last <= p.last) & wants_all(t, at, n, q)
}

// How many of the n spots from at on, which rise, the query takes.
pub fn count_run(t: &[u8], at: usize, n: usize, q: spot::Query, p: Path, ws: &[u64]) -> usize
    requires { Ready t.now at 12 n × ValidPath t.now p × WaitsGathered t.now p ws.now }
    ensures { (result ≡ length (taken t.now at n q p)) × (result ≤ n) }
{
    if n == 0 {
        return 0;
    }
    if takes_all(t, at, n, q, p, ws) {
        return n;
    }
    let m = marks(t, at, n, q, p, ws);
    count_marks(m, n)
}

// The span of the i-th of the c children of the node in s, which begins at lo.
pub fn child_span(s: &[u8], i: usize, c: usize, lo: u64, span: Span) -> Span
    requires { ValidBytes s.now × (i < c) × (c ≡ be 1 s.now 7) }
    ensures { result ≡ child_span (entries_in s.now) i lo span }
{
    if i + 1 < c {
        let hi = spot::read_key(s, block::FRONT_BYTES + block::ENTRY_BYTES * (i + 1) + 4);
        return Span { lo, hi: Some(hi) };
    }
    Span { lo, hi: span.hi }
}

// The range of the root: it has no ends.
pub fn root_span() -> Span
    ensures { (result.lo ≡ 0) × (end_of result ≡ 18446744073709551616) }
{
    Span { lo: 0, hi: None }
}

// No nodes above: the root. Only the keys of the query's places matter.
pub fn no_path(q: spot::Query) -> Path
    ensures { (result.n ≡ 0) × (above result ≡ []) × (result.waits ≡ 0) }
{
    Path {
        n: 0,
        blocks: [0; 8],
        lo: spot::lowest_key(q),
        last: spot::highest_key(q),
        waits: 0,
    }
}

// The nodes above a child of the node at b; what is gathered stays.
fn with_block(p: Path, b: usize) -> Path
    requires { p.n ≤ 6 }
    ensures { (result.n ≡ p.n + 1) × (above result ≡ above p ++ (b ∷ [])) × (result.lo ≡ p.lo) × (result.last ≡ p.last) × (result.waits ≡ p.waits) }
{
    let n = p.n;
    let mut next = p;
    next.blocks[n] = b;
    next.n = n + 1;
    next
}

// Puts k behind the first c keys of the list, if it lies from lo to last, and says how many there are then. No branch depends on it.
fn keep_key(list: &mut [u64], c: usize, k: u64, lo: u64, last: u64) -> usize
    requires { c < length list.old }
    ensures { KeysKept (k ∷ []) lo last c list.old list.new (Some result) × (result ≤ c + 1) }
{
    list[c] = k;
    c + ((lo <= k) & (k <= last)) as usize
}

// The same with n keys that rise, w bytes apart from at on; None where there is no room.
fn keep_run(
    t: &[u8],
    at: usize,
    w: usize,
    n: usize,
    list: &mut [u64],
    c: usize,
    lo: u64,
    last: u64,
) -> Option<usize>
    requires { Ready t.now at w n × (length list.old ≡ 64) × (c ≤ 64) }
    ensures { KeysKept (keys_from t.now w n at) lo last c list.old list.new result }
{
    let mut l = c;
    for j in below(t, at, w, n, lo)..n {
        let k = spot::read_key(t, at + w * j);
        if last < k {
            return Some(l);
        }
        if 64 <= l {
            return None;
        }
        l = keep_key(list, l, k, lo, last);
    }
    Some(l)
}

// The same with the first n keys of another list.
fn keep_keys(ws: &[u64], n: usize, list: &mut [u64], c: usize, lo: u64, last: u64) -> Option<usize>
    requires { (n ≤ length ws.now) × (length list.old ≡ 64) × (c ≤ 64) }
    ensures { KeysKept (take n ws.now) lo last c list.old list.new result }
{
    let mut l = c;
    for k in &ws[..n] {
        if 64 <= l {
            return None;
        }
        l = keep_key(list, l, *k, lo, last);
    }
    Some(l)
}

// The same with the changes that wait in the node at b, and after them the first n keys of another list; from the front.
fn gather(
    t: &[u8],
    b: usize,
    ws: &[u64],
    n: usize,
    list: &mut [u64],
    lo: u64,
    last: u64,
) -> Option<usize>
    requires { ValidBlock t.now b × (n ≤ length ws.now) × (length list.old ≡ 64) }
    ensures { KeysKept (waiting (store_of t.now b) ++ take n ws.now) lo last 0 list.old list.new result }
{
    let from = b * block::BLOCK_BYTES;
    let to = from + block::BLOCK_BYTES;
    let h = block::front_of(&t[from..to]);
    let ai = from + block::inserts_from(h);
    let ad = from + block::deletes_from(h);
    let i = keep_run(t, ai, 12, h.i, list, 0, lo, last)?;
    let d = keep_run(t, ad, 8, h.d, list, i, lo, last)?;
    keep_keys(ws, n, list, d, lo, last)
}

// No change waits in the node at b.
fn settled(t: &[u8], b: usize) -> bool
    requires { ValidBlock t.now b }
    ensures { result ≡ true → waiting (store_of t.now b) ≡ [] }
{
    let from = b * block::BLOCK_BYTES;
    let to = from + block::BLOCK_BYTES;
    let h = block::front_of(&t[from..to]);
    (h.i == 0) & (h.d == 0)
}

// The last key of a range that a span has too, or the one behind the span.
fn last_in(last: u64, s: Span) -> u64
    ensures { result ≤ last }
{
    match s.hi {
        Some(hi) => last.min(hi),
        None => last,
    }
}

// The nodes above a child of the node at b: what waits in them in the child's span is gathered, from what was gathered in the node's and from the node. Where
// that is too much for the list, nothing is.
pub fn step(t: &[u8], p: Path, b: usize, part: Span, ws: &[u64], list: &mut [u64]) -> Path
    requires { (p.n ≤ 6) × ValidBlock t.now b × WaitsGathered t.now p ws.now × (length list.old ≡ 64) }
    ensures { (result.n ≡ p.n + 1) × (above result ≡ above p ++ (b ∷ [])) × WaitsGathered t.now result list.new × (length list.new ≡ 64) }
{
    let next = with_block(p, b);
    if (p.waits == 0) & settled(t, b) {
        return next;
    }
    let lo = p.lo.max(part.lo);
    let last = last_in(p.last, part);
    match gather(t, b, ws, p.waits, list, lo, last) {
        Some(waits) => Path {
            lo,
            last,
            waits,
            ..next
        },
        None => Path {
            lo: 1,
            last: 0,
            waits: 0,
            ..next
        },
    }
}
