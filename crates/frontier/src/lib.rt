// The frontier of a Top: a row for each node read, the best spot that is left of a node, and its best child that is still to be read.
#![tactic(auto)]

ghost use Rattle.std.specs.Prelude.{◌≡◌, true, cond, eqb, ◌+◌, ◌*◌, ◌≤◌, ◌<◌, length};
ghost use Rattle.octets.specs.Lists.{has};
ghost use Rattle.spot.specs.Keys.{all_keys};
ghost use Rattle.spot.specs.Spots.{limited_from};
ghost use Rattle.block.specs.Header.{head_of};
ghost use Rattle.block.specs.HeaderRules.{header_ok};
ghost use Rattle.block.specs.Table.{table_sized};
ghost use Rattle.block.specs.Node.{store_of};
ghost use Rattle.block.specs.NodeRules.{ValidBlock};
ghost use Rattle.visit.specs.Visit.{waiting, waiting_above};
ghost use Rattle.frontier.specs.Frontier.{kid_count, kid_key, kid_place, KidIs, root_slot, slot_place, slot_by, Hangs};
ghost use Rattle.frontier.specs.Picks.{spots_at, spot_count, spot_by, wanted_in, found_in, Laddered, PickedUnder, Wished, Unwaited, KeysApart, OneOf, Few, Inserted, few_floor, taken_key, Packable, FirstOf, KidBest};

// A node that was read: its block and level, and its range.
#[derive(Clone, Copy)]
pub struct Place {
    pub block: usize,
    pub level: usize,
    pub span: visit::Span,
}

// A child: its entry and its range.
#[derive(Clone, Copy)]
pub struct Kid {
    pub entry: block::Entry,
    pub span: visit::Span,
}

// The best spot of a node: its top key, its index among the node's points and inserts, and the indices of the next ones that the query
// wants.
// Stays: `more` is 1 where no next one is known, since it goes into a heap's row as the upper bits of one number.
#[derive(Clone, Copy)]
pub struct Pick {
    pub key: u64,
    pub at: usize,
    pub more: u64,
}

// The best child of a node: its key and its index.
#[derive(Clone, Copy)]
pub struct KidPick {
    pub key: u64,
    pub at: usize,
}

// Where the i-th child's range begins.
fn low_of(i: usize, first: u64, low: u64) -> u64
    ensures { result ≡ cond (eqb i 0) first low }
{
    if i == 0 {
        return first;
    }
    low
}

// The i-th child of the node at b.
pub fn kid_of(t: &[u8], b: usize, i: usize, span: visit::Span) -> Kid
    requires { ValidBlock t.now b × (i < kid_count t.now b) }
    ensures { KidIs t.now b span i result }
{
    let from = b * 2048;
    let to = from + 2048;
    let c = block::front_of(&t[from..to]).c;
    let entry = block::entry_at(&t[from..to], i);
    let lo = low_of(i, span.lo, entry.low);
    let part = visit::child_span(&t[from..to], i, c, lo, span);
    Kid { entry, span: part }
}

// The key by which the i-th child is read, if the query admits it, else 0.
// Stays: 0 is under every child's key, so that the comparison which looks for the best passes it over with no test of its own.
fn kid_key(t: &[u8], b: usize, i: usize, span: visit::Span, q: spot::Query) -> u64
    requires { ValidBlock t.now b }
    ensures { result ≡ kid_key t.now b span q i }
{
    let from = b * 2048;
    let to = from + 2048;
    let c = block::front_of(&t[from..to]).c;
    if c <= i {
        return 0;
    }
    let kid = kid_of(t, b, i, span);
    if !visit::admits_child(q, kid.entry, kid.span) {
        return 0;
    }
    let cell = spot::rank_key(kid.entry.top) / 4294967296 + 1;
    cell * 65536 + ((65535 - kid.entry.block) as u64)
}

// The child with the highest key that is at most `most`, if there is one.
pub fn best_kid(t: &[u8], b: usize, span: visit::Span, q: spot::Query, most: u64) -> Option<KidPick>
    requires { ValidBlock t.now b }
    ensures { KidBest t.now b span q most result }
{
    let mut best = KidPick { key: 0, at: 0 };
    for i in 0..8 {
        let key = kid_key(t, b, i, span, q);
        if (best.key < key) & (key <= most) {
            best = KidPick { key, at: i };
        }
    }
    if best.key == 0 {
        return None;
    }
    Some(best)
}

// The root's place.
pub fn root_place(t: &[u8]) -> Place
    requires { (table_sized (length t.now) ≡ true) × (header_ok (length t.now) (head_of t.now) ≡ true) }
    ensures { result ≡ slot_place (root_slot t.now) }
{
    let block = block::root_of(t);
    let level = block::levels_of(t) - 1;
    Place {
        block,
        level,
        span: visit::Span { lo: 0, hi: None },
    }
}

// The i-th child's place.
pub fn kid_place(t: &[u8], p: Place, i: usize) -> Place
    requires { ValidBlock t.now p.block × (i < kid_count t.now p.block) × (1 ≤ p.level) }
    ensures { result ≡ kid_place t.now p i }
{
    let kid = kid_of(t, p.block, i, p.span);
    let span = kid.span;
    Place {
        block: kid.entry.block,
        level: p.level - 1,
        span,
    }
}

// The place of slot i: its parent's is asked for first, a level higher each time.
pub fn place_at(t: &[u8], rows: &[[u16; 2]], i: usize) -> Place
    requires { Hangs t.now rows.now i }
    ensures { result ≡ slot_place (slot_by t.now rows.now i) }
{
    if i == 0 {
        return root_place(t);
    }
    let row = rows[i];
    let up = row[1] as usize;
    let parent = place_at(t, rows, up / 8);
    kid_place(t, parent, up % 8)
}

// A change of the key k waits in the node at b.
fn waits_in(t: &[u8], b: usize, k: u64) -> bool
    requires { ValidBlock t.now b }
    ensures { result ≡ has k (waiting (store_of t.now b)) }
{
    let from = b * 2048;
    let to = from + 2048;
    let h = block::front_of(&t[from..to]);
    let ai = from + block::inserts_from(h);
    if visit::has_key(t, ai, 12, h.i, k) {
        return true;
    }
    let ad = from + block::deletes_from(h);
    visit::has_key(t, ad, 8, h.d, k)
}

// A change of the key k waits in a node above slot i.
fn waits_above(t: &[u8], rows: &[[u16; 2]], i: usize, k: u64) -> bool
    requires { Hangs t.now rows.now i }
    ensures { result ≡ has k (waiting_above t.now (slot_by t.now rows.now i).path) }
{
    let mut j = i;
    // Stays: it goes up from slot to slot, which no range does.
    while 0 < j {
        let row = rows[j];
        j = row[1] as usize / 8;
        let above = rows[j];
        if waits_in(t, above[0] as usize, k) {
            return true;
        }
    }
    false
}

// The spot of the node at b with index j.
pub fn spot_by(t: &[u8], b: usize, j: usize) -> spot::Spot
    requires { ValidBlock t.now b × (j < spot_count t.now b) }
    ensures { result ≡ spot_by t.now b j }
{
    let from = b * 2048;
    let to = from + 2048;
    let h = block::front_of(&t[from..to]);
    spot::read_spot(t, from + block::points_from(h) + 12 * j)
}

// The spot with the key k is not under the floor, not over the limit, and wanted. Most are turned away by the first two questions.
fn is_taken(q: spot::Query, k: u64, most: u64, floor: u64) -> bool
    ensures { result ≡ taken_key q k most floor }
{
    let key = spot::top_key(k);
    if key < floor {
        return false;
    }
    if most < key {
        return false;
    }
    spot::wants(q, k)
}

// What a spot must not be under to come into n rows: the last one's key, where all are taken.
// Stays: the rows are an array of fixed length, with how many are taken beside it, since nothing is allocated.
fn floor_few(few: &[[u64; 2]], n: usize) -> u64
    requires { (0 < length few.now) × (n ≤ length few.now) }
    ensures { result ≡ few_floor few.now n }
{
    if n < few.len() {
        return 0;
    }
    let row = few[n - 1];
    row[0]
}

// A row comes in at its place among n rows, the best first; where all are taken, the last goes out.
fn insert_few(few: &mut [[u64; 2]], n: usize, key: u64, at: usize) -> usize
    requires { (0 < length few.old) × (n ≤ length few.old) }
    ensures { Inserted few.old n key at few.new result }
{
    let m = n + (n < few.len()) as usize;
    for i in (1..m).rev() {
        let above = few[i - 1];
        if key < above[0] {
            few[i] = [key, at as u64];
            return m;
        }
        few[i] = above;
    }
    few[0] = [key, at as u64];
    m
}

// The best few of the spots from `at` on, of those that the query wants and whose top key is at most `most`. The first m rows have those
// of the spots before `from`; the ones before `to` are asked.
fn run_few(
    t: &[u8],
    at: usize,
    from: usize,
    to: usize,
    q: spot::Query,
    most: u64,
    few: &mut [[u64; 2]],
    m: usize,
) -> usize
    requires { (0 < length few.old) × (from ≤ to) × (to ≤ 128) × (at + 12 * to ≤ length t.now) × (limited_from t.now 12 to at ≡ true) × KeysApart t.now at to × Few t.now at from q most few.old m }
    ensures { Few t.now at to q most few.new result }
{
    let mut n = m;
    let mut floor = floor_few(few, n);
    for i in from..to {
        let k = spot::read_key(t, at + 12 * i);
        if is_taken(q, k, most, floor) {
            n = insert_few(few, n, spot::top_key(k), i);
            floor = floor_few(few, n);
        }
    }
    n
}

// The key of the first or the last of n spots from `at` on, of the two the lower in rank.
fn low_end(t: &[u8], at: usize, n: usize) -> u64
    requires { (0 < n) × (at + 12 * n ≤ length t.now) × (limited_from t.now 12 n at ≡ true) }
    ensures { OneOf t.now at n result }
{
    let first = spot::read_key(t, at);
    let last = spot::read_key(t, at + 12 * (n - 1));
    if spot::top_key(last) < spot::top_key(first) {
        return last;
    }
    first
}

// The best few spots of the node at b, of those that the query wants and whose top key is at most `most`. No insert's rank is above a
// point's, so the inserts are left out where all rows are taken by points whose rank is above the first or the last point's.
fn node_few(t: &[u8], b: usize, q: spot::Query, most: u64, few: &mut [[u64; 2]]) -> usize
    requires { ValidBlock t.now b × (0 < length few.old) }
    ensures { Few t.now (spots_at t.now b) (spot_count t.now b) q most few.new result }
{
    let from = b * 2048;
    let to = from + 2048;
    let h = block::front_of(&t[from..to]);
    let at = from + block::points_from(h);
    let n = run_few(t, at, 0, h.p, q, most, few, 0);
    // Where there is no point, there is no insert either.
    if h.p == 0 {
        return n;
    }
    let low = low_end(t, at, h.p);
    if spot::top_key(low) / 4294967296 < floor_few(few, n) / 4294967296 {
        return n;
    }
    run_few(t, at, h.p, h.p + h.i, q, most, few, n)
}

// The first of n rows, if there is one, with the indices of the others.
fn pick_of(few: &[[u64; 2]], n: usize) -> Option<Pick>
    requires { Packable few.now n }
    ensures { FirstOf few.now n result }
{
    if n == 0 {
        return None;
    }
    let mut more = 1;
    for i in (1..n).rev() {
        let row = few[i];
        more = row[1] + 128 * more;
    }
    let best = few[0];
    Some(Pick {
        key: best[0],
        at: best[1] as usize,
        more,
    })
}

// The best spot of the node at b that the query wants and whose top key is at most `most`, with the N - 1 after it.
fn best_among<const N: usize>(t: &[u8], b: usize, q: spot::Query, most: u64) -> Option<Pick>
    requires { ValidBlock t.now b × (1 ≤ N) × (N ≤ 7) }
    ensures { PickedUnder t.now b q (most + 1) (wanted_in t.now q b) result }
{
    let mut few = [[0u64; 2]; N];
    let n = node_few(t, b, q, most, &mut few);
    pick_of(&few, n)
}

// The best spot of the node at b that the query wants and whose top key is at most `most`. At most `left` are asked for: the six after
// it are looked for only where that is more than one.
fn best_under(t: &[u8], b: usize, q: spot::Query, most: u64, left: usize) -> Option<Pick>
    requires { ValidBlock t.now b }
    ensures { PickedUnder t.now b q (most + 1) (wanted_in t.now q b) result }
{
    if left <= 1 {
        return best_among::<1>(t, b, q, most);
    }
    best_among::<7>(t, b, q, most)
}

// The best spot of the node at b that the query wants. Of a node just read often no more is asked, so the next are not looked for.
fn best_wanted(t: &[u8], b: usize, q: spot::Query) -> Option<Pick>
    requires { ValidBlock t.now b }
    ensures { PickedUnder t.now b q all_keys (wanted_in t.now q b) result }
{
    best_under(t, b, q, u64::MAX, 1)
}

// The best spot of the node at b that the query wants under the top key r, where at most `left` are asked for: the first of `more`, where
// there is one, else a pass over the node finds it.
fn next_wanted(t: &[u8], b: usize, q: spot::Query, r: u64, more: u64, left: usize) -> Option<Pick>
    requires { ValidBlock t.now b × Laddered t.now b q r more }
    ensures { PickedUnder t.now b q r (wanted_in t.now q b) result }
{
    if more != 1 {
        let j = (more % 128) as usize;
        let s = spot_by(t, b, j);
        return Some(Pick {
            key: spot::top_key(s.key),
            at: j,
            more: more / 128,
        });
    }
    if r == 0 {
        return None;
    }
    best_under(t, b, q, r - 1, left)
}

// The best spot that the query finds in slot i, from the best that it wants: that one is held against what waits above, then the next under it.
// At most `left` are asked for.
fn unwaited(
    t: &[u8],
    rows: &[[u16; 2]],
    i: usize,
    q: spot::Query,
    first: Option<Pick>,
    left: usize,
) -> Option<Pick>
    requires { Hangs t.now rows.now i × Wished t.now (slot_by t.now rows.now i).block q first }
    ensures { Unwaited t.now (slot_by t.now rows.now i) q first result }
{
    let row = rows[i];
    let b = row[0] as usize;
    let mut best = first;
    while let Some(pick) = best {
        if !waits_above(t, rows, i, spot::key_of_top(pick.key)) {
            return best;
        }
        best = next_wanted(t, b, q, pick.key, pick.more, left);
    }
    None
}

// The best spot that the query finds in slot i. How many are asked for after it is not known here.
pub fn first_pick(t: &[u8], rows: &[[u16; 2]], i: usize, q: spot::Query) -> Option<Pick>
    requires { Hangs t.now rows.now i }
    ensures { PickedUnder t.now (slot_by t.now rows.now i).block q all_keys (found_in t.now q (slot_by t.now rows.now i)) result }
{
    let row = rows[i];
    let first = best_wanted(t, row[0] as usize, q);
    unwaited(t, rows, i, q, first, 7)
}

// The best spot that it finds there under the top key r, where `more` has the next ones wanted and at most `left` are asked for.
pub fn next_pick(
    t: &[u8],
    rows: &[[u16; 2]],
    i: usize,
    q: spot::Query,
    r: u64,
    more: u64,
    left: usize,
) -> Option<Pick>
    requires { Hangs t.now rows.now i × Laddered t.now (slot_by t.now rows.now i).block q r more }
    ensures { PickedUnder t.now (slot_by t.now rows.now i).block q r (found_in t.now q (slot_by t.now rows.now i)) result }
{
    let row = rows[i];
    let first = next_wanted(t, row[0] as usize, q, r, more, left);
    unwaited(t, rows, i, q, first, left)
}
