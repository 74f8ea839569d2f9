// Changes to a node in memory: batches, spilling, halves, and the rounds of fill.
#![tactic(auto)]

ghost use Rattle.std.specs.Prelude.{◌≡◌, false, ◌+◌, ◌≤◌, ◌<◌, take, drop, ltb, leb};
ghost use Rattle.block.specs.Node.{first_open};
ghost use Rattle.octets.specs.Lists.{has, keep};
ghost use Rattle.octets.specs.Sets.{Apart};
ghost use Rattle.spot.specs.Spots.{keys, put};
ghost use Rattle.spot.specs.Sorted.{only, but, lower};
ghost use Rattle.buffer.specs.Buffer.{held, named, Ordered, merged};
ghost use Rattle.node.specs.Memory.{entries_of};
ghost use Rattle.update_theory.specs.Held.{insert_one, delete_one, insert_all, delete_all};
ghost use Rattle.edit.specs.Edits.{held_in, Tidy, Edited, SpillPost, Threshold, Half, EntryFor, BestOf};

// One spot inserted: into P where its rank key is at least r, else it waits in I.
pub fn insert_one(n: node::NodeValue, s: spot::Spot, r: u64) -> node::NodeValue
    requires { Tidy n × (n.points.n < 80) × (n.inserts.n < 80) }
    ensures { Edited n result (insert_one r s (held_in n)) (n.points.n + 1) (n.inserts.n + 1) n.deletes.n }
{
    let k = s.key;
    let points = buffer::without(n.points, k);
    let inserts = buffer::without(n.inserts, k);
    let deletes = buffer::without(n.deletes, k);
    if r <= spot::rank_key(k) {
        let points = buffer::put(points, s);
        return node::NodeValue {
            points,
            inserts,
            deletes,
            ..n
        };
    }
    let inserts = buffer::put(inserts, s);
    node::NodeValue {
        points,
        inserts,
        deletes,
        ..n
    }
}

// One key deleted: done where its rank key is at least r, else the deletion waits in D.
pub fn delete_one(n: node::NodeValue, k: u64, r: u64) -> node::NodeValue
    requires { Tidy n × (n.deletes.n < 32) }
    ensures { Edited n result (delete_one r k (held_in n)) n.points.n n.inserts.n (n.deletes.n + 1) }
{
    let points = buffer::without(n.points, k);
    let inserts = buffer::without(n.inserts, k);
    let deletes = buffer::without(n.deletes, k);
    if spot::rank_key(k) < r {
        let deletes = buffer::put(deletes, k);
        return node::NodeValue {
            points,
            inserts,
            deletes,
            ..n
        };
    }
    node::NodeValue {
        points,
        inserts,
        deletes,
        ..n
    }
}

// The spots that gathered for a buffer, brought in by one merge.
fn bring_in(gathered: buffer::SpotBuffer, b: buffer::SpotBuffer) -> buffer::SpotBuffer
    requires { Ordered gathered × Ordered b × (gathered.n + b.n ≤ 80) }
    ensures { (result.n ≤ gathered.n + b.n) × (held result ≡ merged (held gathered) (held b)) × Ordered result }
{
    let n = gathered.n;
    if n == 0 {
        return b;
    }
    buffer::merge(gathered, b)
}

// A batch of inserts, cut at r: what is at least r in rank order gathers for P, the others for I, and one merge brings each part in.
fn insert_parts(n: node::NodeValue, batch: buffer::SpotBuffer, r: u64) -> node::NodeValue
    requires { Tidy n × (batch.n ≤ 80) × (n.points.n + batch.n ≤ 80) × (n.inserts.n + batch.n ≤ 80) }
    ensures { Edited n result (insert_all r (held batch) (held_in n)) (n.points.n + batch.n) (n.inserts.n + batch.n) n.deletes.n }
{
    let mut points = n.points;
    let mut inserts = n.inserts;
    let mut deletes = n.deletes;
    let mut high = buffer::empty();
    let mut low = buffer::empty();
    for i in (0..batch.n).rev() {
        let s = batch.spots[i];
        let k = s.key;
        deletes = buffer::without(deletes, k);
        if r <= spot::rank_key(k) {
            inserts = buffer::without(inserts, k);
            let others = buffer::without(high, k);
            high = buffer::put(others, s);
        } else {
            points = buffer::without(points, k);
            let others = buffer::without(low, k);
            low = buffer::put(others, s);
        }
    }
    let points = bring_in(high, points);
    let inserts = bring_in(low, inserts);
    node::NodeValue {
        points,
        inserts,
        deletes,
        ..n
    }
}

// A batch of inserts, the last first. A single spot needs no merge.
pub fn insert_all(n: node::NodeValue, batch: buffer::SpotBuffer, r: u64) -> node::NodeValue
    requires { Tidy n × (batch.n ≤ 80) × (n.points.n + batch.n ≤ 80) × (n.inserts.n + batch.n ≤ 80) }
    ensures { Edited n result (insert_all r (held batch) (held_in n)) (n.points.n + batch.n) (n.inserts.n + batch.n) n.deletes.n }
{
    let size = batch.n;
    if size == 1 {
        let s = batch.spots[0];
        return insert_one(n, s, r);
    }
    insert_parts(n, batch, r)
}

// A batch of deletes.
pub fn delete_all(n: node::NodeValue, batch: buffer::KeyBuffer, r: u64) -> node::NodeValue
    requires { Tidy n × (batch.n ≤ 32) × (n.deletes.n + batch.n ≤ 32) }
    ensures { Edited n result (delete_all r (named batch) (held_in n)) n.points.n n.inserts.n (n.deletes.n + batch.n) }
{
    let mut next = n;
    for i in (0..batch.n).rev() {
        let k = batch.keys[i];
        next = delete_one(next, k, r);
    }
    next
}

// While P is over 64, its lowest in rank order goes to I: these gather, and one merge brings them there.
pub fn spill(n: node::NodeValue) -> node::NodeValue
    requires { Tidy n × (n.points.n + n.inserts.n ≤ 144) × Apart (keys (held n.points)) (keys (held n.inserts)) }
    ensures { SpillPost n result }
{
    let size = n.points.n;
    if size <= 64 {
        return n;
    }
    let mut points = n.points;
    let mut gathered = buffer::empty();
    // Stays: it ends when few enough are left, and counts no index.
    while 64 < points.n {
        let low = buffer::lowest(points);
        points = buffer::without(points, low.key);
        gathered = buffer::put(gathered, low);
    }
    let inserts = buffer::merge(gathered, n.inserts);
    node::NodeValue {
        points,
        inserts,
        ..n
    }
}

// The rank key from which on a change belongs to P: P's lowest, or 0 where nothing lies below.
pub fn threshold(n: node::NodeValue) -> u64
    requires { Tidy n }
    ensures { Threshold n result }
{
    let size = n.points.n;
    if (n.level == 0) | (size < 32) {
        return 0;
    }
    let low = buffer::lowest(n.points);
    spot::rank_key(low.key)
}

// The keys of the node below the separating key, with the first k entries; and the others.
pub fn left_half(n: node::NodeValue, k: usize, sep: u64) -> node::NodeValue
    requires { Tidy n × (k ≤ n.entries.n) × (n.entries.n ≤ 8) }
    ensures { Half n result (λ j. ltb j sep) (take k (entries_of n.entries)) }
{
    let entries = node::entries_before(n.entries, k);
    let points = buffer::below_key(n.points, sep);
    let inserts = buffer::below_key(n.inserts, sep);
    let deletes = buffer::below_key(n.deletes, sep);
    node::NodeValue {
        entries,
        points,
        inserts,
        deletes,
        ..n
    }
}

pub fn right_half(n: node::NodeValue, k: usize, sep: u64) -> node::NodeValue
    requires { Tidy n × (k < n.entries.n) × (n.entries.n ≤ 8) }
    ensures { Half n result (λ j. leb sep j) (first_open (drop k (entries_of n.entries))) }
{
    let rest = node::entries_from(n.entries, k);
    let mut first = node::entry(rest, 0);
    first.low = 0;
    let entries = node::replace(rest, 0, first);
    let points = buffer::from_key(n.points, sep);
    let inserts = buffer::from_key(n.inserts, sep);
    let deletes = buffer::from_key(n.deletes, sep);
    node::NodeValue {
        entries,
        points,
        inserts,
        deletes,
        ..n
    }
}

// The entry of a node that stands in block b.
pub fn entry_for(b: usize, low: u64, n: node::NodeValue) -> block::Entry
    requires { Tidy n }
    ensures { EntryFor b low n result }
{
    let block = b;
    let size = n.points.n;
    if size == 0 {
        return block::Entry {
            block,
            size,
            low,
            top: 0,
            bottom: 0,
        };
    }
    let high = buffer::highest(n.points);
    let deep = buffer::lowest(n.points);
    let top = high.key;
    let bottom = deep.key;
    block::Entry {
        block,
        size,
        low,
        top,
        bottom,
    }
}

// The child with the highest top in rank order, of those that have points.
pub fn best_child(es: node::Entries) -> Option<usize>
    requires { es.n ≤ 8 }
    ensures { BestOf es result }
{
    let mut best = None;
    let mut high = 0;
    for i in 0..es.n {
        let e = es.list[i];
        let r = spot::rank_key(e.top);
        if (e.size != 0) & (best.is_none() | (high < r)) {
            best = Some(i);
            high = r;
        }
    }
    best
}

// A spot moved from I to P; deletes at or above it are done with.
pub fn raise_insert(n: node::NodeValue, s: spot::Spot) -> node::NodeValue
    requires { Tidy n × (n.points.n < 80) × (has s.key (keys (held n.points)) ≡ false) }
    ensures { Edited n result (record { points = put s (held n.points); inserts = only (but s.key) (held n.inserts); deletes = keep (lower s.key) (named n.deletes) }) (n.points.n + 1) n.inserts.n n.deletes.n }
{
    let points = buffer::put(n.points, s);
    let inserts = buffer::without(n.inserts, s.key);
    let deletes = buffer::keys_under(n.deletes, s.key);
    node::NodeValue {
        points,
        inserts,
        deletes,
        ..n
    }
}

// A spot of a child put into P.
pub fn raise_child(n: node::NodeValue, s: spot::Spot) -> node::NodeValue
    requires { Tidy n × (n.points.n < 80) × (has s.key (keys (held n.points)) ≡ false) }
    ensures { Edited n result (record { points = put s (held n.points); inserts = held n.inserts; deletes = keep (lower s.key) (named n.deletes) }) (n.points.n + 1) n.inserts.n n.deletes.n }
{
    let k = s.key;
    let points = buffer::put(n.points, s);
    let deletes = buffer::keys_under(n.deletes, k);
    node::NodeValue {
        points,
        deletes,
        ..n
    }
}

// A spot of a child that a waiting delete names: both go.
pub fn drop_child(n: node::NodeValue, k: u64) -> node::NodeValue
    requires { Tidy n }
    ensures { Edited n result (record { points = held n.points; inserts = held n.inserts; deletes = keep (lower k) (named n.deletes) }) n.points.n n.inserts.n n.deletes.n }
{
    let deletes = buffer::keys_under(n.deletes, k);
    node::NodeValue { deletes, ..n }
}
