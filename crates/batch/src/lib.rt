// A batch of changes at one node in memory: taken in, handed down to a child, and the node cut in two.
#![tactic(auto)]

ghost use Rattle.std.specs.Prelude.{◌≡◌, true, ◌⊎◌, ◌∷◌, option_to_list, ◌+◌, ◌/◌, ◌≤◌, ◌<◌, drop, leb};
ghost use Rattle.octets.specs.Lists.{rest, rising};
ghost use Rattle.octets.specs.Sets.{Apart};
ghost use Rattle.spot.specs.Spots.{keys};
ghost use Rattle.block.specs.Node.{first_open};
ghost use Rattle.block.specs.NodeRules.{lows};
ghost use Rattle.buffer.specs.Buffer.{held, named};
ghost use Rattle.node.specs.Memory.{entries_of};
ghost use Rattle.edit.specs.Edits.{Tidy, Half};
ghost use Rattle.batch.specs.Batches.{Receives, SpilledInner, TakenIn, Picking, Bound, EntriesBack, PutBack, CutKey, HalfOf};

// What is handed down to a child, and the node without it.
#[derive(Clone, Copy)]
pub struct Picked {
    pub child: usize,
    pub node: node::NodeValue,
    pub inserts: buffer::SpotBuffer,
    pub deletes: buffer::KeyBuffer,
}

// P over 64 spills into I, but at a leaf, which splits.
fn spill_inner(n: node::NodeValue) -> node::NodeValue
    requires { Tidy n × (n.points.n + n.inserts.n ≤ 144) × Apart (keys (held n.points)) (keys (held n.inserts)) }
    ensures { SpilledInner n result }
{
    if n.level == 0 {
        return n;
    }
    edit::spill(n)
}

// Takes in inserts, then deletes. One threshold decides for all of them whether they go to P or wait.
pub fn take_in(
    n: node::NodeValue,
    inserts: buffer::SpotBuffer,
    deletes: buffer::KeyBuffer,
) -> node::NodeValue
    requires { Receives n inserts.n deletes.n }
    ensures { TakenIn n (held inserts) (named deletes) inserts.n deletes.n result }
{
    let r = edit::threshold(n);
    let more = edit::insert_all(n, inserts, r);
    let less = edit::delete_all(more, deletes, r);
    spill_inner(less)
}

// Where a part of `want` ends that begins at `start`: not past `end`.
fn part_end(start: usize, end: usize, want: usize) -> usize
    requires { (start ≤ end) × (want ≤ 16) }
    ensures { Bound start end want result }
{
    if end - start <= want {
        return end;
    }
    start + want
}

// An eighth of the inserts, for the child for which most wait.
fn pick_inserts(n: node::NodeValue) -> Picked
    requires { Tidy n × (0 < n.entries.n) × (n.entries.n ≤ 8) × (rising (rest (lows (entries_of n.entries))) ≡ true) × (64 < n.inserts.n) }
    ensures { Picking n result }
{
    let entries = n.entries;
    let waiting = n.inserts;
    let child = choose::fullest(entries, waiting);
    let start = choose::start_of(entries, waiting, child);
    let end = choose::end_of(entries, waiting, child + 1);
    let stop = part_end(start, end, (waiting.n + 7) / 8);
    let down = buffer::between(waiting, start, stop);
    let inserts = buffer::outside(waiting, start, stop);
    let none = buffer::empty();
    let node = node::NodeValue { inserts, ..n };
    Picked {
        child,
        node,
        inserts: down,
        deletes: none,
    }
}

// The same of deletes.
// Stays: the two part different lists of the node and leave the other one of what goes down empty; what they share they call.
fn pick_deletes(n: node::NodeValue) -> Picked
    requires { Tidy n × (0 < n.entries.n) × (n.entries.n ≤ 8) × (rising (rest (lows (entries_of n.entries))) ≡ true) × (n.inserts.n ≤ 64) }
    ensures { Picking n result }
{
    let entries = n.entries;
    let waiting = n.deletes;
    let child = choose::fullest(entries, waiting);
    let start = choose::start_of(entries, waiting, child);
    let end = choose::end_of(entries, waiting, child + 1);
    let stop = part_end(start, end, (waiting.n + 7) / 8);
    let down = buffer::between(waiting, start, stop);
    let deletes = buffer::outside(waiting, start, stop);
    let none = buffer::empty();
    let node = node::NodeValue { deletes, ..n };
    Picked {
        child,
        node,
        inserts: none,
        deletes: down,
    }
}

// What overflows: inserts where they are over 64, else deletes.
pub fn pick(n: node::NodeValue) -> Picked
    requires { Tidy n × (0 < n.entries.n) × (n.entries.n ≤ 8) × (rising (rest (lows (entries_of n.entries))) ≡ true) }
    ensures { Picking n result }
{
    let waiting = n.inserts.n;
    if 64 < waiting {
        return pick_inserts(n);
    }
    pick_deletes(n)
}

// The entries with one or two in the place of the c-th.
fn entries_back(
    es: node::Entries,
    c: usize,
    first: block::Entry,
    second: Option<block::Entry>,
) -> node::Entries
    requires { (c < es.n) × (es.n < 8) }
    ensures { EntriesBack es c (first ∷ option_to_list second) result }
{
    match second {
        Some(x) => node::replace_two(es, c, first, x),
        None => node::replace(es, c, first),
    }
}

// The node with one or two entries in the place of its c-th.
pub fn put_back(
    n: node::NodeValue,
    c: usize,
    first: block::Entry,
    second: Option<block::Entry>,
) -> node::NodeValue
    requires { (c < n.entries.n) × (n.entries.n < 8) }
    ensures { PutBack n c (first ∷ option_to_list second) result }
{
    node::NodeValue {
        entries: entries_back(n.entries, c, first, second),
        ..n
    }
}

// The keys of a node without entries from the separating key on.
fn upper_leaf(n: node::NodeValue, sep: u64) -> node::NodeValue
    requires { Tidy n × (n.entries.n ≡ 0) }
    ensures { Half n result (λ j. leb sep j) (first_open (drop 0 (entries_of n.entries))) }
{
    let points = buffer::from_key(n.points, sep);
    let inserts = buffer::from_key(n.inserts, sep);
    let deletes = buffer::from_key(n.deletes, sep);
    node::NodeValue {
        points,
        inserts,
        deletes,
        ..n
    }
}

// Where a node is cut in two: at its middle point where it has no entries, at the fifth of its eight entries else.
pub fn cut_key(n: node::NodeValue) -> u64
    requires { Tidy n × (((n.entries.n ≡ 0) × (2 ≤ n.points.n)) ⊎ (n.entries.n ≡ 8)) }
    ensures { CutKey n result }
{
    let count = n.entries.n;
    if count == 0 {
        let middle = buffer::get(n.points, n.points.n / 2);
        return middle.key;
    }
    let fifth = node::entry(n.entries, 4);
    fifth.low
}

// The keys below the separating key, with the first half of the entries; or the others. Two calls, since a function called once would lie in the caller's frame.
// Stays: a flag, since two functions would each be called once.
pub fn half(n: node::NodeValue, sep: u64, upper: bool) -> node::NodeValue
    requires { Tidy n × (((n.entries.n ≡ 0) × (2 ≤ n.points.n)) ⊎ (n.entries.n ≡ 8)) }
    ensures { HalfOf n sep upper result }
{
    let count = n.entries.n;
    if !upper {
        return edit::left_half(n, count / 2, sep);
    }
    if count == 0 {
        return upper_leaf(n, sep);
    }
    edit::right_half(n, count / 2, sep)
}
