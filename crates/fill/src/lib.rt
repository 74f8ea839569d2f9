// fill and take_top (source section 4, step v): P is filled up from I and from the children's highest points, a level lower each time.
#![tactic(auto)]

ghost use Rattle.std.specs.Prelude.{[], ◌≤◌, ◌<◌, length, IfSome};
ghost use Rattle.spot.specs.Sorted.{only, but};
ghost use Rattle.block.specs.Table.{blocks_of};
ghost use Rattle.buffer.specs.Buffer.{held, named};
ghost use Rattle.edit.specs.Edits.{Tidy, Edited};
ghost use Rattle.journal.specs.Journal.{Undoable, Kept};
ghost use Rattle.fill.specs.Filling.{Workable, FillPost, TakePost, Replaced, InsertUp, ChildUp, Planned, Fetchable, FetchPost, CarryPost};

// Why a part could not be worked on: a block that was read breaks a rule; else there was no room.
#[derive(Clone, Copy, Debug, PartialEq, Eq)]
pub enum Failure {
    Broken,
    NoRoom,
}

// The highest point of a child, taken out: the child's entry then, and the spot.
#[derive(Clone, Copy)]
pub struct Took {
    pub entry: block::Entry,
    pub spot: spot::Spot,
}

// A child: its place among the entries, and its entry.
#[derive(Clone, Copy)]
pub struct Below {
    pub child: usize,
    pub entry: block::Entry,
}

// What a round takes: the highest of a child, where it is `below`, and of I, where it `waits`; both where they have one key. With neither nothing is left.
#[derive(Clone, Copy)]
pub struct Turn {
    pub below: Option<Below>,
    pub waits: Option<spot::Spot>,
}

// The child at a place, and what was taken out of it.
#[derive(Clone, Copy)]
pub struct Fetched {
    pub child: usize,
    pub took: Took,
}

// One round of fill: whether nothing is left, and the node then.
#[derive(Clone, Copy)]
pub struct Round {
    pub over: bool,
    pub node: node::NodeValue,
}

// The node without the point of a key.
fn without_point(n: node::NodeValue, k: u64) -> node::NodeValue
    requires { Tidy n }
    ensures { Edited n result (record { points = only (but k) (held n.points); inserts = held n.inserts; deletes = named n.deletes }) n.points.n n.inserts.n n.deletes.n }
{
    node::NodeValue {
        points: buffer::without(n.points, k),
        ..n
    }
}

// The node with e in the place of its c-th entry.
fn with_child(n: node::NodeValue, c: usize, e: block::Entry) -> node::NodeValue
    requires { (c < n.entries.n) × (n.entries.n ≤ 8) }
    ensures { Replaced n c e result }
{
    node::NodeValue {
        entries: node::replace(n.entries, c, e),
        ..n
    }
}

// The node without deletes.
fn without_deletes(n: node::NodeValue) -> node::NodeValue
    requires { Tidy n }
    ensures { Edited n result (record { points = held n.points; inserts = held n.inserts; deletes = [] }) n.points.n n.inserts.n 0 }
{
    node::NodeValue {
        deletes: buffer::empty(),
        ..n
    }
}

// What the next round takes: the highest in rank order of I and of the children's tops.
fn next_turn(n: node::NodeValue) -> Turn
    requires { Tidy n × (n.entries.n ≤ 8) }
    ensures { Planned n result }
{
    let best = edit::best_child(n.entries);
    if n.inserts.n == 0 {
        let Some(child) = best else {
            return Turn {
                below: None,
                waits: None,
            };
        };
        let entry = node::entry(n.entries, child);
        return Turn {
            below: Some(Below { child, entry }),
            waits: None,
        };
    }
    let high = buffer::highest(n.inserts);
    let Some(child) = best else {
        return Turn {
            below: None,
            waits: Some(high),
        };
    };
    let e = node::entry(n.entries, child);
    if spot::rank_key(high.key) < spot::rank_key(e.top) {
        return Turn {
            below: Some(Below { child, entry: e }),
            waits: None,
        };
    }
    if high.key == e.top {
        return Turn {
            below: Some(Below { child, entry: e }),
            waits: Some(high),
        };
    }
    Turn {
        below: None,
        waits: Some(high),
    }
}

// From I: the spot goes to P.
fn from_inserts(n: node::NodeValue, high: spot::Spot) -> Result<Round, Failure>
    requires { Tidy n × (n.points.n < 32) }
    ensures { InsertUp n high result }
{
    if buffer::holds(n.points, high.key) {
        return Err(Failure::NoRoom);
    }
    let node = edit::raise_insert(n, high);
    Ok(Round { over: false, node })
}

// From a child alone: into P, or dropped with the delete that names it.
fn from_top(n: node::NodeValue, top: spot::Spot) -> Result<Round, Failure>
    requires { Tidy n × (n.points.n < 32) }
    ensures { ChildUp n top result }
{
    let k = top.key;
    if buffer::holds(n.deletes, k) {
        let node = edit::drop_child(n, k);
        return Ok(Round { over: false, node });
    }
    if buffer::holds(n.points, k) {
        return Err(Failure::NoRoom);
    }
    let node = edit::raise_child(n, top);
    Ok(Round { over: false, node })
}

// The node after a round: with the child's new entry, and the spot in P, or dropped with the delete that names it. Where nothing was left, no delete is needed.
fn carry_out(
    n: node::NodeValue,
    below: Option<Fetched>,
    waits: Option<spot::Spot>,
) -> Result<Round, Failure>
    requires { Tidy n × (n.points.n < 32) × (n.entries.n ≤ 8) × IfSome below (λ x. x.child < n.entries.n) }
    ensures { CarryPost n below waits result }
{
    match (below, waits) {
        (Some(x), Some(high)) => from_inserts(with_child(n, x.child, x.took.entry), high),
        (Some(x), None) => from_top(with_child(n, x.child, x.took.entry), x.took.spot),
        (None, Some(high)) => from_inserts(n, high),
        (None, None) => {
            let node = without_deletes(n);
            Ok(Round { over: true, node })
        }
    }
}

// Takes the highest point out of the child that an entry leads to, and fills the child again.
#[cycle(fetch_fill_take_top)]
pub fn take_top(
    t: &mut [u8],
    s: &mut [u8],
    map: &mut [u8],
    e: block::Entry,
    level: usize,
) -> Result<Took, Failure>
    requires { Undoable t.old s.old map.old × (1 ≤ e.block) × (e.block < blocks_of (length t.old)) × (level ≤ 6) }
    ensures kept { Kept t.old s.old map.old t.new s.new map.new }
    ensures took { TakePost t.old t.new s.new map.new level e result }
{
    let b = e.block;
    if !block::block_ok(t, b, level, block::Asked::Child(e)) {
        return Err(Failure::Broken);
    }
    let n = node::load(t, b);
    let size = n.points.n;
    if size == 0 {
        return Err(Failure::NoRoom);
    }
    let spot = buffer::highest(n.points);
    let open = without_point(n, spot.key);
    let full = match fill(t, s, map, open, level) {
        Ok(full) => full,
        Err(e) => return Err(e),
    };
    journal::write_node(t, s, map, b, full);
    let entry = edit::entry_for(b, e.low, full);
    Ok(Took { entry, spot })
}

// Fills P up to 32, as long as anything is left: a round moves one spot. Only the node lives here while a child is worked on, and no copy of it.
// After 128 rounds it gives up: there is no room, and the caller undoes.
#[cycle(fetch_fill_take_top)]
pub fn fill(
    t: &mut [u8],
    s: &mut [u8],
    map: &mut [u8],
    n: node::NodeValue,
    level: usize,
) -> Result<node::NodeValue, Failure>
    requires { Workable t.old s.old map.old n level }
    ensures kept { Kept t.old s.old map.old t.new s.new map.new }
    ensures filled { FillPost t.old t.new s.new map.new level n result }
{
    let mut node = n;
    for _round in 0..128 {
        if 32 <= node.points.n {
            return Ok(node);
        }
        let p = next_turn(node);
        let below = fetch(t, s, map, p.below, level)?;
        let r = match carry_out(node, below, p.waits) {
            Ok(r) => r,
            Err(e) => return Err(e),
        };
        node = r.node;
        if r.over {
            return Ok(node);
        }
    }
    if node.points.n < 32 {
        return Err(Failure::NoRoom);
    }
    Ok(node)
}

// Takes out the child's top that a round asks for.
#[cycle(fetch_fill_take_top)]
fn fetch(
    t: &mut [u8],
    s: &mut [u8],
    map: &mut [u8],
    below: Option<Below>,
    level: usize,
) -> Result<Option<Fetched>, Failure>
    requires { Undoable t.old s.old map.old × (level ≤ 6) × IfSome below (Fetchable t.old) }
    ensures kept { Kept t.old s.old map.old t.new s.new map.new }
    ensures fetched { FetchPost t.old s.old map.old t.new s.new map.new level below result }
{
    match below {
        None => Ok(None),
        Some(x) => {
            if level == 0 {
                return Err(Failure::NoRoom);
            }
            let took = take_top(t, s, map, x.entry, level - 1)?;
            Ok(Some(Fetched {
                child: x.child,
                took,
            }))
        }
    }
}
