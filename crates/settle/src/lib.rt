// Pushing a batch down and settling the child that overflows call for each other, a level lower each time (source section 4, steps i to v).
#![tactic(auto)]

ghost use Rattle.std.specs.Prelude.{◌≡◌, true, false, ◌<◌, length};
ghost use Rattle.block.specs.Table.{blocks_of};
ghost use Rattle.block.specs.NodeRules.{zero_first, lows};
ghost use Rattle.tree.specs.Part.{low_of};
ghost use Rattle.buffer.specs.Buffer.{held, named};
ghost use Rattle.node.specs.Memory.{entries_of};
ghost use Rattle.journal.specs.Journal.{Kept};
ghost use Rattle.fill.specs.Filling.{Workable};
ghost use Rattle.settle.specs.Settling.{Settleable, SettlePost, Pushable, WorkPost, SplitWhen, StandsFor, Cuttable, PlacePost, StowPost, FinishPost, Arriving, Arrived};

// A part after settling: its entry, the second one where it became two, and how many spare blocks are left.
#[derive(Clone, Copy)]
pub struct Settled {
    pub first: block::Entry,
    pub second: Option<block::Entry>,
    pub left: usize,
}

// A node in memory that was worked on, and how many spare blocks are left.
#[derive(Clone, Copy)]
pub struct Worked {
    pub node: node::NodeValue,
    pub left: usize,
}

// A node that was worked on and stored: its entry, and how many spare blocks are left.
#[derive(Clone, Copy)]
pub struct Finished {
    pub entry: block::Entry,
    pub left: usize,
}

// The low of the entry that leads to a node; the root has none.
fn low_of(asked: block::Asked) -> u64
    ensures { result ≡ low_of asked }
{
    match asked {
        block::Asked::Root(_) => 0,
        block::Asked::Child(e) => e.low,
    }
}

// A leaf with over 64 points, or a node of eight entries that must push, is cut in two: two halves of four entries have room for what a push brings.
fn must_split(n: node::NodeValue) -> bool
    ensures { SplitWhen n result }
{
    if n.level == 0 {
        return 64 < n.points.n;
    }
    (8 <= n.entries.n) & ((64 < n.inserts.n) | (16 < n.deletes.n))
}

// The node of a block, with a batch taken in.
fn receive(
    t: &[u8],
    b: usize,
    inserts: buffer::SpotBuffer,
    deletes: buffer::KeyBuffer,
) -> node::NodeValue
    requires { Arriving t.now b inserts.n deletes.n }
    ensures { Arrived t.now b (held inserts) (named deletes) inserts.n deletes.n result }
{
    let n = node::load(t, b);
    batch::take_in(n, inserts, deletes)
}

// Takes a batch into the part at block b.
#[cycle(finish_push_settle_split)]
pub fn settle(
    t: &mut [u8],
    s: &mut [u8],
    map: &mut [u8],
    b: usize,
    asked: block::Asked,
    level: usize,
    inserts: buffer::SpotBuffer,
    deletes: buffer::KeyBuffer,
    spare: spare::Spare,
    left: usize,
) -> Result<Settled, fill::Failure>
    requires { Settleable t.old s.old map.old b level inserts.n deletes.n spare left }
    ensures kept { Kept t.old s.old map.old t.new s.new map.new }
    ensures settled { SettlePost t.old t.new level b asked (held inserts) (named deletes) spare left result }
{
    if !block::block_ok(t, b, level, asked) {
        return Err(fill::Failure::Broken);
    }
    let full = receive(t, b, inserts, deletes);
    if must_split(full) {
        return split(t, s, map, b, asked, level, full, spare, left);
    }
    let low = low_of(asked);
    let x = finish(t, s, map, b, low, full, level, spare, left)?;
    Ok(Settled {
        first: x.entry,
        second: None,
        left: x.left,
    })
}

// The node cut in two: each half is finished by itself, and the right one takes a spare block. The left one is in its block before the right one is worked on.
#[cycle(finish_push_settle_split)]
fn split(
    t: &mut [u8],
    s: &mut [u8],
    map: &mut [u8],
    b: usize,
    asked: block::Asked,
    level: usize,
    n: node::NodeValue,
    spare: spare::Spare,
    left: usize,
) -> Result<Settled, fill::Failure>
    requires { StandsFor t.old s.old map.old b level asked n spare left × Cuttable level n }
    ensures kept { Kept t.old s.old map.old t.new s.new map.new }
    ensures placed { PlacePost t.old t.new level b asked n spare left result }
{
    if left == 0 {
        return Err(fill::Failure::NoRoom);
    }
    let c = spare::last_of(spare, left);
    let sep = batch::cut_key(n);
    let low = low_of(asked);
    let lower = batch::half(n, sep, false);
    let upper = batch::half(n, sep, true);
    if (64 < lower.points.n) | (64 < upper.points.n) {
        return Err(fill::Failure::NoRoom);
    }
    let x = finish(t, s, map, b, low, lower, level, spare, left - 1)?;
    let y = finish(t, s, map, c, sep, upper, level, spare, x.left)?;
    Ok(Settled {
        first: x.entry,
        second: Some(y.entry),
        left: y.left,
    })
}

// Fills P, and stores the node in block b; gives its entry.
// Never inlined: `finish` would have these copies of the node under each level that it pushes down to.
#[inline(never)]
fn stow(
    t: &mut [u8],
    s: &mut [u8],
    map: &mut [u8],
    b: usize,
    low: u64,
    n: node::NodeValue,
    level: usize,
) -> Result<block::Entry, fill::Failure>
    requires { Workable t.old s.old map.old n level × (b < blocks_of (length t.old)) × (zero_first (lows (entries_of n.entries)) ≡ true) }
    ensures kept { Kept t.old s.old map.old t.new s.new map.new }
    ensures stowed { StowPost t.old t.new b low level n result }
{
    let full = match fill::fill(t, s, map, n, level) {
        Ok(full) => full,
        Err(e) => return Err(e),
    };
    if (64 < full.inserts.n) | (16 < full.deletes.n) {
        return Err(fill::Failure::NoRoom);
    }
    journal::write_node(t, s, map, b, full);
    Ok(edit::entry_for(b, low, full))
}

// Pushes where that is needed, fills P, and stores the node in block b. Only its entry comes back, so that no node lives while another is worked on.
#[cycle(finish_push_settle_split)]
fn finish(
    t: &mut [u8],
    s: &mut [u8],
    map: &mut [u8],
    b: usize,
    low: u64,
    n: node::NodeValue,
    level: usize,
    spare: spare::Spare,
    left: usize,
) -> Result<Finished, fill::Failure>
    requires { Pushable t.old s.old map.old n level spare left × (b < blocks_of (length t.old)) }
    ensures kept { Kept t.old s.old map.old t.new s.new map.new }
    ensures finished { FinishPost t.old t.new b low level n spare left result }
{
    let w = match push(t, s, map, n, level, spare, left) {
        Ok(w) => w,
        Err(e) => return Err(e),
    };
    let entry = stow(t, s, map, b, low, w.node, level)?;
    Ok(Finished {
        entry,
        left: w.left,
    })
}

// Where I or D is too large, hands a batch of it down to the child for which most waits.
#[cycle(finish_push_settle_split)]
pub fn push(
    t: &mut [u8],
    s: &mut [u8],
    map: &mut [u8],
    n: node::NodeValue,
    level: usize,
    spare: spare::Spare,
    left: usize,
) -> Result<Worked, fill::Failure>
    requires { Pushable t.old s.old map.old n level spare left }
    ensures kept { Kept t.old s.old map.old t.new s.new map.new }
    ensures worked { WorkPost t.old t.new s.new map.new level n spare left result }
{
    if (n.inserts.n <= 64) & (n.deletes.n <= 16) {
        return Ok(Worked { node: n, left });
    }
    if (level == 0) | (n.entries.n == 0) | (8 <= n.entries.n) {
        return Err(fill::Failure::NoRoom);
    }
    let p = batch::pick(n);
    let e = node::entry(n.entries, p.child);
    let r = settle(
        t,
        s,
        map,
        e.block,
        block::Asked::Child(e),
        level - 1,
        p.inserts,
        p.deletes,
        spare,
        left,
    )?;
    let node = batch::put_back(p.node, p.child, r.first, r.second);
    Ok(Worked { node, left: r.left })
}
