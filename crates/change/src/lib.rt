// One change to the tree of a table, from the root down.
#![tactic(auto)]

ghost use Rattle.std.specs.Prelude.{◌≡◌, true, false, ◌≤◌};
ghost use Rattle.octets.specs.Lists.{every};
ghost use Rattle.spot.specs.Keys.{limited};
ghost use Rattle.spot.specs.Spots.{keys};
ghost use Rattle.block.specs.Table.{block, put_block};
ghost use Rattle.buffer.specs.Buffer.{held, named};
ghost use Rattle.journal.specs.Journal.{Kept};
ghost use Rattle.spare.specs.Spares.{taken_of, Reheaded};
ghost use Rattle.settle.specs.Settling.{Settleable};
ghost use Rattle.edit.specs.Edits.{Tidy};
ghost use Rattle.change.specs.Changing.{Changeable, ChangedBy};
ghost use Rattle.change.specs.Growing.{Over, Crownable, CrownPost, GrowPost, Finishable, HasRoom, LightAt, LightPost, HeavyAt};

// The tree after a change at its root: its levels, its root, and how many spare blocks are left.
#[derive(Clone, Copy)]
pub struct Grown {
    pub levels: usize,
    pub root: usize,
    pub left: usize,
}

// Whether a node has room for one change more.
fn is_roomy(n: node::NodeValue) -> bool
    requires { Tidy n }
    ensures { HasRoom n result }
{
    (n.level != 0) & (32 < n.points.n) & (n.inserts.n < 64) & (n.deletes.n < 16)
}

// Where the root has room, only block 0 and the root are written.
fn light(
    t: &mut [u8],
    root: usize,
    level: usize,
    n: node::NodeValue,
    inserts: buffer::SpotBuffer,
    deletes: buffer::KeyBuffer,
    bound: u64,
)
    requires { LightAt t.old root level n inserts.n deletes.n bound × (every limited (keys (held inserts)) ≡ true) × (every limited (named deletes) ≡ true) }
    ensures { LightPost t.old t.new (held inserts) (named deletes) bound }
{
    let next = batch::take_in(n, inserts, deletes);
    node::put_node(t, root, next);
    let none = spare::Spare {
        n: 0,
        blocks: [0; 8],
    };
    spare::rehead(t, none, 0, level + 1, root, bound);
}

// A node over two children, with nothing in it yet.
fn over(level: usize, first: block::Entry, second: block::Entry) -> node::NodeValue
    ensures { Over level first second result }
{
    let mut list = [first; 8];
    list[1] = second;
    let entries = node::Entries { n: 2, list };
    let points = buffer::empty();
    let inserts = buffer::empty();
    let deletes = buffer::empty();
    node::NodeValue {
        level,
        entries,
        points,
        inserts,
        deletes,
    }
}

// A new root over two children, filled, in a spare block.
fn new_root(
    t: &mut [u8],
    w: &mut [u8],
    map: &mut [u8],
    first: block::Entry,
    second: block::Entry,
    level: usize,
    spare: spare::Spare,
    left: usize,
) -> Result<Grown, fill::Failure>
    requires { Crownable t.old w.old map.old first second level spare left }
    ensures kept { Kept t.old w.old map.old t.new w.new map.new }
    ensures crowned { CrownPost t.old t.new first second level spare left result }
{
    if (left == 0) | (6 < level) {
        return Err(fill::Failure::NoRoom);
    }
    let root = spare::last_of(spare, left);
    let n = over(level, first, second);
    let full = match fill::fill(t, w, map, n, level) {
        Ok(full) => full,
        Err(e) => return Err(e),
    };
    journal::write_node(t, w, map, root, full);
    Ok(Grown {
        levels: level + 1,
        root,
        left: left - 1,
    })
}

// Settles the root, and puts a new one over it where it became two.
fn grow(
    t: &mut [u8],
    w: &mut [u8],
    map: &mut [u8],
    root: usize,
    level: usize,
    inserts: buffer::SpotBuffer,
    deletes: buffer::KeyBuffer,
    spare: spare::Spare,
) -> Result<Grown, fill::Failure>
    requires { Settleable t.old w.old map.old root level inserts.n deletes.n spare spare.n }
    ensures kept { Kept t.old w.old map.old t.new w.new map.new }
    ensures grown { GrowPost t.old t.new root level (held inserts) (named deletes) spare result }
{
    let left = spare.n;
    let top = block::Asked::Root(root);
    let r = settle::settle(t, w, map, root, top, level, inserts, deletes, spare, left)?;
    match r.second {
        None => Ok(Grown {
            levels: level + 1,
            root,
            left: r.left,
        }),
        Some(second) => new_root(t, w, map, r.first, second, level + 1, spare, r.left),
    }
}

// Block 0 as the scratch has it, and then brought up to date.
fn finish(
    t: &mut [u8],
    w: &[u8],
    spare: spare::Spare,
    left: usize,
    levels: usize,
    root: usize,
    bound: u64,
)
    requires { Finishable t.old w.now spare left levels root bound }
    ensures { Reheaded (put_block t.old 0 (block w.now 0)) t.new (taken_of spare left) levels root bound }
{
    octets::copy(&w[0..2048], &mut t[0..2048], 2048);
    spare::rehead(t, spare, left, levels, root, bound);
}

// Else the change is settled from the root down, and undone where that fails. Block 0 is kept first and taken back at the end, so that nothing hangs on
// what settling does to it.
fn heavy(
    t: &mut [u8],
    w: &mut [u8],
    root: usize,
    level: usize,
    inserts: buffer::SpotBuffer,
    deletes: buffer::KeyBuffer,
    bound: u64,
) -> Result<(), fill::Failure>
    requires { HeavyAt t.old w.old root level inserts.n deletes.n bound × (every limited (keys (held inserts)) ≡ true) × (every limited (named deletes) ≡ true) }
    ensures { ChangedBy t.old t.new w.old w.new (held inserts) (named deletes) bound result }
{
    let mut map = [0u8; 512];
    journal::save(t, w, &mut map, 0);
    let spare = spare::spare_blocks(t);
    match grow(t, w, &mut map, root, level, inserts, deletes, spare) {
        Ok(g) => {
            finish(t, w, spare, g.left, g.levels, g.root, bound);
            Ok(())
        }
        Err(e) => {
            journal::undo(t, w, &map);
            Err(e)
        }
    }
}

// Carries out one insert or one delete, or leaves the table as it was: there is no room, or a block that was read breaks a rule.
pub fn change(
    t: &mut [u8],
    w: &mut [u8],
    inserts: buffer::SpotBuffer,
    deletes: buffer::KeyBuffer,
    bound: u64,
) -> Result<(), fill::Failure>
    requires { Changeable t.old w.old bound inserts.n deletes.n × (every limited (keys (held inserts)) ≡ true) × (every limited (named deletes) ≡ true) }
    ensures { ChangedBy t.old t.new w.old w.new (held inserts) (named deletes) bound result }
{
    let root = block::root_of(t);
    let level = block::levels_of(t) - 1;
    if !block::block_ok(t, root, level, block::Asked::Root(root)) {
        return Err(fill::Failure::Broken);
    }
    let n = node::load(t, root);
    if is_roomy(n) {
        light(t, root, level, n, inserts, deletes, bound);
        return Ok(());
    }
    heavy(t, w, root, level, inserts, deletes, bound)
}
