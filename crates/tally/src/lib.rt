// How far a walk of the tree has come: the blocks that it has read, and the spots that it has found in them.
#![tactic(auto)]

ghost use Rattle.std.specs.Prelude.{◌≡◌, ◌+◌, ◌<◌, ◌≤◌, ◌^◌};

#[derive(Clone, Copy)]
pub struct Tally {
    pub blocks: usize,
    pub spots: usize,
}

// One more block is read.
pub fn count_block(t: &mut Tally)
    requires { t.old.blocks + 1 < 2 ^ 64 }
    ensures { (t.new.blocks ≡ t.old.blocks + 1) × (t.new.spots ≡ t.old.spots) }
{
    t.blocks = t.blocks + 1;
}

// n more spots are found.
pub fn count_spots(t: &mut Tally, n: usize)
    requires { t.old.spots + n < 2 ^ 64 }
    ensures { (t.new.blocks ≡ t.old.blocks) × (t.new.spots ≡ t.old.spots + n) }
{
    t.spots = t.spots + n;
}

// The tally after a node is read and found spots of it are taken. A walk reads at most 4,096 blocks, and of each at
// most 128 spots.
pub fn node_read(t: Tally, found: usize) -> Tally
    requires { (t.blocks < 4096) × (t.spots ≤ 524288) × (found ≤ 128) }
    ensures { (result.blocks ≡ t.blocks + 1) × (result.spots ≡ t.spots + found) }
{
    let mut tally = t;
    count_block(&mut tally);
    count_spots(&mut tally, found);
    tally
}
