// What several walks of one table validated, remembered in lent slots: a block that they come to the same way is validated once.
#![tactic(auto)]

ghost use Rattle.std.specs.Prelude.{◌≡◌, ◌+◌, ◌*◌, ◌≤◌, length};
ghost use Rattle.block.specs.Node.{store_of};
ghost use Rattle.block.specs.NodeRules.{node_ok, stands_in};
ghost use Rattle.memo.specs.Known.{words_of, Known, StillKnown};

// A level and what leads to a node, as words.
// Stays: six words and no enum, so that an empty slot is zeros and takes 48 bytes of the caller's stack, where an Option of a struct takes 64.
fn words(level: usize, asked: block::Asked) -> [u64; 6]
    requires { level ≤ 6 }
    ensures { result ≡ words_of level asked }
{
    let twice = 2 * (level as u64);
    match asked {
        block::Asked::Root(b) => [twice + 2, b as u64, 0, 0, 0, 0],
        block::Asked::Child(e) => [
            twice + 1,
            e.block as u64,
            e.size as u64,
            e.low,
            e.top,
            e.bottom,
        ],
    }
}

// Whether the node at b keeps the rules. What was found to do so is remembered: a walk that comes back the same way doesn't validate it again.
pub fn valid(t: &[u8], b: usize, level: usize, asked: block::Asked, known: &mut [[u64; 6]]) -> bool
    requires { (b * 2048 + 2048 ≤ length t.now) × (level ≤ 6) × (stands_in asked ≡ b) × Known t.now known.old }
    ensures { (result ≡ node_ok level asked (store_of t.now b)) × StillKnown t.now known.old known.new }
{
    let slots = known.len();
    if slots == 0 {
        return block::block_ok(t, b, level, asked);
    }
    let slot = b % slots;
    let way = words(level, asked);
    if known[slot] == way {
        return true;
    }
    if !block::block_ok(t, b, level, asked) {
        return false;
    }
    known[slot] = way;
    true
}
