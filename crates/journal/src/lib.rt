// Undo by block.
#![tactic(auto)]

ghost use Rattle.std.specs.Prelude.{◌≡◌, true, ◌+◌, ◌*◌, ◌≤◌, ◌<◌, length};
ghost use Rattle.octets.specs.Bitmap.{bit};
ghost use Rattle.block.specs.Table.{block, blocks_of, put_block};
ghost use Rattle.node.specs.Memory.{Storable, Stored};
ghost use Rattle.journal.specs.Journal.{Undoable, Kept, Undone};

// Block b becomes the block b of `from`.
fn copy_block(to: &mut [u8], from: &[u8], b: usize)
    requires { (b * 2048 + 2048 ≤ length to.old) × (b * 2048 + 2048 ≤ length from.now) }
    ensures { to.new ≡ put_block to.old b (block from.now b) }
{
    let at = b * block::BLOCK_BYTES;
    let end = at + block::BLOCK_BYTES;
    octets::copy(&from[at..end], &mut to[at..end], block::BLOCK_BYTES);
}

// Keeps block b in scratch, unless it is kept already.
pub fn save(t: &[u8], s: &mut [u8], map: &mut [u8], b: usize)
    requires { Undoable t.now s.old map.old × (b < blocks_of (length t.now)) }
    ensures { Kept t.now s.old map.old t.now s.new map.new × (bit map.new b ≡ true) }
{
    let kept = octets::test_bit(map, b);
    if kept {
        return;
    }
    copy_block(s, t, b);
    octets::set_bit(map, b);
}

// Stores a node in block b, which is kept first.
pub fn write_node(t: &mut [u8], s: &mut [u8], map: &mut [u8], b: usize, n: node::NodeValue)
    requires { Undoable t.old s.old map.old × (b < blocks_of (length t.old)) × Storable n }
    ensures { Kept t.old s.old map.old t.new s.new map.new × Stored t.old t.new b n }
{
    save(t, s, map, b);
    node::put_node(t, b, n);
}

// Puts back every block that was kept.
pub fn undo(t: &mut [u8], s: &[u8], map: &[u8])
    requires { Undoable t.old s.now map.now }
    ensures { Undone t.old s.now map.now t.new }
{
    let n = t.len() / block::BLOCK_BYTES;
    for b in 0..n {
        if octets::test_bit(map, b) {
            copy_block(t, s, b);
        }
    }
}
