// Spare blocks for an update, and block 0 after it.
#![tactic(auto)]

ghost use Rattle.std.specs.Prelude.{◌≡◌, true, [], ◌∷◌, ◌++◌, ◌+◌, ◌-◌, ◌≤◌, ◌<◌, length};
ghost use Rattle.block.specs.Header.{head_of, header_of};
ghost use Rattle.block.specs.HeaderRules.{header_ok};
ghost use Rattle.spare.specs.Spares.{spare_of, taken_of, SpareIn, HeadFits, Reheaded, Clear, TakenFits, Marked, HeadTurned};

// Up to eight blocks that the table does not use.
// Stays: there is no heap, so a fixed array stands here with how many of it are in use.
#[derive(Clone, Copy)]
pub struct Spare {
    pub n: usize,
    pub blocks: [usize; 8],
}

// The last of the first `left`.
pub fn last_of(s: Spare, left: usize) -> usize
    requires { (0 < left) × (left ≤ 8) }
    ensures { spare_of s left ≡ spare_of s (left - 1) ++ (result ∷ []) }
{
    s.blocks[left - 1]
}

// One block more.
fn one_more(s: Spare, b: usize) -> Spare
    requires { s.n < 8 }
    ensures { (result.n ≡ s.n + 1) × (spare_of result result.n ≡ spare_of s s.n ++ (b ∷ [])) }
{
    let n = s.n;
    let mut next = s;
    next.blocks[n] = b;
    next.n = n + 1;
    next
}

// The lowest of so many blocks that a map does not mark; it marks them afterwards, so that none is found twice.
fn find_clear(map: &mut [u8], blocks: usize) -> Spare
    requires { (length map.old ≡ 512) × (blocks ≤ 4096) }
    ensures { Clear map.old blocks result }
{
    let mut found = Spare {
        n: 0,
        blocks: [0; 8],
    };
    for _ in 0..8usize {
        let b = octets::first_clear(map);
        if blocks <= b {
            return found;
        }
        octets::set_bit(map, b);
        found = one_more(found, b);
    }
    found
}

// Blocks that the map of the table does not mark.
pub fn spare_blocks(t: &[u8]) -> Spare
    requires { header_ok (length t.now) (head_of t.now) ≡ true }
    ensures { SpareIn t.now result }
{
    let mut map = [0u8; block::MAP_BYTES];
    octets::copy(
        &t[block::MAP_FROM..block::MAP_END],
        &mut map,
        block::MAP_BYTES,
    );
    find_clear(&mut map, t.len() / block::BLOCK_BYTES)
}

// Marks the blocks that were taken in a map of blocks in use.
fn mark_taken(map: &mut [u8], s: Spare, left: usize)
    requires { (length map.old ≡ 512) × TakenFits s left }
    ensures { Marked map.old map.new (taken_of s left) }
{
    for i in left..s.n {
        octets::set_bit(map, s.blocks[i]);
    }
}

// The bytes of block 0: levels, root and bound, and the blocks taken are marked.
fn turn_head(head: &mut [u8], s: Spare, left: usize, levels: usize, root: usize, bound: u64)
    requires { (length head.old ≡ 2048) × TakenFits s left × (levels < 256) × (root < 65536) × (bound < 4294967296) }
    ensures { HeadTurned (header_of head.old) (header_of head.new) (taken_of s left) levels root bound }
{
    octets::write8(head, 5, levels);
    octets::write16(head, 6, root);
    octets::write32(head, 8, bound);
    mark_taken(&mut head[block::MAP_FROM..block::MAP_END], s, left);
}

// Block 0 after an update: levels, root and bound, and the blocks taken are marked.
pub fn rehead(t: &mut [u8], s: Spare, left: usize, levels: usize, root: usize, bound: u64)
    requires { HeadFits t.old s left levels root bound }
    ensures { Reheaded t.old t.new (taken_of s left) levels root bound }
{
    turn_head(&mut t[0..block::BLOCK_BYTES], s, left, levels, root, bound);
}
