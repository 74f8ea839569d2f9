// Check: whether a table is sound.
#![tactic(auto)]

ghost use Rattle.std.specs.Prelude.{◌≡◌, true, suc, ◌+◌, ◌*◌, ◌≤◌, ◌<◌, length};
ghost use Rattle.octets.specs.Lists.{every, rising, same_list};
ghost use Rattle.spot.specs.Keys.{within};
ghost use Rattle.spot.specs.Spots.{limited_from};
ghost use Rattle.block.specs.Header.{head_of};
ghost use Rattle.block.specs.HeaderRules.{header_ok};
ghost use Rattle.block.specs.Node.{store_of};
ghost use Rattle.block.specs.NodeRules.{ValidBlock};
ghost use Rattle.block.specs.declared.Asked.TheVariants.{Root};
ghost use Rattle.tree.specs.Sound.{in_range, sound};
ghost use Rattle.block.specs.Table.{table_sized};
ghost use Rattle.visit.specs.Visit.{keys_from, part_of, end_of};
ghost use Rattle.soundness.specs.Checks.{Checked, Checkable, shaped_below};

// The n rising keys, w bytes apart from at on, lie in the span.
pub fn keys_within(t: &[u8], at: usize, w: usize, n: usize, span: visit::Span) -> bool
    requires { (8 ≤ w) × (w ≤ 28) × (n ≤ 64) × (at + w * n ≤ length t.now) × (rising (keys_from t.now w n at) ≡ true) × (limited_from t.now w n at ≡ true) }
    ensures { result ≡ every (within span.lo (end_of span)) (keys_from t.now w n at) }
{
    if n == 0 {
        return true;
    }
    (span.lo <= spot::read_key(t, at))
        & visit::before_end(span, spot::read_key(t, at + w * (n - 1)))
}

// The keys of the node at b and its entries' lows lie in the span.
pub fn in_range(t: &[u8], b: usize, span: visit::Span) -> bool
    requires { ValidBlock t.now b }
    ensures { result ≡ in_range (part_of b (Root b) span) (store_of t.now b) }
{
    let from = b * block::BLOCK_BYTES;
    let to = from + block::BLOCK_BYTES;
    let h = block::front_of(&t[from..to]);
    let ap = from + block::points_from(h);
    let ai = from + block::inserts_from(h);
    let ad = from + block::deletes_from(h);
    let buffers = keys_within(t, ap, spot::SPOT_BYTES, h.p, span)
        & keys_within(t, ai, spot::SPOT_BYTES, h.i, span)
        & keys_within(t, ad, spot::KEY_BYTES, h.d, span);
    if h.c == 0 {
        return buffers;
    }
    buffers & keys_within(t, from + 40, block::ENTRY_BYTES, h.c - 1, span)
}

// The part at block b keeps the rules; `seen` marks its blocks, none of them twice.
pub fn sound_walk(
    t: &[u8],
    seen: &mut [u8],
    b: usize,
    level: usize,
    asked: block::Asked,
    span: visit::Span,
) -> bool
    requires { Checkable t.now seen.old b level }
    ensures { Checked t.now seen.old seen.new (suc level) (part_of b asked span) result }
{
    if octets::test_bit(seen, b) {
        return false;
    }
    if !block::block_ok(t, b, level, asked) {
        return false;
    }
    if !in_range(t, b, span) {
        return false;
    }
    octets::set_bit(seen, b);
    let from = b * block::BLOCK_BYTES;
    let to = from + block::BLOCK_BYTES;
    let c = block::front_of(&t[from..to]).c;
    let mut lo = span.lo;
    for i in 0..c {
        let e = block::entry_at(&t[from..to], i);
        let part = visit::child_span(&t[from..to], i, c, lo, span);
        if !sound_walk(t, seen, e.block, level - 1, block::Asked::Child(e), part) {
            return false;
        }
        lo = part.hi.unwrap_or(lo);
    }
    true
}

// The map in block 0 marks the blocks reached, each once, and the tree keeps the rules.
fn tree_ok(t: &[u8]) -> bool
    requires { header_ok (length t.now) (head_of t.now) ≡ true }
    ensures { result ≡ shaped_below t.now }
{
    let mut seen = [0u8; block::MAP_BYTES];
    let root = block::root_of(t);
    let level = block::levels_of(t) - 1;
    if !sound_walk(
        t,
        &mut seen,
        root,
        level,
        block::Asked::Root(root),
        visit::root_span(),
    ) {
        return false;
    }
    octets::set_bit(&mut seen, 0);
    t[block::MAP_FROM..block::MAP_END] == seen[..]
}

// The table is sound.
pub fn is_sound(t: &[u8]) -> bool
    requires { table_sized (length t.now) ≡ true }
    ensures { result ≡ sound t.now }
{
    if !block::header_ok(t) {
        return false;
    }
    if !tree_ok(t) {
        return false;
    }
    let mut seen = [0u8; block::MAP_BYTES];
    let everything = spot::everything();
    match query::count_table(t, &mut seen, everything) {
        Some(all) => all.spots as u64 <= block::bound_of(t),
        None => false,
    }
}
