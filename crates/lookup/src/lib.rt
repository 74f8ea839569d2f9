// The lookup of one key: down the one path whose ranges hold it, to the first node that names it.
#![tactic(auto)]

ghost use Rattle.std.specs.Prelude.{◌≡◌, true, suc, length};
ghost use Rattle.octets.specs.Lists.{records};
ghost use Rattle.spot.specs.Keys.{within};
ghost use Rattle.spot.specs.Spots.{find, spot_at};
ghost use Rattle.block.specs.Table.{table_sized};
ghost use Rattle.block.specs.Node.{store_of};
ghost use Rattle.block.specs.NodeRules.{ValidBlock};
ghost use Rattle.visit.specs.Visit.{Ready, end_of, part_of};
ghost use Rattle.lookup.specs.Answers.{LookupPost};
ghost use Rattle.lookup.specs.Words.{track_found, Speaks, Lookable, looked_in};

// Block 0, or a node that a lookup reads, breaks a rule.
#[derive(Clone, Copy, Debug, PartialEq, Eq)]
pub struct Broken;

// What one node says of a key: live with this track, gone, or nothing.
#[derive(Clone, Copy, Debug, PartialEq, Eq)]
pub enum Word {
    Live(u32),
    Gone,
    Silent,
}

// The track of the spot of k, if it is among the n rising ones from at on.
fn find_run(t: &[u8], at: usize, n: usize, k: u64) -> Option<u32>
    requires { Ready t.now at 12 n }
    ensures { track_found result ≡ find k (records (spot_at t.now) 12 n at) }
{
    let i = visit::below(t, at, spot::SPOT_BYTES, n, k);
    if n <= i {
        return None;
    }
    let s = spot::read_spot(t, at + spot::SPOT_BYTES * i);
    if s.key == k {
        return Some(s.track);
    }
    None
}

// What the node at b says of k.
fn node_says(t: &[u8], b: usize, k: u64) -> Word
    requires { ValidBlock t.now b }
    ensures { Speaks t.now b k result }
{
    let from = b * block::BLOCK_BYTES;
    let to = from + block::BLOCK_BYTES;
    let h = block::front_of(&t[from..to]);
    let ap = from + block::points_from(h);
    let ai = from + block::inserts_from(h);
    let ad = from + block::deletes_from(h);
    if let Some(track) = find_run(t, ap, h.p, k) {
        return Word::Live(track);
    }
    if let Some(track) = find_run(t, ai, h.i, k) {
        return Word::Live(track);
    }
    if visit::has_key(t, ad, spot::KEY_BYTES, h.d, k) {
        return Word::Gone;
    }
    Word::Silent
}

// The range holds k.
fn holds(span: visit::Span, k: u64) -> bool
    ensures { result ≡ within span.lo (end_of span) k }
{
    (span.lo <= k) & visit::before_end(span, k)
}

// The key in the part at block b: each node on its path is validated when it is read.
fn look_in(
    t: &[u8],
    b: usize,
    level: usize,
    asked: block::Asked,
    span: visit::Span,
    k: u64,
) -> Result<Option<u32>, Broken>
    requires { Lookable t.now b level }
    ensures { result ≡ looked_in (suc level) (store_of t.now) k (part_of b asked span) }
{
    if !block::block_ok(t, b, level, asked) {
        return Err(Broken);
    }
    match node_says(t, b, k) {
        Word::Live(track) => return Ok(Some(track)),
        Word::Gone => return Ok(None),
        Word::Silent => {}
    }
    let from = b * block::BLOCK_BYTES;
    let to = from + block::BLOCK_BYTES;
    let c = block::front_of(&t[from..to]).c;
    let mut lo = span.lo;
    for i in 0..c {
        let e = block::entry_at(&t[from..to], i);
        let part = visit::child_span(&t[from..to], i, c, lo, span);
        if holds(part, k) {
            return look_in(t, e.block, level - 1, block::Asked::Child(e), part, k);
        }
        lo = part.hi.unwrap_or(lo);
    }
    Ok(None)
}

// The track of the key, where it is live.
pub fn look_up(t: &[u8], k: u64) -> Result<Option<u32>, Broken>
    requires { table_sized (length t.now) ≡ true }
    ensures { LookupPost t.now k result }
{
    if block::header_ok(t) {
        let root = block::root_of(t);
        let level = block::levels_of(t) - 1;
        return look_in(
            t,
            root,
            level,
            block::Asked::Root(root),
            visit::root_span(),
            k,
        );
    }
    Err(Broken)
}
