// The leaves and the validation of a block, exported for the benchmarks under measure/.
#![tactic(auto)]

ghost use Rattle.std.specs.Prelude.{◌≡◌, ◌*◌, ◌/◌, true, length};
ghost use Rattle.spot.specs.Spots.{limited_from};

// The sum, modulo 2^64, of the keys that stand 8 bytes apart in s.
#[unsafe(no_mangle)]
pub extern "C" fn perf_sum_keys(s: &[u8]) -> u64
    requires { limited_from s.now 8 (length s.now / 8) 0 ≡ true }
{
    let mut sum: u64 = 0;
    for i in 0..s.len() / 8 {
        sum = sum.wrapping_add(spot::read_key(s, 8 * i));
    }
    sum
}

#[unsafe(no_mangle)]
pub extern "C" fn perf_zero(s: &mut [u8]) {
    octets::zero(s, s.len());
}

#[unsafe(no_mangle)]
pub extern "C" fn perf_copy(from: &[u8], to: &mut [u8])
    requires { length from.now ≡ length to.old }
{
    octets::copy(from, to, from.len());
}

// Validates an inner node that an entry of block 1 leads to.
#[unsafe(no_mangle)]
pub extern "C" fn perf_node_ok(
    s: &[u8],
    blocks: usize,
    level: usize,
    size: usize,
    low: u64,
    top: u64,
    bottom: u64,
) -> bool
    requires { length s.now ≡ 2048 }
{
    let e = block::Entry {
        block: 1,
        size,
        low,
        top,
        bottom,
    };
    block::node_ok(s, blocks, level, block::Asked::Child(e))
}

// Validates the root in block 1, loads it, inserts a spot, and stores it again.
#[unsafe(no_mangle)]
pub extern "C" fn perf_change(t: &mut [u8], level: usize, key: u64, track: u32) -> bool {
    if t.len() < 4096 {
        return false;
    }
    if !block::block_ok(t, 1, level, block::Asked::Root(1)) {
        return false;
    }
    let n = node::load(t, 1);
    let r = edit::threshold(n);
    let m = edit::insert_one(n, spot::Spot { key, track }, r);
    if block::POINTS_MOST < m.points.n {
        return false;
    }
    if block::INSERTS_MOST < m.inserts.n {
        return false;
    }
    node::put_node(t, 1, m);
    true
}
