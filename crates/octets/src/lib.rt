// Big-endian numbers, maps of blocks, and filling and copying, in slices of bytes.
#![tactic(auto)]

ghost use Rattle.std.specs.Prelude.{◌≡◌, ◌++◌, ◌+◌, ◌*◌, ◌/◌, ◌≤◌, ◌<◌, length, get_or, take, drop, replicate};
ghost use Rattle.octets.specs.Bytes.{be, put_be};
ghost use Rattle.octets.specs.Bitmap.{bit, set_bit, ones_below, FirstClear};

fn wide(x: u8) -> u64
    ensures { (result ≡ x) × (result < 256) }
{
    x as u64
}

fn count(x: u8) -> usize
    ensures { (result ≡ x) × (result < 256) }
{
    x as usize
}

pub fn byte_at(s: &[u8], at: usize) -> u64
    requires { at < length s.now }
    ensures { (result ≡ get_or s.now at 0) × (result < 256) }
{
    wide(s[at])
}

// A byte as a count.
pub fn count_at(s: &[u8], at: usize) -> usize
    requires { at < length s.now }
    ensures { (result ≡ get_or s.now at 0) × (result < 256) }
{
    count(s[at])
}

pub fn read16(s: &[u8], at: usize) -> usize
    requires { at + 2 ≤ length s.now }
    ensures { (result ≡ be 2 s.now at) × (result < 65536) }
{
    count_at(s, at) * 256 + count_at(s, at + 1)
}

pub fn read32(s: &[u8], at: usize) -> u64
    requires { at + 4 ≤ length s.now }
    ensures { (result ≡ be 4 s.now at) × (result < 4294967296) }
{
    ((byte_at(s, at) * 256 + byte_at(s, at + 1)) * 256 + byte_at(s, at + 2)) * 256
        + byte_at(s, at + 3)
}

pub fn read64(s: &[u8], at: usize) -> u64
    requires { at + 8 ≤ length s.now }
    ensures { (result ≡ be 8 s.now at) × (result < 18446744073709551616) }
{
    read32(s, at) * 4294967296 + read32(s, at + 4)
}

// The lowest byte of v.
pub fn write8(s: &mut [u8], at: usize, v: usize)
    requires { at + 1 ≤ length s.old }
    ensures { s.new ≡ put_be 1 s.old at v }
{
    s[at] = (v % 256) as u8;
}

// The two lowest bytes of v.
pub fn write16(s: &mut [u8], at: usize, v: usize)
    requires { at + 2 ≤ length s.old }
    ensures { s.new ≡ put_be 2 s.old at v }
{
    s[at] = (v / 256 % 256) as u8;
    s[at + 1] = (v % 256) as u8;
}

// The four lowest bytes of v.
pub fn write32(s: &mut [u8], at: usize, v: u64)
    requires { at + 4 ≤ length s.old }
    ensures { s.new ≡ put_be 4 s.old at v }
{
    s[at] = (v / 256 / 256 / 256 % 256) as u8;
    s[at + 1] = (v / 256 / 256 % 256) as u8;
    s[at + 2] = (v / 256 % 256) as u8;
    s[at + 3] = (v % 256) as u8;
}

pub fn test_bit(map: &[u8], n: usize) -> bool
    requires { n / 8 < length map.now }
    ensures { result ≡ bit map.now n }
{
    (map[n / 8] >> (n % 8)) % 2 == 1
}

pub fn set_bit(map: &mut [u8], n: usize)
    requires { n / 8 < length map.old }
    ensures { map.new ≡ set_bit map.old n }
{
    let i = n / 8;
    map[i] = map[i] | (1u8 << (n % 8));
}

// The number of bits that are set.
pub fn ones(map: &[u8]) -> usize
    requires { length map.now ≤ 512 }
    ensures { result ≡ ones_below map.now (8 * length map.now) }
{
    let mut n: usize = 0;
    for byte in map {
        n += u8::count_ones(*byte) as usize;
    }
    n
}

// The lowest bit that is clear, or the number of bits.
pub fn first_clear(map: &[u8]) -> usize
    requires { length map.now ≤ 512 }
    ensures { FirstClear map.now result }
{
    for (i, byte) in map.iter().enumerate() {
        if *byte != 255 {
            return i * 8 + (u8::trailing_zeros(255 - *byte) as usize);
        }
    }
    map.len() * 8
}

// The first n bytes become 0.
pub fn zero(s: &mut [u8], n: usize)
    requires { n ≤ length s.old }
    ensures { s.new ≡ replicate n 0 ++ drop n s.old }
{
    s[..n].fill(0);
}

// The first n bytes become those of `from`.
pub fn copy(from: &[u8], to: &mut [u8], n: usize)
    requires { (n ≤ length from.now) × (n ≤ length to.old) }
    ensures { to.new ≡ take n from.now ++ drop n to.old }
{
    // Stays: `copy_from_slice` would ask the C library for memmove, which nothing here needs.
    for i in 0..n {
        to[i] = from[i];
    }
}
