// The node in memory: loaded from a block that keeps the rules, stored to exactly its 2,048 bytes.
#![tactic(auto)]

ghost use Rattle.std.specs.Prelude.{◌≡◌, true, ◌∷◌, ◌++◌, suc, ◌+◌, ◌-◌, ◌*◌, ◌≤◌, ◌<◌, length, take, drop, replicate};
ghost use Rattle.octets.specs.Lists.{records};
ghost use Rattle.spot.specs.Keys.{limited};
ghost use Rattle.spot.specs.Spots.{key_at, limited_from};
ghost use Rattle.block.specs.Access.{front_of};
ghost use Rattle.block.specs.NodeRules.{ValidBlock, ValidBytes};
ghost use Rattle.node.specs.Memory.{entries_of, EntryAt, Storable, Stored, StoredIn, Loaded};
ghost use Rattle.octets.specs.Bytes.{put_bytes};
ghost use Rattle.node.specs.Bytes.{front_bytes, bytes_unless, entry_bytes, key_fits, keys_fit, Layout, laid_spots, laid_keys, Written, EntriesWritten};
ghost use Rattle.node.specs.Blocks.{EntriesLoaded, LoadedIn};

use buffer::{Buffer, Element};

// The child entries of a node, held together as one value; the first n are in use.
// Stays: there is no heap, so a fixed array stands here with how many of it are in use.
#[derive(Clone, Copy)]
pub struct Entries {
    pub n: usize,
    pub list: [block::Entry; 8],
}

#[derive(Clone, Copy)]
pub struct NodeValue {
    pub level: usize,
    pub entries: Entries,
    pub points: buffer::SpotBuffer,
    pub inserts: buffer::SpotBuffer,
    pub deletes: buffer::KeyBuffer,
}

// How what stands in a buffer lies in a block: so many bytes for each, one behind the other.
trait Laid: Element {
    ghost laid: { Layout Self };

    fn width() -> usize
        ensures { result ≡ laid.width };

    fn read(s: &[u8], at: usize) -> Self
        requires { (at + laid.width ≤ length s.now) × (limited (key_at s.now at) ≡ true) }
        ensures { result ≡ laid.at s.now at };

    fn write(self, s: &mut [u8], at: usize)
        requires { at + laid.width ≤ length s.old }
        ensures { (s.new ≡ put_bytes s.old at (laid.bytes self)) × (laid.fits self ≡ true) };
}

impl Laid for spot::Spot {
    ghost laid = { laid_spots };

    fn width() -> usize {
        spot::SPOT_BYTES
    }

    fn read(s: &[u8], at: usize) -> spot::Spot {
        spot::read_spot(s, at)
    }

    fn write(self, s: &mut [u8], at: usize) {
        spot::write_spot(s, at, self);
    }
}

impl Laid for u64 {
    ghost laid = { laid_keys };

    fn width() -> usize {
        spot::KEY_BYTES
    }

    fn read(s: &[u8], at: usize) -> u64 {
        spot::read_key(s, at)
    }

    fn write(self, s: &mut [u8], at: usize) {
        spot::write_key(s, at, self);
    }
}

// The i-th entry.
pub fn entry(es: Entries, i: usize) -> block::Entry
    requires { (i < es.n) × (es.n ≤ 8) }
    ensures { EntryAt (entries_of es) i result }
{
    es.list[i]
}

// The entries with e in the place of the i-th.
pub fn replace(es: Entries, i: usize, e: block::Entry) -> Entries
    requires { (i < es.n) × (es.n ≤ 8) }
    ensures { (result.n ≡ es.n) × (entries_of result ≡ take i (entries_of es) ++ (e ∷ drop (suc i) (entries_of es))) }
{
    let mut next = es;
    next.list[i] = e;
    next
}

// The entries with two in the place of the i-th.
pub fn replace_two(es: Entries, i: usize, e: block::Entry, f: block::Entry) -> Entries
    requires { (i < es.n) × (es.n < 8) }
    ensures { (result.n ≡ es.n + 1) × (entries_of result ≡ take i (entries_of es) ++ (e ∷ f ∷ drop (suc i) (entries_of es))) }
{
    let n = es.n;
    let mut next = es;
    next.list[i] = e;
    next.list[i + 1] = f;
    for j in i + 1..n {
        let x = es.list[j];
        next.list[j + 1] = x;
    }
    next.n = n + 1;
    next
}

// The first k entries, and those from the k-th on.
pub fn entries_before(es: Entries, k: usize) -> Entries
    requires { (k ≤ es.n) × (es.n ≤ 8) }
    ensures { (result.n ≡ k) × (entries_of result ≡ take k (entries_of es)) }
{
    let mut next = es;
    next.n = k;
    next
}

pub fn entries_from(es: Entries, k: usize) -> Entries
    requires { (k ≤ es.n) × (es.n ≤ 8) }
    ensures { (result.n ≡ es.n - k) × (entries_of result ≡ drop k (entries_of es)) }
{
    let n = es.n;
    let mut next = es;
    for j in k..n {
        let x = es.list[j];
        next.list[j - k] = x;
    }
    next.n = n - k;
    next
}

// ---- storing

// The numbers at the front of a node.
fn write_front(s: &mut [u8], h: block::Front)
    requires { 8 ≤ length s.old }
    ensures { s.new ≡ put_bytes s.old 0 (front_bytes h) }
{
    octets::write16(s, 0, h.used);
    octets::write8(s, 2, h.version);
    octets::write8(s, 3, h.level);
    octets::write8(s, 4, h.p);
    octets::write8(s, 5, h.i);
    octets::write8(s, 6, h.d);
    octets::write8(s, 7, h.c);
}

// A key at a place, zeros where it is unused.
// Stays: flag and key come from an entry's own fields, and an Option would be made only to be taken apart here.
fn write_unless(s: &mut [u8], at: usize, k: u64, unused: bool)
    requires { at + 8 ≤ length s.old }
    ensures { (s.new ≡ put_bytes s.old at (bytes_unless unused k)) × (key_fits k ≡ true) }
{
    if unused {
        octets::write32(s, at, 0);
        octets::write32(s, at + 4, 0);
        return;
    }
    spot::write_key(s, at, k);
}

// An entry at a place; the range field of a node's first is unused.
fn write_entry(s: &mut [u8], at: usize, e: block::Entry, first: bool)
    requires { at + 28 ≤ length s.old }
    ensures { (s.new ≡ put_bytes s.old at (entry_bytes first e)) × (keys_fit e ≡ true) }
{
    let bare = e.size == 0;
    octets::write16(s, at, e.block);
    octets::write8(s, at + 2, e.size);
    octets::write8(s, at + 3, 0);
    write_unless(s, at + 4, e.low, first);
    write_unless(s, at + 12, e.top, bare);
    write_unless(s, at + 20, e.bottom, bare);
}

fn write_entries(s: &mut [u8], es: Entries)
    requires { (es.n ≤ 8) × (8 + 28 * es.n ≤ length s.old) }
    ensures { EntriesWritten s.old s.new (entries_of es) }
{
    let n = es.n;
    for i in 0..n {
        let e = es.list[i];
        write_entry(s, block::FRONT_BYTES + block::ENTRY_BYTES * i, e, i == 0);
    }
}

fn write_list<B: Buffer>(s: &mut [u8], at: usize, b: B)
where
    B::Item: Laid,
    requires { (B.count b ≤ B.room) × (at + B.Item.laid.width * B.count b ≤ length s.old) }
    ensures { Written B.Item.laid s.old s.new at (B.held b) }
{
    for (i, x) in b.as_slice().iter().enumerate() {
        x.write(s, at + B::Item::width() * i);
    }
}

// All bytes from a place on become 0.
fn zero_from(s: &mut [u8], at: usize)
    requires { at ≤ length s.old }
    ensures { s.new ≡ take at s.old ++ replicate (length s.old - at) 0 }
{
    let n = s.len();
    octets::zero(&mut s[at..n], n - at);
}

// The node as the 2,048 bytes of a block; what is not named is zero.
pub fn store(s: &mut [u8], n: NodeValue)
    requires { (length s.old ≡ 2048) × Storable n }
    ensures { StoredIn s.new n }
{
    let es = n.entries;
    let points = n.points;
    let inserts = n.inserts;
    let deletes = n.deletes;
    let c = es.n;
    let p = points.n;
    let i = inserts.n;
    let d = deletes.n;
    let at = block::FRONT_BYTES + block::ENTRY_BYTES * c;
    let ai = at + spot::SPOT_BYTES * p;
    let ad = ai + spot::SPOT_BYTES * i;
    let used = ad + spot::KEY_BYTES * d;
    let level = n.level;
    let version = 1;
    write_front(
        s,
        block::Front {
            used,
            version,
            level,
            p,
            i,
            d,
            c,
        },
    );
    write_entries(s, es);
    write_list(s, at, points);
    write_list(s, ai, inserts);
    write_list(s, ad, deletes);
    zero_from(s, used);
}

// The node stored to exactly its block of the table.
pub fn put_node(t: &mut [u8], b: usize, n: NodeValue)
    requires { (b * 2048 + 2048 ≤ length t.old) × Storable n }
    ensures { Stored t.old t.new b n }
{
    let from = b * block::BLOCK_BYTES;
    let to = from + block::BLOCK_BYTES;
    store(&mut t[from..to], n);
}

// ---- loading

// The c entries of a node.
fn load_entries(s: &[u8], c: usize) -> Entries
    requires { ValidBytes s.now × (c ≡ (front_of s.now).c) }
    ensures { EntriesLoaded s.now result }
{
    let none = block::Entry {
        block: 0,
        size: 0,
        low: 0,
        top: 0,
        bottom: 0,
    };
    let mut out = Entries {
        n: c,
        list: [none; 8],
    };
    for i in 0..c {
        let e = block::entry_at(s, i);
        out.list[i] = e;
    }
    out
}

// The n elements from a place on.
fn load_list<B: Buffer>(s: &[u8], at: usize, n: usize) -> B
where
    B::Item: Laid,
    requires { (n ≤ B.room) × (at + B.Item.laid.width * n ≤ length s.now) × (limited_from s.now B.Item.laid.width n at ≡ true) }
    ensures { (B.count result ≡ n) × (B.held result ≡ records (B.Item.laid.at s.now) B.Item.laid.width n at) }
{
    let mut out: B = buffer::empty();
    for i in 0..n {
        out.push(B::Item::read(s, at + B::Item::width() * i));
    }
    out
}

// The node in the bytes of a block that keeps the rules.
fn load_block(s: &[u8]) -> NodeValue
    requires { ValidBytes s.now }
    ensures { LoadedIn s.now result }
{
    let h = block::front_of(s);
    let level = octets::count_at(s, 3);
    let entries = load_entries(s, h.c);
    let points = load_list(s, block::points_from(h), h.p);
    let inserts = load_list(s, block::inserts_from(h), h.i);
    let deletes = load_list(s, block::deletes_from(h), h.d);
    NodeValue {
        level,
        entries,
        points,
        inserts,
        deletes,
    }
}

// The node of a block that keeps the rules.
pub fn load(t: &[u8], b: usize) -> NodeValue
    requires { ValidBlock t.now b }
    ensures { Loaded t.now b result }
{
    let from = b * block::BLOCK_BYTES;
    let to = from + block::BLOCK_BYTES;
    load_block(&t[from..to])
}
