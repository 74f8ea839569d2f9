// Presses a tour: spots in place order become a read-only table of at most 16 blocks.
#![tactic(auto)]

ghost use Rattle.std.specs.Prelude.{◌≡◌, true, ◌+◌, ◌*◌, ◌≤◌, ◌<◌, length, replicate};
ghost use Rattle.octets.specs.Lists.{rising};
ghost use Rattle.octets.specs.Bytes.{put_bytes};
ghost use Rattle.spot.specs.Spots.{spots_bytes, keys_from, limited_from};
ghost use Rattle.block.specs.Answers.{answer, told};
ghost use Rattle.sweep.specs.Pressed.{padded, catalogue, tiles_bytes, tile_entry_bytes, tiles};
ghost use Rattle.plan.specs.Plans.{piece_spots, piece_tile, made_by};
ghost use Rattle.press.specs.Press.{spots_given, pressable, press_number, PressPost};
ghost use Rattle.press.specs.Writing.{PressReady, PieceReady, PlanReady, TourWritten, extent_of, with_higher, fields_bytes, head_bytes};

use block::Refusal;

// The bytes of a block, of the catalogue before its entries, and of an entry.
const BLOCK_BYTES: usize = 2048;

const HEAD_BYTES: usize = 8;

const ENTRY_BYTES: usize = 36;

// The bytes that a tour may need: 16 blocks.
pub const TOUR_BYTES: usize = 32768;

// The number of spots of a piece, and the lowest and the highest key.
// Stays: a piece without spots has an entry too, with `NO_KEY` for both, so None would only be written back as that.
#[derive(Clone, Copy)]
struct Extent {
    n: usize,
    low: u64,
    high: u64,
}

// Whole spots, not too many, and their keys rise.
fn pressable(spots: &[u8]) -> bool
    ensures { result ≡ pressable spots.now }
{
    let n = spots.len() / 12;
    (n <= 512) & (spots.len() % 12 == 0) & block::rises(spots, 0, 12, n, 0)
}

// All of n spots, whose keys rise, have places inside the limits: the first and the last decide.
fn inside(spots: &[u8], n: usize) -> bool
    requires { (12 * n ≤ length spots.now) × (rising (keys_from spots.now 12 n 0) ≡ true) }
    ensures { result ≡ limited_from spots.now 12 n 0 }
{
    if n == 0 {
        return true;
    }
    (spot::START_KEY <= spot::raw_key(spots, 0))
        & (spot::raw_key(spots, 12 * (n - 1)) < spot::END_KEY)
}

// Whether these spots may be pressed into so many lent bytes.
fn judge(spots: &[u8], bytes: usize) -> Result<(), Refusal>
    ensures { told result ≡ answer (press_number bytes spots.now) 0 }
{
    if bytes < TOUR_BYTES {
        return Err(Refusal::LentLength);
    }
    if !pressable(spots) {
        return Err(Refusal::NotPressable);
    }
    if !inside(spots, spots.len() / 12) {
        return Err(Refusal::PlaceOutside(0));
    }
    Ok(())
}

// The spots of a piece at the front of a block, the rest of it zero.
fn write_tile(spots: &[u8], p: plan::Piece, s: &mut [u8])
    requires { PieceReady spots.now p × (length s.old ≡ 2048) }
    ensures { s.new ≡ padded (spots_bytes (piece_spots (spots_given spots.now) p)) }
{
    octets::zero(s, BLOCK_BYTES);
    let mut at: usize = 0;
    for i in p.from..p.to {
        let x = spot::read_spot(spots, 12 * i);
        if p.floor <= spot::rank_key(x.key) {
            spot::write_spot(s, at, x);
            at += 12;
        }
    }
}

// All blocks behind the catalogue.
fn write_tiles(spots: &[u8], p: plan::Plan, tour: &mut [u8])
    requires { PlanReady spots.now p × (32768 ≤ length tour.old) }
    ensures { tour.new ≡ put_bytes tour.old 2048 (tiles_bytes (tiles (spots_given spots.now))) }
{
    for i in 0..p.count {
        let x = p.pieces[i];
        let from = 2048 * (i + 1);
        let to = from + 2048;
        write_tile(spots, x, &mut tour[from..to]);
    }
}

// One key more, at the end.
fn with_key(e: Extent, k: u64) -> Extent
    requires { e.n < 64 }
    ensures { result ≡ with_higher e k }
{
    if e.n == 0 {
        return Extent {
            n: 1,
            low: k,
            high: k,
        };
    }
    Extent {
        n: e.n + 1,
        low: e.low,
        high: k,
    }
}

// What the catalogue says of the spots of a piece.
fn extent_of(spots: &[u8], p: plan::Piece) -> Extent
    requires { PieceReady spots.now p }
    ensures { result ≡ extent_of (piece_spots (spots_given spots.now) p) }
{
    let mut e = Extent {
        n: 0,
        low: plan::NO_KEY,
        high: plan::NO_KEY,
    };
    for i in p.from..p.to {
        let k = spot::read_key(spots, 12 * i);
        if p.floor <= spot::rank_key(k) {
            e = with_key(e, k);
        }
    }
    e
}

// The key whose passing made a piece.
// Stays: floor 0 is the least there is, and takes all spots as it stands; `made_by` reads it as none.
fn made_key(floor: u64) -> u64
    ensures { result ≡ made_by floor }
{
    if floor == 0 {
        return plan::NO_KEY;
    }
    spot::rank_key(floor - 1)
}

fn write_fields(s: &mut [u8], at: usize, e: Extent, made: u64, ended: u64)
    requires { at + 36 ≤ length s.old }
    ensures { s.new ≡ put_bytes s.old at (fields_bytes e made ended) }
{
    octets::write32(s, at, e.n as u64);
    spot::write_key(s, at + 4, e.low);
    spot::write_key(s, at + 12, e.high);
    spot::write_key(s, at + 20, made);
    spot::write_key(s, at + 28, ended);
}

// The catalogue's entry of a piece.
fn write_entry(spots: &[u8], p: plan::Piece, s: &mut [u8], at: usize)
    requires { PieceReady spots.now p × (at + 36 ≤ length s.old) }
    ensures { s.new ≡ put_bytes s.old at (tile_entry_bytes (piece_tile (spots_given spots.now) p)) }
{
    write_fields(s, at, extent_of(spots, p), made_key(p.floor), p.ended);
}

// The front of the catalogue of n blocks behind it, and zeros in the rest of it.
fn write_head(s: &mut [u8], n: usize)
    requires { (length s.old ≡ 2048) × (n ≤ 15) }
    ensures { s.new ≡ put_bytes (replicate 2048 0) 0 (head_bytes n) }
{
    octets::zero(s, BLOCK_BYTES);
    octets::write32(s, 0, (2048 * (n + 1)) as u64);
    octets::write32(s, 4, 16777216);
}

// Block 0.
fn write_catalogue(spots: &[u8], p: plan::Plan, s: &mut [u8])
    requires { PlanReady spots.now p × (length s.old ≡ 2048) }
    ensures { s.new ≡ catalogue (tiles (spots_given spots.now)) }
{
    write_head(s, p.count);
    for i in 0..p.count {
        let x = p.pieces[i];
        write_entry(spots, x, s, HEAD_BYTES + ENTRY_BYTES * i);
    }
}

// The tour at the front of `tour`.
fn write_tour(spots: &[u8], tour: &mut [u8])
    requires { PressReady spots.now × (32768 ≤ length tour.old) }
    ensures { TourWritten (spots_given spots.now) tour.old tour.new }
{
    let p = plan::plan_of(spots, spots.len() / 12);
    write_catalogue(spots, p, &mut tour[0..BLOCK_BYTES]);
    write_tiles(spots, p, tour);
}

// The tour of these spots at the front of `tour`; its length stands in its first four bytes.
pub fn press(spots: &[u8], tour: &mut [u8]) -> Result<(), Refusal>
    ensures { PressPost spots.now tour.old (told result) tour.new }
{
    judge(spots, tour.len())?;
    write_tour(spots, tour);
    Ok(())
}
