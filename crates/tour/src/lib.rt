// Report of a pressed tour: the catalogue says which blocks to read.
#![tactic(auto)]

ghost use Rattle.std.specs.Prelude.{◌≡◌, ◌+◌, ◌≤◌, false, MatchOption};
ghost use Rattle.octets.specs.Lists.{keep};
ghost use Rattle.spot.specs.Spots.{put_all, spots_in};
ghost use Rattle.spot.specs.Query.{wants};
ghost use Rattle.block.specs.Answers.{answer_of};
ghost use Rattle.query.specs.Walks.{Collected};
ghost use Rattle.tour.specs.Tour.{TourPost};
ghost use Rattle.tour.specs.Gathering.{Gatherable, TourReadable, blocks_fine, TourRead};

use block::Refusal;

// The wanted spots of a block among the first n of those found; says how many they are.
fn gather_tile(s: &[u8], e: catalogue::Entry, q: spot::Query, found: &mut [u8], n: usize) -> usize
    requires { Gatherable s.now e found.old n }
    ensures { Collected found.old found.new n (put_all (keep (wants q) (spots_in s.now e.size)) (spots_in found.old n)) (n + result) × (result ≤ 64) }
{
    let nothing = [0u64; 1];
    query::gather_run(s, 0, e.size, q, visit::no_path(q), &nothing, found, n)
}

// Reads what the query asks for: `seen` marks the blocks, and the spots are at the front of `found`. Says how many they are, if all that was read keeps its layout.
fn gather(tour: &[u8], q: spot::Query, seen: &mut [u8], found: &mut [u8]) -> Option<usize>
    requires { TourReadable tour.now seen.old found.old }
    ensures { MatchOption result (blocks_fine tour.now q ≡ false) (TourRead tour.now q seen.new found.new) }
{
    let m = tour.len() / 2048;
    let mut n: usize = 0;
    for b in 1..m {
        let e = catalogue::read_entry(&tour[0..2048], b);
        if catalogue::asks(q, m, b, e) {
            let from = b * 2048;
            let tile = &tour[from..from + 2048];
            if !catalogue::tile_ok(tile, m, b, e) {
                return None;
            }
            octets::set_bit(seen, b);
            n += gather_tile(tile, e, q, found, n);
        }
    }
    octets::set_bit(seen, 0);
    Some(n)
}

// Report of a tour: the output and the map are written once all is known.
pub fn tour_report(
    tour: &[u8],
    x1: i32,
    x2: i32,
    y: i32,
    output: &mut [u8],
    read_map: &mut [u8],
) -> Result<u32, Refusal>
    ensures { TourPost x1 x2 y tour.now output.old read_map.old (answer_of result) output.new read_map.new }
{
    if !catalogue::sized(tour.len()) {
        return Err(Refusal::TableLength);
    }
    if read_map.len() != 512 {
        return Err(Refusal::LentLength);
    }
    if !catalogue::catalogue_ok(&tour[0..2048], tour.len()) {
        return Err(Refusal::Broken);
    }
    let q = spot::make_query(x1, x2, y);
    let mut seen = [0u8; 512];
    let mut found = [0u8; 11520];
    let Some(n) = gather(tour, q, &mut seen, &mut found) else {
        return Err(Refusal::Broken);
    };
    let given = n as u32;
    if output.len() / 12 < n {
        return Err(Refusal::Output(given));
    }
    octets::copy(&found, output, 12 * n);
    sort::from_on(output, n, spot::from_key(q));
    octets::copy(&seen, read_map, 512);
    Ok(given)
}
