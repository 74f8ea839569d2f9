// The table laid out anew, as it is and with one change to its live spots.
#![tactic(auto)]

ghost use Rattle.std.specs.Prelude.{◌≡◌, true, ◌≤◌, leb, length};
ghost use Rattle.spot.specs.Keys.{limited};
ghost use Rattle.spot.specs.Spots.{put, without};
ghost use Rattle.block.specs.Table.{table_sized, capacity};
ghost use Rattle.tree.specs.Walk.{live_spots};
ghost use Rattle.renew.specs.Renewed.{Gathered, Renewed};

mod amend;

// How many live spots there are, once they are laid in the scratch in place order; None where a rule is broken.
pub fn gather(table: &[u8], scratch: &mut [u8]) -> Option<usize>
    requires { (table_sized (length table.now) ≡ true) × (length table.now ≤ length scratch.old) }
    ensures { Gathered table.now scratch.old scratch.new result }
{
    let mut seen = [0u8; block::MAP_BYTES];
    let everything = spot::everything();
    let Some(all) = query::count_table(table, &mut seen, everything) else {
        return None; // a broken walk is no empty table
    };
    if block::capacity_of(table.len()) < all.spots {
        return None;
    }
    query::collect_table(table, scratch, everything);
    if !block::rises(scratch, 0, spot::SPOT_BYTES, all.spots, 0) {
        return None;
    }
    Some(all.spots)
}

// The live spots laid out anew; false, with the table as it was, where a rule is broken.
pub fn anew(table: &mut [u8], scratch: &mut [u8]) -> bool
    requires { (table_sized (length table.old) ≡ true) × (length table.old ≤ length scratch.old) }
    ensures { Renewed table.old table.new scratch.old scratch.new (live_spots table.old) true result }
{
    let Some(live) = gather(table, scratch) else {
        return false;
    };
    build::build_table(table, scratch, live);
    true
}

// The live spots laid out anew with s put in, in the place of one with its key; false, with the table as it was, where a rule is broken or they are too
// many.
pub fn with_spot(table: &mut [u8], scratch: &mut [u8], s: spot::Spot) -> bool
    requires { (table_sized (length table.old) ≡ true) × (length table.old ≤ length scratch.old) × (limited s.key ≡ true) }
    ensures { Renewed table.old table.new scratch.old scratch.new (put s (without s.key (live_spots table.old))) (leb (length (put s (without s.key (live_spots table.old)))) (capacity (length table.old))) result }
{
    let Some(live) = gather(table, scratch) else {
        return false;
    };
    let n = amend::put_in(scratch, live, s);
    if block::capacity_of(table.len()) < n {
        return false;
    }
    build::build_table(table, scratch, n);
    true
}

// The live spots laid out anew but the one with this key; false, with the table as it was, where a rule is broken.
pub fn without_key(table: &mut [u8], scratch: &mut [u8], k: u64) -> bool
    requires { (table_sized (length table.old) ≡ true) × (length table.old ≤ length scratch.old) }
    ensures { Renewed table.old table.new scratch.old scratch.new (without k (live_spots table.old)) true result }
{
    let Some(live) = gather(table, scratch) else {
        return false;
    };
    let n = amend::take_out(scratch, live, k);
    build::build_table(table, scratch, n);
    true
}
