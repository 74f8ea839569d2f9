// One spot put in or taken out: first in the tree, and where that has no room, by laying the live spots out anew.
#![tactic(auto)]

ghost use Rattle.std.specs.Prelude.{◌≡◌, true, [], ◌∷◌, ◌≤◌, length, Ok, None};
ghost use Rattle.std.proofs.Math.Option.{none, some};
ghost use Rattle.spot.specs.Keys.{limited};
ghost use Rattle.spot.specs.Spots.{put, without};
ghost use Rattle.block.specs.Answers.{told};
ghost use Rattle.block.specs.Table.{capacity};
ghost use Rattle.block.specs.Header.{head_of};
ghost use Rattle.block.specs.HeaderRules.{header_ok};
ghost use Rattle.revise.specs.Numbers.{add_number};
ghost use Rattle.tree.specs.Lookup.{live, is_live, with_key};
ghost use Rattle.tree.specs.Walk.{live_spots, live_count};
ghost use Rattle.lookup.specs.Answers.{looked_up};
ghost use Rattle.revise.specs.Revising.{Lent, WithinPost, Revised};
ghost use Rattle.revise.specs.Steps.{step_after};

use block::Refusal;

// What a call answers after a change to the tree, or none: then the live spots are laid out anew. A block on the way down that breaks a rule is answered, and
// nothing is laid out anew from such a table.
fn step_after(changed: Result<(), fill::Failure>) -> Option<Result<(), Refusal>>
    ensures { result ≡ step_after changed }
{
    match changed {
        Ok(()) => Some(Ok(())),
        Err(fill::Failure::Broken) => Some(Err(Refusal::Broken)),
        Err(fill::Failure::NoRoom) => None,
    }
}

// The spot put in, where the live spots are then no more than the bound.
fn put_within(
    table: &mut [u8],
    scratch: &mut [u8],
    s: spot::Spot,
    bound: u64,
) -> Result<(), Refusal>
    requires { Lent table.old scratch.old × (limited s.key ≡ true) × (header_ok (length table.old) (head_of table.old) ≡ true) × (bound ≤ capacity (length table.old)) }
    ensures number { WithinPost table.old table.new scratch.old scratch.new bound (length (put s (without s.key (live_spots table.old)))) (with_key s.key (some s.track) (live table.old)) (told result).number }
    ensures plain { (told result).detail ≡ 0 }
{
    let one = buffer::push(buffer::empty(), s);
    let none = buffer::empty();
    match step_after(change::change(table, scratch, one, none, bound)) {
        Some(answer) => answer,
        None => {
            if renew::with_spot(table, scratch, s) {
                return Ok(());
            }
            Err(Refusal::Broken)
        }
    }
}

// The spot put in, where the bound is at capacity and its key is not live: the live spots are counted.
fn put_counted(table: &mut [u8], scratch: &mut [u8], s: spot::Spot) -> Result<(), Refusal>
    requires { Lent table.old scratch.old × (limited s.key ≡ true) × (header_ok (length table.old) (head_of table.old) ≡ true) × (looked_up table.old s.key ≡ Ok None) }
    ensures number { Revised table.old table.new scratch.old scratch.new s.key (add_number (length table.old) (live_count table.old) (is_live (live table.old s.key))) (0 ∷ 3 ∷ 4 ∷ []) (with_key s.key (some s.track) (live table.old)) (told result).number }
    ensures plain { (told result).detail ≡ 0 }
{
    let mut seen = [0u8; 512];
    let everything = spot::everything();
    let Some(all) = query::count_table(table, &mut seen, everything) else {
        return Err(Refusal::Broken);
    };
    if block::capacity_of(table.len()) <= all.spots {
        return Err(Refusal::Full(0));
    }
    put_within(table, scratch, s, all.spots as u64 + 1)
}

// Add: full where the table holds as many spots as it may and the key is not live. The bound grows only with a key that is not live: as long as only these calls write, it is
// the number of live spots, and whether the table is full is counted only where it is at capacity.
pub fn put_spot(table: &mut [u8], scratch: &mut [u8], s: spot::Spot) -> Result<(), Refusal>
    requires { Lent table.old scratch.old × (limited s.key ≡ true) }
    ensures number { Revised table.old table.new scratch.old scratch.new s.key (add_number (length table.old) (live_count table.old) (is_live (live table.old s.key))) (0 ∷ 3 ∷ 4 ∷ []) (with_key s.key (some s.track) (live table.old)) (told result).number }
    ensures plain { (told result).detail ≡ 0 }
{
    if !block::header_ok(table) {
        return Err(Refusal::Broken);
    }
    let bound = block::bound_of(table);
    match lookup::look_up(table, s.key) {
        Err(lookup::Broken) => Err(Refusal::Broken), // whether the key is live can't be said
        Ok(Some(_)) => put_within(table, scratch, s, bound),
        Ok(None) => {
            if bound < block::capacity_of(table.len()) as u64 {
                return put_within(table, scratch, s, bound + 1);
            }
            put_counted(table, scratch, s)
        }
    }
}

// The spot of a key taken out, where the live spots are then no more than the bound.
fn take_within(table: &mut [u8], scratch: &mut [u8], k: u64, bound: u64) -> Result<(), Refusal>
    requires { Lent table.old scratch.old × (limited k ≡ true) × (header_ok (length table.old) (head_of table.old) ≡ true) × (bound ≤ capacity (length table.old)) }
    ensures number { WithinPost table.old table.new scratch.old scratch.new bound (length (without k (live_spots table.old))) (with_key k none (live table.old)) (told result).number }
    ensures plain { (told result).detail ≡ 0 }
{
    let none = buffer::empty();
    let one = buffer::push(buffer::empty(), k);
    match step_after(change::change(table, scratch, none, one, bound)) {
        Some(answer) => answer,
        None => {
            if renew::without_key(table, scratch, k) {
                return Ok(());
            }
            Err(Refusal::Broken)
        }
    }
}

// Withdraw: nothing is written where the key is not live. The bound falls with one that is, so that it stays the number of live spots; it is 0 there only if it was wrong before.
pub fn take_key(table: &mut [u8], scratch: &mut [u8], k: u64) -> Result<(), Refusal>
    requires { Lent table.old scratch.old × (limited k ≡ true) }
    ensures number { Revised table.old table.new scratch.old scratch.new k 0 (0 ∷ 3 ∷ []) (with_key k none (live table.old)) (told result).number }
    ensures plain { (told result).detail ≡ 0 }
{
    if !block::header_ok(table) {
        return Err(Refusal::Broken);
    }
    let bound = block::bound_of(table);
    match lookup::look_up(table, k) {
        Err(lookup::Broken) => Err(Refusal::Broken),
        Ok(Some(_)) => {
            if bound == 0 {
                return Err(Refusal::Broken);
            }
            take_within(table, scratch, k, bound - 1)
        }
        Ok(None) => Ok(()),
    }
}
