// Carries out a message that is in order on a table of the right length: all of its changes, or none.
#![tactic(auto)]

ghost use Rattle.std.specs.Prelude.{◌≡◌, true, ◌≤◌, length, take};
ghost use Rattle.block.specs.Answers.{answer, told};
ghost use Rattle.rows.specs.Lining.{Rows};
ghost use Rattle.message.specs.Messages.{message_answer, read_message};
ghost use Rattle.message.specs.Changes.{changes_of};
ghost use Rattle.revise.specs.Revising.{Lent};
ghost use Rattle.carry.specs.Carrying.{RowsCarried, Carriable, OneCarried, ManyCarried, CarriedOr};

use block::Refusal;

// One change goes the way of Add or Withdraw.
fn carry_one(table: &mut [u8], scratch: &mut [u8], m: &[u8]) -> Result<(), Refusal>
    requires { Carriable m.now table.old scratch.old × (length (changes_of (read_message m.now)) ≡ 1) }
    ensures { OneCarried m.now table.old table.new scratch.old scratch.new (told result) }
{
    match message::change_at(m, message::HEAD_BYTES) {
        message::Change::Add(s) => revise::put_spot(table, scratch, s),
        message::Change::Withdraw(k) => revise::take_key(table, scratch, k),
    }
}

// The live spots laid out anew with the rows carried out; false, with the table as it was, where a rule is broken or they are too many. The live spots go to the front of
// the work area, and what comes of them behind the room for as many as the table may hold.
fn carry_rows(table: &mut [u8], scratch: &mut [u8], rows: &[rows::Row], r: usize) -> bool
    requires { Lent table.old scratch.old × Rows rows.now r }
    ensures { RowsCarried (take r rows.now) table.old table.new scratch.old scratch.new result }
{
    let Some(live) = renew::gather(table, scratch) else {
        return false; // what was gathered is no whole walk
    };
    let most = block::capacity_of(table.len());
    let to = spot::SPOT_BYTES * most;
    let Some(spots) = merge::merge(scratch, live, to, most, rows, r) else {
        return false;
    };
    let end = to + spot::SPOT_BYTES * spots;
    build::build_table(table, &scratch[to..end], spots);
    true
}

// Several changes: what they come to is known before the first byte is written.
fn carry_many(table: &mut [u8], scratch: &mut [u8], m: &[u8]) -> Result<(), Refusal>
    requires { Carriable m.now table.old scratch.old }
    ensures { ManyCarried m.now table.old table.new scratch.old scratch.new (told result) }
{
    let none = rows::Row {
        key: 0,
        track: None,
    };
    let mut rows = [none; message::MOST_CHANGES];
    let r = verdict::verdict(table, m, &mut rows)?;
    if !carry_rows(table, scratch, &rows, r) {
        return Err(Refusal::Broken);
    }
    Ok(())
}

// A message that is in order, on a table of the right length.
pub fn carry(table: &mut [u8], scratch: &mut [u8], m: &[u8]) -> Result<(), Refusal>
    requires { Lent table.old scratch.old × (message_answer m.now ≡ answer 0 0) }
    ensures { CarriedOr m.now table.old table.new scratch.old scratch.new (told result) }
{
    if !block::header_ok(table) {
        return Err(Refusal::Broken);
    }
    let n = message::count_of(m);
    if n == 0 {
        return Ok(());
    }
    if n == 1 {
        return carry_one(table, scratch, m);
    }
    carry_many(table, scratch, m)
}
