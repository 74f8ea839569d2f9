// Whether a change of a message is turned down: decided before anything is written, the work area included.
#![tactic(auto)]

ghost use Rattle.std.specs.Prelude.{◌≡◌, true, ◌≤◌, length, take, Ok};
ghost use Rattle.block.specs.Table.{table_sized};
ghost use Rattle.tree.specs.Sound.{sound};
ghost use Rattle.tree.specs.Walk.{live_count};
ghost use Rattle.lookup.specs.Answers.{looked_up};
ghost use Rattle.rows.specs.Rows.{row_at};
ghost use Rattle.rows.specs.Lining.{Rows};
ghost use Rattle.verdict.specs.Verdicts.{there_by, there_after, one_more, one_less, next_live, reckoned_for, refused_at, Triable, Tried};

use block::Refusal;

// Why a change is turned down: the table has no room for one more spot, or it breaks a rule.
#[derive(Clone, Copy, Debug, PartialEq, Eq)]
enum Refused {
    NoRoom,
    Unsound,
}

// What a look-up says of a key: whether its spot is there.
fn looked_there(table: &[u8], key: u64) -> Result<bool, Refused>
    requires { table_sized (length table.now) ≡ true }
    ensures { result ≡ there_by (looked_up table.now key) }
{
    match lookup::look_up(table, key) {
        Ok(Some(_)) => Ok(true),
        Ok(None) => Ok(false),
        Err(lookup::Broken) => Err(Refused::Unsound),
    }
}

// Whether the spot of a key is there, after the changes that the rows stand for.
fn is_there(table: &[u8], rows: &[rows::Row], r: usize, key: u64) -> Result<bool, Refused>
    requires { (table_sized (length table.now) ≡ true) × Rows rows.now r }
    ensures { result ≡ there_after (row_at key (take r rows.now)) (looked_up table.now key) }
{
    let p = rows::position(rows, r, key);
    if r <= p {
        return looked_there(table, key);
    }
    if rows[p].key != key {
        return looked_there(table, key);
    }
    Ok(rows[p].track.is_some())
}

fn one_more(most: usize, live: usize) -> Result<usize, Refused>
    requires { most ≤ 65520 }
    ensures { result ≡ one_more most live }
{
    if most <= live {
        return Err(Refused::NoRoom);
    }
    Ok(live + 1)
}

fn one_less(live: usize) -> Result<usize, Refused>
    ensures { result ≡ one_less live }
{
    if live == 0 {
        return Err(Refused::Unsound);
    }
    Ok(live - 1)
}

fn next_live(most: usize, adds: bool, there: bool, live: usize) -> Result<usize, Refused>
    requires { most ≤ 65520 }
    ensures { result ≡ next_live most adds (Ok there) live }
{
    if adds == there {
        return Ok(live);
    }
    if adds {
        return one_more(most, live);
    }
    one_less(live)
}

// How many spots are live after the change of a row, where the others stand for the changes before.
fn next_of(
    table: &[u8],
    rows: &[rows::Row],
    r: usize,
    x: rows::Row,
    live: usize,
) -> Result<usize, Refused>
    requires { (table_sized (length table.now) ≡ true) × Rows rows.now r }
    ensures { result ≡ reckoned_for table.now (take r rows.now) x live }
{
    let most = block::capacity_of(table.len());
    let there = is_there(table, rows, r, x.key)?;
    next_live(most, x.track.is_some(), there, live)
}

// The refusal of a message for a change that is turned down: with its position if there is no room for it.
fn refused_at(refused: Refused, at: usize) -> Refusal
    requires { at ≤ 4096 }
    ensures { result ≡ refused_at refused at }
{
    match refused {
        Refused::NoRoom => Refusal::Full(at as u32),
        Refused::Unsound => Refusal::Broken,
    }
}

// Change by change on a sound table, from its number of live spots on.
fn step_through(
    table: &[u8],
    m: &[u8],
    rows: &mut [rows::Row],
    live: usize,
) -> Result<usize, Refusal>
    requires { Triable table.now m.now rows.old × (sound table.now ≡ true) × (live ≡ live_count table.now) }
    ensures { Tried table.now m.now rows.old rows.new result }
{
    let n = message::count_of(m);
    let mut spots = live;
    let mut r: usize = 0;
    let mut at = message::HEAD_BYTES;
    for i in 0..n {
        let x = rows::row_of(message::change_at(m, at));
        spots = match next_of(table, rows, r, x, spots) {
            Ok(next) => next,
            Err(refused) => return Err(refused_at(refused, i)),
        };
        r = rows::put_row(rows, r, x);
        at += message::size_of(m, at, 0);
    }
    Ok(r)
}

// How many rows the message has, if none of its changes is turned down; else the refusal.
// The figure in block 0 is never below the number of live spots: where all additions find room beside it, none is looked up. Else the live spots are counted; 4 is an answer
// on a sound table alone, so that look-ups and a walk of everything can't disagree on it.
pub fn verdict(table: &[u8], m: &[u8], rows: &mut [rows::Row]) -> Result<usize, Refusal>
    requires { Triable table.now m.now rows.old }
    ensures { Tried table.now m.now rows.old rows.new result }
{
    let most = block::capacity_of(table.len());
    let figure = block::bound_of(table) as usize;
    if figure + message::adds_of(m) <= most {
        return Ok(rows::line_up(m, rows));
    }
    if !soundness::is_sound(table) {
        return Err(refused_at(Refused::Unsound, 0));
    }
    let mut seen = [0u8; block::MAP_BYTES];
    let Some(all) = query::count_table(table, &mut seen, spot::everything()) else {
        // Never: the walk of a sound table is whole.
        return Err(Refusal::Broken);
    };
    step_through(table, m, rows, all.spots)
}
