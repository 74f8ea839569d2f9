// Request 2026-10: a Top that is allowed so many node blocks, and the ceiling of what it leaves open. No public function has a `requires`.
#![tactic(auto)]

ghost use Rattle.std.specs.Prelude.{◌≡◌};
ghost use Rattle.block.specs.Answers.{answer_of};
ghost use Rattle.table.specs.Queries.{TopWithinPost};
ghost use Rattle.within.specs.Within.{said_of, NoneSaid, Askable, Saying, HeldFew, Delivered};

use block::Refusal;

// What a call says: how many spots are given, or why it is refused, and the ceiling after it, which is a result of a refused call, too.
#[derive(Clone, Copy, Debug, PartialEq, Eq)]
pub struct Said {
    pub answer: Result<u32, Refusal>,
    pub ceiling: i32,
}

fn tell(answer: Result<u32, Refusal>, ceiling: i32) -> Said
    ensures { result ≡ said_of answer ceiling }
{
    Said { answer, ceiling }
}

// No node may be read, or no spot is asked for: as a Top of none, and any rank may be left.
fn say_none(table: &[u8], x1: i32, x2: i32, output: &mut [u8], read_map: &mut [u8]) -> Said
    ensures { NoneSaid x1 x2 table.now output.old read_map.old result output.new read_map.new }
{
    match table::top(table, x1, x2, 0, output, read_map) {
        Err(why) => tell(Err(why), 0),
        Ok(spots) => Said {
            answer: Ok(spots),
            ceiling: 2147483647,
        },
    }
}

// Writes the n spots of a search that is at its end: they are held in `few`, or the search is made again, straight into the output.
fn deliver(
    table: &[u8],
    read: &mut [u8],
    q: spot::Query,
    k: usize,
    most: usize,
    few: &[u8],
    output: &mut [u8],
    n: usize,
)
    requires { HeldFew table.now q k most read.old few.now output.old n }
    ensures { Delivered table.now q k most n output.old read.new output.new }
{
    if n <= 512 {
        octets::copy(few, output, 12 * n);
        return;
    }
    octets::zero(read, 512);
    top::run_within(table, read, q, k, most, output, n);
}

// The answer where the lengths are right, and spots are asked for and nodes allowed. Nothing may be written before it is known.
fn say_some(
    table: &[u8],
    x1: i32,
    x2: i32,
    k: u32,
    allowance: u32,
    output: &mut [u8],
    read_map: &mut [u8],
) -> Said
    requires { Askable table.now read_map.old k allowance }
    ensures { Saying x1 x2 k allowance table.now output.old read_map.old result output.new read_map.new }
{
    let q = spot::top_query(x1, x2, 0);
    let mut read = [0u8; 512];
    let mut few = [0u8; 6144];
    let Some(found) = top::run_within(
        table,
        &mut read,
        q,
        k as usize,
        allowance as usize,
        &mut few,
        512,
    ) else {
        return tell(Err(Refusal::Broken), 0);
    };
    let n = found.spots;
    let left = spot::unbias(found.ceiling);
    let given = n as u32;
    if output.len() / 12 < n {
        return tell(Err(Refusal::Output(given)), 0);
    }
    deliver(
        table,
        &mut read,
        q,
        k as usize,
        allowance as usize,
        &few,
        output,
        n,
    );
    octets::copy(&read, read_map, 512);
    tell(Ok(given), left)
}

// The answer with the ceiling.
pub fn say(
    table: &[u8],
    x1: i32,
    x2: i32,
    k: u32,
    allowance: u32,
    output: &mut [u8],
    read_map: &mut [u8],
) -> Said
    ensures { Saying x1 x2 k allowance table.now output.old read_map.old result output.new read_map.new }
{
    if !block::sized(table.len()) {
        return tell(Err(Refusal::TableLength), 0);
    }
    if read_map.len() != 512 {
        return tell(Err(Refusal::LentLength), 0);
    }
    if (k == 0) | (allowance == 0) {
        return say_none(table, x1, x2, output, read_map);
    }
    say_some(table, x1, x2, k, allowance, output, read_map)
}

// Of the k spots that Top would give, those that are certain once `allowance` node blocks are read, and the highest rank that any other spot of the range can have.
// The ceiling is a result: it is 0 after a refusal. The read map marks the blocks read.
pub fn top_within(
    table: &[u8],
    x1: i32,
    x2: i32,
    k: u32,
    allowance: u32,
    output: &mut [u8],
    read_map: &mut [u8],
    ceiling: &mut i32,
) -> Result<u32, Refusal>
    ensures { TopWithinPost x1 x2 k allowance table.now output.old read_map.old (answer_of result) output.new read_map.new ceiling.new }
{
    let said = say(table, x1, x2, k, allowance, output, read_map);
    let left = said.ceiling;
    *ceiling = left;
    said.answer
}
