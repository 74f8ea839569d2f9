// A script of calls, run over a table that is formatted first; what the calls answer and hand out goes into a log. What calls hand in, ranges and messages, stands beside it.
#![tactic(auto)]

ghost use Rattle.std.specs.Prelude.{◌≡◌, ◌+◌, ◌*◌, ◌≤◌, length, take, drop};
ghost use Rattle.octets.specs.Bytes.{be};
ghost use Rattle.ranges.specs.Ranges.{batch_of};
ghost use Rattle.table.specs.Updates.{ApplyPost};
ghost use Rattle.demands.specs.Model.{complement};
ghost use Rattle.script.specs.Script.{all_ranges, call_at, step_at, log_part};
ghost use Rattle.script.specs.Run.{plainly, event_of, Called, CalledAlone, StepCalled, Turned, Run, run_state, run_lengths, Ran};

// n of the ranges, from one on, or those that there are.
fn ranges_from(handed: &[u8], from: usize, n: usize) -> ranges::Batch
    ensures { result ≡ batch_of (take n (drop from (all_ranges handed.now))) }
{
    let all = handed.len() / 12;
    let first = from.min(all);
    ranges::read_batch(handed, 12 * first, n.min(all - first))
}

// A signed number in two's complement.
fn complement(z: i32) -> u64
    ensures { result ≡ complement z }
{
    (spot::bias(z) + 2147483648) % 4294967296
}

// What a call says: its answer, and the ceiling beside it.
#[derive(Clone, Copy)]
struct Said {
    answer: block::Answer,
    ceiling: i32,
}

// An answer without a ceiling.
fn plain(a: block::Answer) -> Said
    ensures { result ≡ plainly a }
{
    Said {
        answer: a,
        ceiling: 0,
    }
}

// Makes the call that begins at a byte of the script, one that hands out no spots.
fn call_alone(script: &[u8], at: usize, table: &mut [u8], scratch: &mut [u8]) -> block::Answer
    requires { (at + 16 ≤ length script.now) × (be 4 script.now at ≤ 7) × (be 4 script.now at ≡ 3 → ⊥) × (be 4 script.now at ≡ 4 → ⊥) }
    ensures { CalledAlone script.now at table.old scratch.old result table.new scratch.new }
{
    let op = octets::read32(script, at);
    let a = spot::read_i32(script, at + 4);
    let b = spot::read_i32(script, at + 8);
    let c = octets::read32(script, at + 12) as u32;
    // Stays: a number for a call, since call_of reads it from the script's bytes.
    match op {
        0 => block::told(table::format(table)),
        1 => block::told(table::add(table, scratch, a, b, c)),
        2 => block::told(table::withdraw(table, scratch, a, b)),
        5 => block::answer_of(table::count(table)),
        6 => block::yes_or_no(table::check(table)),
        _ => block::told(table::rebuild(table, scratch)),
    }
}

// Applies the message of the call that begins at a byte of the script: so many bytes, from one on, or those that there are.
fn apply_at(
    script: &[u8],
    at: usize,
    handed: &[u8],
    table: &mut [u8],
    scratch: &mut [u8],
) -> block::Answer
    requires { at + 12 ≤ length script.now }
    ensures { ApplyPost (take (be 4 script.now (at + 8)) (drop (be 4 script.now (at + 4)) handed.now)) table.old scratch.old result table.new scratch.new }
{
    let all = handed.len();
    let from = (octets::read32(script, at + 4) as usize).min(all);
    let end = from + (octets::read32(script, at + 8) as usize).min(all - from);
    block::told(apply::apply(table, scratch, &handed[from..end]))
}

// Makes the call that begins at a byte of the script, with all that is lent.
fn call(
    script: &[u8],
    at: usize,
    handed: &[u8],
    table: &mut [u8],
    scratch: &mut [u8],
    read_map: &mut [u8],
    counts: &mut [u32],
    output: &mut [u8],
) -> Said
    requires { at + 20 ≤ length script.now }
    ensures { Called table.old (event_of (call_at handed.now script.now at) scratch.old read_map.old counts.old output.old result table.new scratch.new read_map.new counts.new output.new) }
{
    let op = octets::read32(script, at);
    let a = spot::read_i32(script, at + 4);
    let b = spot::read_i32(script, at + 8);
    let c = octets::read32(script, at + 12) as u32;
    if op == 3 {
        let y = spot::read_i32(script, at + 12);
        return plain(block::answer_of(table::report(table, a, b, y, output, read_map)));
    }
    if op == 4 {
        return plain(block::answer_of(table::top(table, a, b, c, output, read_map)));
    }
    if op == 8 {
        let from = octets::read32(script, at + 4) as usize;
        let n = octets::read32(script, at + 8) as usize;
        let batch = ranges_from(handed, from, n);
        return plain(block::answer_of(many::report_batch(table, batch, counts, output, read_map)));
    }
    if op == 9 {
        let d = octets::read32(script, at + 16) as u32;
        let said = within::say(table, a, b, c, d, output, read_map);
        return Said {
            answer: block::answer_of(said.answer),
            ceiling: said.ceiling,
        };
    }
    if op > 9 {
        return plain(apply_at(script, at, handed, table, scratch));
    }
    plain(call_alone(script, at, table, scratch))
}

// Makes the call that begins at a byte of the script, with the first bytes of output, read map and scratch and the first counts, as many as it says.
fn step(
    script: &[u8],
    at: usize,
    handed: &[u8],
    table: &mut [u8],
    scratch: &mut [u8],
    read_map: &mut [u8],
    counts: &mut [u32],
    output: &mut [u8],
) -> Said
    requires { at + 36 ≤ length script.now }
    ensures { StepCalled (step_at handed.now script.now at) table.old scratch.old read_map.old counts.old output.old result table.new scratch.new read_map.new counts.new output.new }
{
    let a = (octets::read32(script, at + 20) as usize).min(output.len());
    let b = (octets::read32(script, at + 24) as usize).min(read_map.len());
    let c = (octets::read32(script, at + 28) as usize).min(scratch.len());
    let d = (octets::read32(script, at + 32) as usize).min(counts.len());
    call(
        script,
        at,
        handed,
        table,
        &mut scratch[..c],
        &mut read_map[..b],
        &mut counts[..d],
        &mut output[..a],
    )
}

// Makes a step and fills its part of the log.
fn turn(
    script: &[u8],
    at: usize,
    handed: &[u8],
    table: &mut [u8],
    scratch: &mut [u8],
    read_map: &mut [u8],
    counts: &mut [u32],
    part: &mut [u8],
)
    requires { (at + 36 ≤ length script.now) × (12 ≤ length part.old) }
    ensures { Turned (step_at handed.now script.now at) table.old scratch.old read_map.old counts.old part.old table.new scratch.new read_map.new counts.new part.new }
{
    let said = step(
        script,
        at,
        handed,
        table,
        scratch,
        read_map,
        counts,
        &mut part[12..],
    );
    octets::write32(part, 0, said.answer.number as u64);
    octets::write32(part, 4, said.answer.detail as u64);
    octets::write32(part, 8, complement(said.ceiling));
}

// Makes the first n steps; each part of the log has `part` bytes.
fn make_calls(
    script: &[u8],
    n: usize,
    handed: &[u8],
    table: &mut [u8],
    scratch: &mut [u8],
    read_map: &mut [u8],
    counts: &mut [u32],
    log: &mut [u8],
    part: usize,
)
    requires { (36 * n ≤ length script.now) × (12 ≤ part) × (part * n ≤ length log.old) }
    ensures { Run script.now handed.now n (run_lengths table.old scratch.old read_map.old counts.old part) (run_state table.old scratch.old read_map.old counts.old log.old) table.new scratch.new read_map.new counts.new log.new }
{
    let mut at = 0;
    for i in 0..n {
        let end = at + part;
        turn(
            script,
            36 * i,
            handed,
            table,
            scratch,
            read_map,
            counts,
            &mut log[at..end],
        );
        at = end;
    }
}

// The bytes of the log for each of n calls.
fn part_of(bytes: usize, n: usize) -> usize
    ensures { result ≡ log_part bytes n }
{
    if n == 0 {
        return 12;
    }
    bytes / n
}

// Formats the table and makes the calls of the script; false, with nothing changed, where the table's size or the log's does not do.
// Stays: Ran speaks of a truth value.
pub fn run(
    script: &[u8],
    handed: &[u8],
    table: &mut [u8],
    scratch: &mut [u8],
    read_map: &mut [u8],
    counts: &mut [u32],
    log: &mut [u8],
) -> bool
    ensures { Ran script.now handed.now table.old scratch.old read_map.old counts.old log.old table.new scratch.new read_map.new counts.new log.new result }
{
    let n = script.len() / 36;
    let part = part_of(log.len(), n);
    if !block::sized(table.len()) {
        return false;
    }
    if part < 12 {
        return false;
    }
    // Not refused: the size was tested.
    let _ = table::format(table);
    make_calls(
        script, n, handed, table, scratch, read_map, counts, log, part,
    );
    true
}
