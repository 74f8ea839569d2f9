// A line of the bench program: the command that it is, carried out on a table, and the text to be printed, left in lent bytes.
#![tactic(auto)]

ghost use Rattle.std.specs.Prelude.{◌≡◌, ◌+◌, ◌*◌, ◌≤◌, ◌<◌, length, true, Some};
ghost use Rattle.block.specs.Answers.{told, answer_of};
ghost use Rattle.spot.specs.Spots.{limited_from};
ghost use Rattle.table.specs.Queries.{GivenInside};
ghost use Rattle.text.specs.Written.{Wrote};
ghost use Rattle.commands.specs.Printed.{lines_of, printed};
ghost use Rattle.commands.specs.Obeyed.{room_for, spots_text, change_text, Shown, Printable, Told, Obeyed};

// A line for each of the first n spots.
fn write_lines(out: &mut [u8], at: usize, output: &[u8], n: usize) -> usize
    requires { (12 * n ≤ length output.now) × (limited_from output.now 12 n 0 ≡ true) × (at + 35 * n ≤ length out.old) }
    ensures { Wrote out.old out.new at (35 * n) (lines_of output.now n) result }
{
    let mut end = at;
    for i in 0..n {
        let s = spot::read_spot(output, 12 * i);
        let place = spot::place_of(s.key);
        let rank = spot::rank_in(s.key);
        end = text::write_spot_line(out, end, place, rank, s.track);
    }
    end
}

// The number of spots, and a line each.
fn write_spots(out: &mut [u8], output: &[u8], n: usize) -> usize
    requires { (n < 4294967296) × (12 * n ≤ length output.now) × (limited_from output.now 12 n 0 ≡ true) × (11 + 35 * n ≤ length out.old) }
    ensures { Wrote out.old out.new 0 (11 + 35 * n) (printed output.now n) result }
{
    let at = text::write_count_line(out, 0, n as u32);
    write_lines(out, at, output, n)
}

// The bytes of the output that are lent to a call whose spots are printed into a text of so many bytes.
fn room_for(text: usize, output: usize) -> usize
    requires { 13 ≤ text }
    ensures { (result ≡ room_for text output) × (result ≤ output) }
{
    12 * (output / 12).min((text - 11) / 35)
}

// What `+` or `-` prints.
fn tell(done: Result<(), block::Refusal>, out: &mut [u8]) -> usize
    requires { 13 ≤ length out.old }
    ensures { Wrote out.old out.new 0 13 (change_text (told done)) result }
{
    match done {
        Ok(()) => 0,
        Err(r) => text::write_refusal_line(out, 0, block::Answer::from(r).number),
    }
}

// What `?` or `^` prints.
fn show(done: Result<u32, block::Refusal>, output: &[u8], out: &mut [u8]) -> usize
    requires { Shown (answer_of done) (length out.old) × GivenInside (answer_of done) output.now }
    ensures { Wrote out.old out.new 0 (length out.old) (spots_text (answer_of done) output.now) result }
{
    match done {
        Ok(spots) => write_spots(out, output, spots as usize),
        Err(r) => text::write_refusal_line(out, 0, block::Answer::from(r).number),
    }
}

// Carries out a command and leaves its text at the front of `out`; returns the text's length.
fn carry_out(
    c: text::Command,
    table: &mut [u8],
    scratch: &mut [u8],
    output: &mut [u8],
    read_map: &mut [u8],
    out: &mut [u8],
) -> usize
    requires { Printable (length output.old) (length out.old) }
    ensures { Told (Some c) table.old scratch.old output.old read_map.old out.old table.new scratch.new output.new read_map.new out.new result }
{
    match c {
        text::Command::Add(place, rank, track) => {
            let done = table::add(table, scratch, place, rank, track);
            tell(done, out)
        }
        text::Command::Withdraw(place, rank) => {
            let done = table::withdraw(table, scratch, place, rank);
            tell(done, out)
        }
        text::Command::Report(x1, x2, y) => {
            let done = table::report(table, x1, x2, y, output, read_map);
            show(done, output, out)
        }
        text::Command::Top(x1, x2, k) => {
            let done = table::top(table, x1, x2, k, output, read_map);
            show(done, output, out)
        }
    }
}

// Carries out a line and leaves the text to be printed at the front of `out`; returns its length. The output and the read map are lent to the calls.
pub fn obey(
    table: &mut [u8],
    scratch: &mut [u8],
    output: &mut [u8],
    read_map: &mut [u8],
    line: &[u8],
    out: &mut [u8],
) -> usize
    ensures { Obeyed line.now table.old scratch.old output.old read_map.old out.old table.new scratch.new output.new read_map.new out.new result }
{
    if out.len() < 13 {
        return 0;
    }
    let Some(c) = text::parse(line) else {
        return text::write_refusal_line(out, 0, 0);
    };
    let end = room_for(out.len(), output.len());
    carry_out(c, table, scratch, &mut output[..end], read_map, out)
}
