// The lines of the bench program: commands read from them, spots and numbers printed.
#![tactic(auto)]

ghost use Rattle.std.specs.Prelude.{◌≡◌, [], ◌∷◌, ◌+◌, ◌≤◌, ◌<◌, length, drop};
ghost use Rattle.octets.specs.Lists.{same_list};
ghost use Rattle.text.specs.Text.{decimal, signed, joined, spot_line, count_line, refusal_line};
ghost use Rattle.text.specs.Commands.{command_text, Parsed};
ghost use Rattle.text.specs.Written.{Wrote};
ghost use Rattle.text.specs.Reading.{front, behind, value, integer, command_of, guess};

// What a line can ask for.
#[derive(Clone, Copy)]
pub enum Command {
    Add(i32, i32, u32),
    Withdraw(i32, i32),
    Report(i32, i32, i32),
    Top(i32, i32, u32),
}

// ---- writing: each function puts a text at `at` and returns the place behind it

fn put_byte(out: &mut [u8], at: usize, b: u8) -> usize
    requires { at + 1 ≤ length out.old }
    ensures { Wrote out.old out.new at 1 (b ∷ []) result }
{
    out[at] = b;
    at + 1
}

fn put_digits(out: &mut [u8], at: usize, n: u32) -> usize
    requires { at + length (decimal n) ≤ length out.old }
    ensures { Wrote out.old out.new at (length (decimal n)) (decimal n) result }
{
    if n < 10 {
        return put_byte(out, at, b'0' + n as u8);
    }
    let p = put_digits(out, at, n / 10);
    put_byte(out, p, b'0' + (n % 10) as u8)
}

pub fn write_number(out: &mut [u8], at: usize, n: u32) -> usize
    requires { at + 10 ≤ length out.old }
    ensures { Wrote out.old out.new at 10 (decimal n) result }
{
    put_digits(out, at, n)
}

fn write_signed(out: &mut [u8], at: usize, z: i32) -> usize
    requires { at + 11 ≤ length out.old }
    ensures { Wrote out.old out.new at 11 (signed z) result }
{
    if z < 0 {
        let p = put_byte(out, at, b'-');
        return put_digits(out, p, z.unsigned_abs());
    }
    put_digits(out, at, z.unsigned_abs())
}

// A further field of a line: a space and the number.
fn more_number(out: &mut [u8], at: usize, n: u32) -> usize
    requires { at + 11 ≤ length out.old }
    ensures { Wrote out.old out.new at 11 (32 ∷ decimal n) result }
{
    let p = put_byte(out, at, b' ');
    write_number(out, p, n)
}

fn more_signed(out: &mut [u8], at: usize, z: i32) -> usize
    requires { at + 12 ≤ length out.old }
    ensures { Wrote out.old out.new at 12 (32 ∷ signed z) result }
{
    let p = put_byte(out, at, b' ');
    write_signed(out, p, z)
}

pub fn write_spot_line(out: &mut [u8], at: usize, place: i32, rank: i32, track: u32) -> usize
    requires { at + 35 ≤ length out.old }
    ensures { Wrote out.old out.new at 35 (spot_line place rank track) result }
{
    let a = write_signed(out, at, place);
    let b = more_signed(out, a, rank);
    let c = more_number(out, b, track);
    put_byte(out, c, b'\n')
}

pub fn write_count_line(out: &mut [u8], at: usize, n: u32) -> usize
    requires { at + 11 ≤ length out.old }
    ensures { Wrote out.old out.new at 11 (count_line n) result }
{
    let p = write_number(out, at, n);
    put_byte(out, p, b'\n')
}

pub fn write_refusal_line(out: &mut [u8], at: usize, n: u32) -> usize
    requires { at + 13 ≤ length out.old }
    ensures { Wrote out.old out.new at 13 (refusal_line n) result }
{
    let a = put_byte(out, at, b'R');
    let b = more_number(out, a, n);
    put_byte(out, b, b'\n')
}

// The sign of a command and its first two fields.
fn write_two(out: &mut [u8], sign: u8, x: i32, y: i32) -> usize
    requires { 25 ≤ length out.old }
    ensures { Wrote out.old out.new 0 25 (joined ((sign ∷ []) ∷ signed x ∷ signed y ∷ [])) result }
{
    let a = put_byte(out, 0, sign);
    let b = more_signed(out, a, x);
    more_signed(out, b, y)
}

fn write_command(out: &mut [u8], c: Command) -> usize
    requires { 37 ≤ length out.old }
    ensures { Wrote out.old out.new 0 37 (command_text c) result }
{
    match c {
        Command::Add(place, rank, track) => {
            let p = write_two(out, b'+', place, rank);
            more_number(out, p, track)
        }
        Command::Withdraw(place, rank) => write_two(out, b'-', place, rank),
        Command::Report(x1, x2, y) => {
            let p = write_two(out, b'?', x1, x2);
            more_signed(out, p, y)
        }
        Command::Top(x1, x2, k) => {
            let p = write_two(out, b'^', x1, x2);
            more_number(out, p, k)
        }
    }
}

// ---- reading

// The bytes of w as digits of a number, within 32 bits. A byte below `0` counts as 0.
fn number(w: &[u8]) -> u64
    ensures { (result ≡ value 0 w.now) × (result < 4294967296) }
{
    let mut n: u64 = 0;
    for b in w {
        n = (10 * n + b.saturating_sub(b'0') as u64) % 4294967296;
    }
    n
}

fn integer(w: &[u8]) -> i32
    ensures { result ≡ integer w.now }
{
    match w.strip_prefix(b"-") {
        Some(digits) => spot::unbias((6442450944 - number(digits)) % 4294967296),
        None => spot::unbias((2147483648 + number(w)) % 4294967296),
    }
}

// The end of the word at `at`: the next space, or the end of the line.
fn word_end(line: &[u8], at: usize) -> usize
    requires { at ≤ length line.now }
    ensures { (result ≡ at + length (front (drop at line.now))) × (result ≤ length line.now) }
{
    for i in at..line.len() {
        if line[i] == b' ' {
            return i;
        }
    }
    line.len()
}

// The start of the word behind the one at `at`.
fn next_word(line: &[u8], at: usize) -> usize
    requires { at ≤ length line.now }
    ensures { (drop result line.now ≡ behind (drop at line.now)) × (result ≤ length line.now) }
{
    let e = word_end(line, at);
    if e < line.len() {
        return e + 1;
    }
    e
}

fn integer_at(line: &[u8], at: usize) -> i32
    requires { at ≤ length line.now }
    ensures { result ≡ integer (front (drop at line.now)) }
{
    let e = word_end(line, at);
    integer(&line[at..e])
}

fn number_at(line: &[u8], at: usize) -> u32
    requires { at ≤ length line.now }
    ensures { result ≡ value 0 (front (drop at line.now)) }
{
    let e = word_end(line, at);
    number(&line[at..e]) as u32
}

fn compose(sign: u8, x: i32, y: i32, z: i32, n: u32) -> Option<Command>
    ensures { result ≡ command_of sign x y z n }
{
    match sign {
        b'+' => Some(Command::Add(x, y, n)),
        b'-' => Some(Command::Withdraw(x, y)),
        b'?' => Some(Command::Report(x, y, z)),
        b'^' => Some(Command::Top(x, y, n)),
        _ => None,
    }
}

// The only command that can have this text.
fn candidate(line: &[u8]) -> Option<Command>
    ensures { result ≡ guess line.now }
{
    let sign = *line.first()?;
    let a = next_word(line, 0);
    let b = next_word(line, a);
    let c = next_word(line, b);
    let x = integer_at(line, a);
    let y = integer_at(line, b);
    let z = integer_at(line, c);
    let n = number_at(line, c);
    compose(sign, x, y, z, n)
}

// Whether the line is the command's text.
fn prints(c: Command, line: &[u8]) -> bool
    ensures { result ≡ same_list line.now (command_text c) }
{
    let mut space = [0u8; 40];
    let n = write_command(&mut space, c);
    line == &space[..n]
}

// The command that the line says, if it says one.
pub fn parse(line: &[u8]) -> Option<Command>
    ensures { Parsed line.now result }
{
    let c = candidate(line)?;
    if prints(c, line) {
        return Some(c);
    }
    None
}
