// The bench program: a table of 32 blocks, a command a line on standard input, and its answer on standard output.
#![tactic(auto)]

ghost use Rattle.std.specs.Prelude.{◌≡◌, ◌≤◌, length, IfSome};

use std::io::Read;

// Carries out a line and writes its text; a write that fails is passed over. An output of 5,952 bytes and a text of 17,408 hold the 496 spots that the table can have.
fn obey(rt: &impl Print, table: &mut [u8], scratch: &mut [u8], line: &[u8]) {
    let mut output = [0u8; 5952];
    let mut read_map = [0u8; 512];
    let mut out = [0u8; 17408];
    let end = commands::obey(table, scratch, &mut output, &mut read_map, line, &mut out);
    let _ = rt.write_all(&out[0..end]);
}

// One more byte of input. No command has over 64 bytes, so that of a longer line the first 64 tell as much.
fn take_byte(
    rt: &impl Print,
    table: &mut [u8],
    scratch: &mut [u8],
    line: &mut [u8],
    used: usize,
    b: u8,
) -> usize
    requires { (used ≤ 64) × (length line.old ≡ 64) }
    ensures { result ≤ 64 }
{
    if b == b'\n' {
        obey(rt, table, scratch, &line[..used]);
        return 0;
    }
    if used < 64 {
        line[used] = b;
        return used + 1;
    }
    used
}

fn take_bytes(
    rt: &impl Print,
    table: &mut [u8],
    scratch: &mut [u8],
    line: &mut [u8],
    begun: usize,
    bytes: &[u8],
) -> usize
    requires { (begun ≤ 64) × (length line.old ≡ 64) }
    ensures { result ≤ 64 }
{
    let mut used = begun;
    for &b in bytes {
        used = take_byte(rt, table, scratch, line, used, b);
    }
    used
}

// Reads once; the length of the line begun, if there was more to read. A read that fails ends the input.
fn take_some(
    rt: &(impl Input + Print),
    table: &mut [u8],
    scratch: &mut [u8],
    line: &mut [u8],
    used: usize,
) -> Option<usize>
    requires { (used ≤ 64) × (length line.old ≡ 64) }
    ensures { IfSome result (λ n. n ≤ 64) }
{
    let mut buffer = [0u8; 4096];
    let n = rt.reader().read(&mut buffer).unwrap_or(0);
    if n == 0 {
        return None;
    }
    Some(take_bytes(rt, table, scratch, line, used, &buffer[..n]))
}

// All of the input. Nothing says that it ends, so the reads are counted, up to a number that none uses up. The last line may have no line end.
fn take_all(rt: &(impl Input + Print), table: &mut [u8], scratch: &mut [u8]) {
    let mut line = [0u8; 64];
    let mut used = 0;
    for _ in 0..u64::MAX {
        let Some(begun) = take_some(rt, table, scratch, &mut line, used) else {
            break;
        };
        used = begun;
    }
    if used > 0 {
        obey(rt, table, scratch, &line[..used]);
    }
}

fn main(rt: HostRuntime) {
    let mut table = [0u8; 65536];
    let mut scratch = [0u8; 65536];
    let _ = table::format(&mut table);
    take_all(&rt, &mut table, &mut scratch);
}
