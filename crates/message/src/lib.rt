// Messages: lists of changes, as they go over the air. A message carries no sender, no seal and no order among messages.
#![tactic(auto)]

ghost use Rattle.std.specs.Prelude.{◌≡◌, true, ◌∷◌, ◌++◌, ◌+◌, ◌*◌, ◌≤◌, ◌<◌, leb, eqb, length};
ghost use Rattle.octets.specs.Bytes.{be, bytes_of, put_bytes};
ghost use Rattle.block.specs.Answers.{told};
ghost use Rattle.message.specs.declared.Change.TheVariants.{Add, Withdraw};
ghost use Rattle.message.specs.Changes.{change_bytes, changes_bytes, change_size, read_change, read_changes, is_there, changes_of, adds_of, first_outside};
ghost use Rattle.message.specs.Messages.{head_fits, read_message, read_list, limits_answer, changes_answer, message_answer, WritePost, ReadPost};
ghost use Rattle.message.specs.Codes.{Fill, size_read, change_at, ChangeThere, ChangesThere, ReadableInside, Recodable};

use block::Refusal;

// The bytes of a message before its changes.
pub const HEAD_BYTES: usize = 7;

// The most changes of a message.
pub const MOST_CHANGES: usize = 4096;

// The bytes of a change in a list, and the zeros there behind a withdrawal.
const ROW_BYTES: usize = 13;

const ROW_FILL: usize = 4;

// The bytes of a withdrawal without them.
const WITHDRAWAL_BYTES: usize = 9;

// A spot that is added, or the key of one that is withdrawn.
#[derive(Clone, Copy)]
pub enum Change {
    Add(spot::Spot),
    Withdraw(u64),
}

// The zeros behind a withdrawal are zeros.
fn filled(s: &[u8], at: usize, fill: usize) -> bool
    requires { Fill fill × (at + fill ≤ length s.now) }
    ensures { result ≡ eqb (be fill s.now at) 0 }
{
    if fill == 0 {
        return true;
    }
    octets::read32(s, at) == 0
}

// The bytes of the change at an index, if there is one.
fn size_at(s: &[u8], at: usize, fill: usize) -> Option<usize>
    requires { Fill fill × (at ≤ length s.now) }
    ensures { result ≡ size_read fill (read_change fill s.now at) }
{
    let left = s.len() - at;
    if left < WITHDRAWAL_BYTES + fill {
        return None;
    }
    let kind = octets::count_at(s, at);
    if (kind == 1) & (ROW_BYTES <= left) {
        return Some(ROW_BYTES);
    }
    if kind != 2 {
        return None;
    }
    if !filled(s, at + WITHDRAWAL_BYTES, fill) {
        return None;
    }
    Some(WITHDRAWAL_BYTES + fill)
}

// n changes stand from an index on, and the last ends with the last byte.
fn changes_ok(s: &[u8], at: usize, n: usize, fill: usize) -> bool
    requires { Fill fill × (at ≤ length s.now) }
    ensures { result ≡ is_there (read_changes fill n s.now at) }
{
    let mut next = at;
    for i in 0..n {
        match size_at(s, next, fill) {
            None => return false,
            Some(size) => next += size,
        }
    }
    next == s.len()
}

// The bytes of the change at an index, where there is one.
pub fn size_of(s: &[u8], at: usize, fill: usize) -> usize
    requires { Fill fill × (at < length s.now) }
    ensures { result ≡ change_size fill (change_at s.now at) }
{
    if s[at] == 1 {
        return ROW_BYTES;
    }
    WITHDRAWAL_BYTES + fill
}

// How many of n changes have places inside the limits before one that hasn't.
fn first_outside(s: &[u8], at: usize, n: usize, fill: usize) -> usize
    requires { ChangesThere fill n s.now at }
    ensures { result ≡ first_outside (changes_of (read_changes fill n s.now at)) }
{
    let mut next = at;
    for i in 0..n {
        let key = spot::raw_key(s, next + 1);
        if !spot::in_limits(spot::place_of(key)) {
            return i;
        }
        next += size_of(s, next, fill);
    }
    n
}

// How many of n changes add.
fn count_adds(s: &[u8], at: usize, n: usize, fill: usize) -> usize
    requires { ChangesThere fill n s.now at }
    ensures { (result ≡ adds_of (changes_of (read_changes fill n s.now at))) × (result ≤ n) }
{
    let mut adds = 0;
    let mut next = at;
    for i in 0..n {
        adds += (s[next] == 1) as usize;
        next += size_of(s, next, fill);
    }
    adds
}

// The change at an index.
pub fn change_at(s: &[u8], at: usize) -> Change
    requires { ChangeThere s.now at }
    ensures { result ≡ change_at s.now at }
{
    if s[at] == 1 {
        return Change::Add(spot::read_spot(s, at + 1));
    }
    Change::Withdraw(spot::read_key(s, at + 1))
}

fn write_add(s: &mut [u8], at: usize, x: spot::Spot)
    requires { at + 13 ≤ length s.old }
    ensures { s.new ≡ put_bytes s.old at (change_bytes 0 (Add x)) }
{
    s[at] = 1;
    spot::write_spot(s, at + 1, x);
}

fn write_withdrawal(s: &mut [u8], at: usize, k: u64, fill: usize)
    requires { Fill fill × (at + (9 + fill) ≤ length s.old) }
    ensures { s.new ≡ put_bytes s.old at (change_bytes fill (Withdraw k)) }
{
    s[at] = 2;
    spot::write_key(s, at + 1, k);
    if fill == ROW_FILL {
        octets::write32(s, at + WITHDRAWAL_BYTES, 0);
    }
}

// Writes a change.
fn write_change(s: &mut [u8], at: usize, c: Change, fill: usize)
    requires { Fill fill × (at + change_size fill c ≤ length s.old) }
    ensures { s.new ≡ put_bytes s.old at (change_bytes fill c) }
{
    match c {
        Change::Add(x) => write_add(s, at, x),
        Change::Withdraw(k) => write_withdrawal(s, at, k, fill),
    }
}

// Writes n changes with other zeros behind their withdrawals.
fn recode(s: &[u8], at: usize, n: usize, fill: usize, out: &mut [u8], to: usize, other: usize)
    requires { Recodable fill n s.now at other out.old to }
    ensures { out.new ≡ put_bytes out.old to (changes_bytes other (changes_of (read_changes fill n s.now at))) }
{
    let mut from = at;
    let mut next = to;
    for i in 0..n {
        write_change(out, next, change_at(s, from), other);
        next += size_of(s, from, other);
        from += size_of(s, from, fill);
    }
}

// The list has 13 bytes a change, and not too many.
fn list_ok(s: &[u8]) -> bool
    ensures { result ≡ is_there (read_list s.now) }
{
    let n = s.len() / ROW_BYTES;
    if (s.len() % ROW_BYTES != 0) | (MOST_CHANGES < n) {
        return false;
    }
    changes_ok(s, 0, n, ROW_FILL)
}

// The first bytes of a message: its length, the version, not too many changes.
fn head_ok(m: &[u8]) -> bool
    ensures { result ≡ head_fits m.now }
{
    if m.len() < HEAD_BYTES {
        return false;
    }
    (octets::read32(m, 0) == m.len() as u64)
        & (octets::byte_at(m, 4) == 1)
        & (octets::read16(m, 5) <= MOST_CHANGES)
}

fn message_ok(m: &[u8]) -> bool
    ensures { result ≡ is_there (read_message m.now) }
{
    if !head_ok(m) {
        return false;
    }
    changes_ok(m, HEAD_BYTES, octets::read16(m, 5), 0)
}

// The changes of a message.
pub fn count_of(m: &[u8]) -> usize
    requires { is_there (read_message m.now) ≡ true }
    ensures { (result ≡ length (changes_of (read_message m.now))) × (result ≤ 4096) }
{
    octets::read16(m, 5)
}

// How many of them add.
pub fn adds_of(m: &[u8]) -> usize
    requires { is_there (read_message m.now) ≡ true }
    ensures { (result ≡ adds_of (changes_of (read_message m.now))) × (result ≤ 4096) }
{
    count_adds(m, HEAD_BYTES, octets::read16(m, 5), 0)
}

// All of n changes have places inside the limits; else the position of the first that hasn't.
fn check_limits(s: &[u8], at: usize, n: usize, fill: usize) -> Result<(), Refusal>
    requires { ChangesThere fill n s.now at × (n ≤ 4096) }
    ensures { told result ≡ limits_answer (changes_of (read_changes fill n s.now at)) }
{
    let first = first_outside(s, at, n, fill);
    if first < n {
        return Err(Refusal::PlaceOutside(first as u32));
    }
    Ok(())
}

// What a message alone decides: whether it is one, and its places are inside the limits.
pub fn judge(m: &[u8]) -> Result<(), Refusal>
    ensures { told result ≡ message_answer m.now }
{
    if !message_ok(m) {
        return Err(Refusal::NotAMessage);
    }
    check_limits(m, HEAD_BYTES, octets::read16(m, 5), 0)
}

// The first bytes of a message of so many bytes and changes.
fn write_head(m: &mut [u8], bytes: usize, n: usize)
    requires { 7 ≤ length m.old }
    ensures { m.new ≡ put_bytes m.old 0 (bytes_of 4 bytes ++ (1 ∷ bytes_of 2 n)) }
{
    octets::write32(m, 0, bytes as u64);
    octets::write8(m, 4, 1);
    octets::write16(m, 5, n);
}

// The message of a list of changes, 13 bytes each, at the front of `message`; its length stands in its first four bytes.
pub fn write_message(changes: &[u8], message: &mut [u8]) -> Result<(), Refusal>
    ensures { WritePost changes.now message.old (told result) message.new }
{
    if !list_ok(changes) {
        return Err(Refusal::NotAMessage);
    }
    let n = changes.len() / ROW_BYTES;
    let bytes = HEAD_BYTES + WITHDRAWAL_BYTES * n + ROW_FILL * count_adds(changes, 0, n, ROW_FILL);
    if message.len() < bytes {
        return Err(Refusal::LentLength);
    }
    check_limits(changes, 0, n, ROW_FILL)?;
    write_head(message, bytes, n);
    recode(changes, 0, n, ROW_FILL, message, HEAD_BYTES, 0);
    Ok(())
}

// The changes of a message, 13 bytes each, at the front of `changes`.
pub fn read_message(message: &[u8], changes: &mut [u8]) -> Result<(), Refusal>
    ensures { ReadPost message.now changes.old (told result) changes.new }
{
    if !message_ok(message) {
        return Err(Refusal::NotAMessage);
    }
    let n = octets::read16(message, 5);
    if changes.len() < ROW_BYTES * n {
        return Err(Refusal::LentLength);
    }
    check_limits(message, HEAD_BYTES, n, 0)?;
    recode(message, HEAD_BYTES, n, 0, changes, 0, ROW_FILL);
    Ok(())
}
