// What is printed behind a label. A write that fails is passed over: what is compared with the wanted output shows it.
ghost use Rattle.std.specs.Prelude.{◌≡◌, ◌+◌, ◌≤◌, true, length};
ghost use Rattle.spot.specs.Keys.{limited};
ghost use Rattle.spot.specs.Spots.{key_at};
ghost use Rattle.table.specs.Queries.{GivenInside};

// A byte of an output or a map when it is lent.
pub const BYTE: u8 = 165;

pub fn show_number(rt: &impl Print, n: usize) {
    let _ = println!(rt; ": {n}");
}

pub fn show(rt: &impl Print, a: block::Answer) {
    let _ = println!(rt; ": {} {}", a.number, a.detail);
}

// How many items from one on differ from what was lent.
pub fn changed<T: PartialEq + Copy + Drop>(items: &[T], from: usize, lent: T) -> usize {
    items.iter().skip(from).filter(|&&x| x != lent).count()
}

// How many were changed that a call should leave.
pub fn show_others(rt: &impl Print, n: usize) {
    let _ = println!(rt; "    others changed: {n}");
}

pub fn show_spot(rt: &impl Print, output: &[u8], at: usize)
    requires { (at + 12 ≤ length output.now) × (limited (key_at output.now at) ≡ true) }
{
    let s = spot::read_spot(output, at);
    let place = spot::place_of(s.key);
    let rank = spot::rank_in(s.key);
    let _ = println!(rt; "    {place} {rank} {}", s.track);
}

// The spots of an answer, where it has any.
pub fn show_spots(rt: &impl Print, a: block::Answer, output: &[u8])
    requires { GivenInside a output.now }
{
    if a.number != 0 {
        return;
    }
    for i in 0..a.detail as usize {
        show_spot(rt, output, 12 * i);
    }
}
