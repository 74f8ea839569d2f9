// What the letters and signs of the rows stand for.

// The capital letters.
#[derive(Clone, Copy, Debug, PartialEq, Eq)]
pub enum Call {
    Add,
    Withdraw,
    Rebuild,
    Format,
    Check,
    Count,
}

// What a small letter asks.
#[derive(Clone, Copy, Debug, PartialEq, Eq)]
pub enum Query {
    Report,
    Top,
}

// What it lends: room for so many spots, or room for two and a map a byte too short or too long.
#[derive(Clone, Copy, Debug, PartialEq, Eq)]
pub enum Lent {
    None,
    One,
    Two,
    Ten,
    Many,
    ShortMap,
    LongMap,
}

// How spots are hung.
#[derive(Clone, Copy, Debug, PartialEq, Eq)]
pub enum Hung {
    SideBySide,
    Scattered,
}

// Whether a list of changes becomes a message, or a message a list.
#[derive(Clone, Copy, Debug, PartialEq, Eq)]
pub enum Recoded {
    Written,
    Read,
}

#[derive(Clone, Copy, Debug, PartialEq, Eq)]
pub enum Op {
    Call(Call),
    Ask(Query, Lent),
    Hang(Hung),
    SetBytes,
    Veil,
    Marked,
    KeepMarks,
    LeftOut,
    PrintByte,
    EndLine,
    TableLength,
    BeginRanges,
    AddRange,
    ReportRanges,
    Allow,
    TopWithin,
    PutSpots,
    PutSpot,
    Press,
    Sum,
    ReportTour,
    PutAddition,
    PutWithdrawal,
    PutWithdrawals,
    SetLetter,
    Recode(Recoded),
    Apply,
    PrintLetter,
}

// A byte that no row begins with.
#[derive(Clone, Copy, Debug, PartialEq, Eq)]
pub struct UnknownOp(pub u8);

impl TryFrom<u8> for Op {
    type Error = UnknownOp;

    // A capital letter with no call of its own counts, and a small one with no question of its own reports with room for two.
    fn try_from(sign: u8) -> Result<Self, UnknownOp> {
        match sign {
            b'A' => Ok(Op::Call(Call::Add)),
            b'W' => Ok(Op::Call(Call::Withdraw)),
            b'R' => Ok(Op::Call(Call::Rebuild)),
            b'F' => Ok(Op::Call(Call::Format)),
            b'C' => Ok(Op::Call(Call::Check)),
            b'A'..=b'Z' => Ok(Op::Call(Call::Count)),
            b't' => Ok(Op::Ask(Query::Top, Lent::Two)),
            b'w' => Ok(Op::Ask(Query::Top, Lent::Ten)),
            b'p' => Ok(Op::Ask(Query::Top, Lent::One)),
            b'v' => Ok(Op::Ask(Query::Report, Lent::Ten)),
            b'o' => Ok(Op::Ask(Query::Report, Lent::One)),
            b'a' => Ok(Op::Ask(Query::Report, Lent::Many)),
            b'x' => Ok(Op::Ask(Query::Report, Lent::None)),
            b's' => Ok(Op::Ask(Query::Report, Lent::ShortMap)),
            b'l' => Ok(Op::Ask(Query::Report, Lent::LongMap)),
            b'a'..=255 => Ok(Op::Ask(Query::Report, Lent::Two)),
            b'+' => Ok(Op::Hang(Hung::SideBySide)),
            b'*' => Ok(Op::Hang(Hung::Scattered)),
            b'!' => Ok(Op::SetBytes),
            b'$' => Ok(Op::Veil),
            b'%' => Ok(Op::Marked),
            b'&' => Ok(Op::KeepMarks),
            b'-' => Ok(Op::LeftOut),
            b'.' => Ok(Op::PrintByte),
            b'=' => Ok(Op::EndLine),
            b'<' => Ok(Op::TableLength),
            b'[' => Ok(Op::BeginRanges),
            b',' => Ok(Op::AddRange),
            b']' => Ok(Op::ReportRanges),
            b'/' => Ok(Op::Allow),
            b'@' => Ok(Op::TopWithin),
            b'(' => Ok(Op::PutSpots),
            b')' => Ok(Op::PutSpot),
            b':' => Ok(Op::Press),
            b';' => Ok(Op::Sum),
            b'>' => Ok(Op::ReportTour),
            b'1' => Ok(Op::PutAddition),
            b'2' => Ok(Op::PutWithdrawal),
            b'3' => Ok(Op::SetLetter),
            b'4' => Ok(Op::PutWithdrawals),
            b'5' => Ok(Op::Recode(Recoded::Written)),
            b'6' => Ok(Op::Recode(Recoded::Read)),
            b'7' => Ok(Op::Apply),
            b'8' => Ok(Op::PrintLetter),
            _ => Err(UnknownOp(sign)),
        }
    }
}
