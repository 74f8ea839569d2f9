// The calls for C and Rust: a slice is a pointer and a length, in elements; the answer is number · 2^32 + detail.
#![tactic(auto)]

ghost use Rattle.std.specs.Prelude.{◌≡◌, ◌+◌, ◌*◌};
ghost use Rattle.table.specs.Queries.{ReportPost, ManyPost, TopPost, TopWithinPost, CountPost, CheckPost, BlocksReadPost};
ghost use Rattle.table.specs.Updates.{FormatPost, AddPost, WithdrawPost, RebuildPost, ApplyPost};
ghost use Rattle.message.specs.Messages.{WritePost, ReadPost};
ghost use Rattle.press.specs.Press.{PressPost};
ghost use Rattle.tour.specs.Tour.{TourPost};
ghost use Rattle.cabi.specs.Packed.{Packed};

// Stays: a From may not be written here, where neither of its types is declared.
fn pack(a: block::Answer) -> u64
    ensures { result ≡ a.number * 4294967296 + a.detail }
{
    (a.number as u64) * 4294967296 + (a.detail as u64)
}

#[unsafe(no_mangle)]
pub extern "C" fn spot_format(table: &mut [u8]) -> u64
    ensures { Packed result (λ a. FormatPost table.old a table.new) }
{
    pack(block::told(table::format(table)))
}

#[unsafe(no_mangle)]
pub extern "C" fn spot_count(table: &[u8]) -> u64
    ensures { Packed result (CountPost table.now) }
{
    pack(block::answer_of(table::count(table)))
}

#[unsafe(no_mangle)]
pub extern "C" fn spot_check(table: &[u8]) -> u64
    ensures { Packed result (CheckPost table.now) }
{
    pack(block::yes_or_no(table::check(table)))
}

#[unsafe(no_mangle)]
pub extern "C" fn spot_report(
    table: &[u8],
    x1: i32,
    x2: i32,
    y: i32,
    output: &mut [u8],
    read_map: &mut [u8],
) -> u64
    ensures { Packed result (λ a. ReportPost x1 x2 y table.now output.old read_map.old a output.new read_map.new) }
{
    pack(block::answer_of(table::report(table, x1, x2, y, output, read_map)))
}

#[unsafe(no_mangle)]
pub extern "C" fn spot_top(
    table: &[u8],
    x1: i32,
    x2: i32,
    k: u32,
    output: &mut [u8],
    read_map: &mut [u8],
) -> u64
    ensures { Packed result (λ a. TopPost x1 x2 k table.now output.old read_map.old a output.new read_map.new) }
{
    pack(block::answer_of(table::top(table, x1, x2, k, output, read_map)))
}

#[unsafe(no_mangle)]
pub extern "C" fn spot_add(
    table: &mut [u8],
    scratch: &mut [u8],
    place: i32,
    rank: i32,
    track: u32,
) -> u64
    ensures { Packed result (λ a. AddPost place rank track table.old scratch.old a table.new scratch.new) }
{
    pack(block::told(table::add(table, scratch, place, rank, track)))
}

#[unsafe(no_mangle)]
pub extern "C" fn spot_withdraw(table: &mut [u8], scratch: &mut [u8], place: i32, rank: i32) -> u64
    ensures { Packed result (λ a. WithdrawPost place rank table.old scratch.old a table.new scratch.new) }
{
    pack(block::told(table::withdraw(table, scratch, place, rank)))
}

#[unsafe(no_mangle)]
pub extern "C" fn spot_rebuild(table: &mut [u8], scratch: &mut [u8]) -> u64
    ensures { Packed result (λ a. RebuildPost table.old scratch.old a table.new scratch.new) }
{
    pack(block::told(table::rebuild(table, scratch)))
}

#[unsafe(no_mangle)]
pub extern "C" fn spot_apply(table: &mut [u8], scratch: &mut [u8], message: &[u8]) -> u64
    ensures { Packed result (λ a. ApplyPost message.now table.old scratch.old a table.new scratch.new) }
{
    pack(block::told(apply::apply(table, scratch, message)))
}

#[unsafe(no_mangle)]
pub extern "C" fn spot_write_message(changes: &[u8], message: &mut [u8]) -> u64
    ensures { Packed result (λ a. WritePost changes.now message.old a message.new) }
{
    pack(block::told(message::write_message(changes, message)))
}

#[unsafe(no_mangle)]
pub extern "C" fn spot_read_message(message: &[u8], changes: &mut [u8]) -> u64
    ensures { Packed result (λ a. ReadPost message.now changes.old a changes.new) }
{
    pack(block::told(message::read_message(message, changes)))
}

#[unsafe(no_mangle)]
pub extern "C" fn spot_report_many(
    table: &[u8],
    ranges: &[ranges::Range],
    counts: &mut [u32],
    output: &mut [u8],
    read_map: &mut [u8],
) -> u64
    ensures { Packed result (λ a. ManyPost ranges.now table.now counts.old output.old read_map.old a counts.new output.new read_map.new) }
{
    pack(block::answer_of(many::report_many(table, ranges, counts, output, read_map)))
}

#[unsafe(no_mangle)]
pub extern "C" fn spot_top_within(
    table: &[u8],
    x1: i32,
    x2: i32,
    k: u32,
    allowance: u32,
    output: &mut [u8],
    read_map: &mut [u8],
    ceiling: &mut i32,
) -> u64
    ensures { Packed result (λ a. TopWithinPost x1 x2 k allowance table.now output.old read_map.old a output.new read_map.new ceiling.new) }
{
    pack(block::answer_of(within::top_within(
        table, x1, x2, k, allowance, output, read_map, ceiling,
    )))
}

#[unsafe(no_mangle)]
pub extern "C" fn spot_blocks_read(read_map: &[u8]) -> u64
    ensures { Packed result (BlocksReadPost read_map.now) }
{
    pack(block::answer_of(table::blocks_read(read_map)))
}

#[unsafe(no_mangle)]
pub extern "C" fn spot_press(spots: &[u8], tour: &mut [u8]) -> u64
    ensures { Packed result (λ a. PressPost spots.now tour.old a tour.new) }
{
    pack(block::told(press::press(spots, tour)))
}

#[unsafe(no_mangle)]
pub extern "C" fn spot_tour_report(
    tour: &[u8],
    x1: i32,
    x2: i32,
    y: i32,
    output: &mut [u8],
    read_map: &mut [u8],
) -> u64
    ensures { Packed result (λ a. TourPost x1 x2 y tour.now output.old read_map.old a output.new read_map.new) }
{
    pack(block::answer_of(tour::tour_report(tour, x1, x2, y, output, read_map)))
}
