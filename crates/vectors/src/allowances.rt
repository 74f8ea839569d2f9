// Top with an allowance of node blocks.
ghost use Rattle.block.specs.Answers.{answer_of};
ghost use Rattle.table.specs.Queries.{GivenInside};

use crate::marks::Marks;
use crate::shown::{BYTE, changed, show, show_spots};
use crate::{Row, plain};

// What a call is lent, in bytes of the output and of the map, and the node blocks that it may read.
#[derive(Clone, Copy, Default)]
pub struct Allowed {
    pub room: usize,
    pub map: usize,
    blocks: u32,
}

// A row lends x bytes of room, up to 4,096, and a map of y bytes, up to 513, and allows n node blocks.
impl From<Row> for Allowed {
    fn from(r: Row) -> Allowed {
        Allowed {
            room: plain(r.x),
            map: plain(r.y),
            blocks: r.n,
        }
    }
}

fn asked(table: &[u8], l: Allowed, r: Row, output: &mut [u8], map: &mut [u8]) -> within::Said
    ensures { GivenInside (answer_of result.answer) output.new }
{
    let mut ceiling = 77;
    let o = l.room.min(output.len());
    let m = l.map.min(map.len());
    let answer = within::top_within(
        table,
        r.x,
        r.y,
        r.n,
        l.blocks,
        &mut output[0..o],
        &mut map[0..m],
        &mut ceiling,
    );
    within::Said { answer, ceiling }
}

// The blocks that are marked.
pub fn show_blocks(rt: &impl Print, map: &[u8; 513]) {
    let _ = print!(rt; "    blocks");
    for b in 0..4096 {
        if octets::test_bit(map, b) {
            let _ = print!(rt; " {b}");
        }
    }
    let _ = println!(rt);
}

// How many bytes of the output and of the map differ from what was lent, from such bytes on.
pub fn others_changed(output: &[u8], end: usize, map: &[u8], marks: usize) -> usize {
    changed(output, end, BYTE).wrapping_add(changed(map, marks, BYTE))
}

fn show_ceiling(rt: &impl Print, ceiling: i32, others: usize) {
    let _ = println!(rt; "    ceiling {ceiling}, others changed: {others}");
}

fn show_said(rt: &impl Print, said: within::Said, output: &[u8; 4096], map: &[u8; 513])
    requires { GivenInside (answer_of said.answer) output.now }
{
    let a = block::answer_of(said.answer);
    show(rt, a);
    if a.number != 0 {
        show_ceiling(rt, said.ceiling, others_changed(output, 0, map, 0));
        return;
    }
    show_spots(rt, a, output);
    let end = 12 * (a.detail as usize);
    show_ceiling(rt, said.ceiling, others_changed(output, end, map, 512));
    show_blocks(rt, map);
}

// The marks of the last call; a refusal has none.
pub fn keep_marks(accepted: bool, map: &[u8; 513], marks: &mut Marks) {
    if accepted {
        marks.set(map);
    } else {
        marks.clear();
    }
}

// Gives the top n from x to y with what is lent and allowed.
pub fn ask(rt: &impl Print, table: &[u8], marks: &mut Marks, l: Allowed, r: Row) {
    let mut output = [BYTE; 4096];
    let mut map = [BYTE; 513];
    let said = asked(table, l, r, &mut output, &mut map);
    show_said(rt, said, &output, &map);
    keep_marks(said.answer.is_ok(), &map, marks);
}
