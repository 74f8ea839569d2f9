// Which child of a node.
#![tactic(auto)]

ghost use Rattle.std.specs.Prelude.{◌≡◌, ◌-◌, ◌≤◌, ◌<◌, drop};
ghost use Rattle.tree.specs.Part.{next_low};
ghost use Rattle.buffer.specs.Keyed.{InOrder};
ghost use Rattle.node.specs.Memory.{entries_of};
ghost use Rattle.choose.specs.Choices.{Fullest, start_at, end_at};

use buffer::Buffer;

// The low of the i-th entry.
fn low_at(es: node::Entries, i: usize) -> u64
    requires { (i < es.n) × (es.n ≤ 8) }
    ensures { result ≡ next_low (drop i (entries_of es)) 0 }
{
    es.list[i].low
}

// How many keys of a buffer are below the low of the i-th entry; all, where i is the number of entries.
pub fn end_of<B: Buffer>(es: node::Entries, b: B, i: usize) -> usize
    requires { (es.n ≤ 8) × InOrder B.room (B.count b) (B.Item.keyed.named (B.held b)) }
    ensures { result ≡ end_at (entries_of es) (B.Item.keyed.named (B.held b)) (B.count b) i }
{
    if i < es.n {
        return buffer::position(b, low_at(es, i));
    }
    b.as_slice().len()
}

// How many keys of a buffer lie before the range of the i-th child.
pub fn start_of<B: Buffer>(es: node::Entries, b: B, i: usize) -> usize
    requires { (i < es.n) × (es.n ≤ 8) × InOrder B.room (B.count b) (B.Item.keyed.named (B.held b)) }
    ensures { result ≡ start_at (entries_of es) (B.Item.keyed.named (B.held b)) i }
{
    if i == 0 {
        return 0;
    }
    buffer::position(b, low_at(es, i))
}

// How many lie from `start` up to `end`.
fn share_of(start: usize, end: usize) -> usize
    ensures { result ≡ end - start }
{
    if start <= end {
        return end - start;
    }
    0
}

// The child for which most of a buffer waits.
pub fn fullest<B: Buffer>(es: node::Entries, b: B) -> usize
    requires { (0 < es.n) × (es.n ≤ 8) × InOrder B.room (B.count b) (B.Item.keyed.named (B.held b)) }
    ensures { Fullest (entries_of es) (B.Item.keyed.named (B.held b)) (B.count b) result }
{
    let n = es.n;
    let mut best = 0;
    let mut most = 0;
    let mut start = 0;
    for i in 0..n {
        let end = end_of(es, b, i + 1);
        let here = share_of(start, end);
        if most < here {
            best = i;
            most = here;
        }
        start = end;
    }
    best
}
