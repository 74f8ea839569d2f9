// Marks of blocks read.
ghost use Rattle.std.specs.Prelude.{◌+◌, ◌≤◌};

// The marks of the last call, and those that were kept.
#[derive(Clone, Copy)]
pub struct Marks {
    last: [u8; 512],
    kept: [u8; 512],
}

impl Marks {
    pub fn new() -> Marks {
        Marks {
            last: [0; 512],
            kept: [0; 512],
        }
    }

    // The map of the last call, behind which a byte more may be lent.
    pub fn set(&mut self, map: &[u8; 513]) {
        self.last.copy_from_slice(&map[..512]);
    }

    pub fn clear(&mut self) {
        self.last = [0; 512];
    }

    // Keeps the marks of the last call.
    pub fn keep(&mut self) {
        self.kept = self.last;
    }

    // The number of blocks that the last call marked.
    pub fn marked(&self) -> usize {
        octets::ones(&self.last)
    }

    // The number of blocks that the last call did not mark and those kept did.
    pub fn left_out(&self) -> usize {
        let mut rest = self.kept;
        for i in 0..512 {
            rest[i] &= !self.last[i];
        }
        octets::ones(&rest)
    }
}

// Gives the n bytes from `at` on this value, where the table has them.
pub fn set_bytes(table: &mut [u8], at: usize, n: usize, value: u8)
    requires { at + n ≤ 9223372036854775807 }
{
    if at + n <= table.len() {
        table[at..at + n].fill(value);
    }
}

// Gives all bytes of the blocks that the last call did not mark this value.
pub fn veil(table: &mut [u8], marks: &Marks, value: u8) {
    for b in 0..(table.len() / 2048).min(4096) {
        if !octets::test_bit(&marks.last, b) {
            set_bytes(table, 2048 * b, 2048, value);
        }
    }
}
