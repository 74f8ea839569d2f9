// The plain list: 4,784 slots, searched from the first one on.
ghost use Rattle.std.specs.Prelude.{◌<◌, ◌≤◌, IfSome};

pub const SLOTS: usize = 4784;

// A spot. An identity is one number, the place before the rank, each moved up by 2^31, so that numbers compare as in place order.
#[derive(Clone, Copy, Debug, PartialEq, Eq)]
pub struct Held {
    pub id: u64,
    pub track: u32,
}

#[derive(Clone, Copy)]
pub struct List {
    slots: [Option<Held>; 4784],
}

// Whether the list takes no spot at this place.
fn outside(place: i32) -> bool {
    (place < -1000000) | (1000000 < place)
}

// Whether a comes before b in the order of Top's answers: the higher rank first, of equal ranks the lower place.
pub fn top_before(a: u64, b: u64) -> bool {
    let rank = spot::rank_in(a);
    let other = spot::rank_in(b);
    if rank == other {
        return a < b;
    }
    other < rank
}

fn between(place: i32, a: i32, b: i32) -> bool {
    (a <= place) & (place <= b)
}

// Whether a place is in range from x1 to x2. Where x1 is greater, there are two stretches: the places from x1 up, and past the door those up to x2.
pub fn lies(place: i32, x1: i32, x2: i32) -> bool {
    if x2 < x1 {
        return (x1 <= place) | (place <= x2);
    }
    between(place, x1, x2)
}

impl List {
    pub fn new() -> List {
        List {
            slots: [None; 4784],
        }
    }

    // The slot of an identity.
    fn slot_of(&self, id: u64) -> Option<usize>
        ensures { IfSome result (λ i. i < 4784) }
    {
        for i in 0..SLOTS {
            if let Some(held) = self.slots[i] {
                if held.id == id {
                    return Some(i);
                }
            }
        }
        None
    }

    // The first slot that has no spot.
    fn free(&self) -> Option<usize>
        ensures { IfSome result (λ i. i < 4784) }
    {
        for i in 0..SLOTS {
            if self.slots[i].is_none() {
                return Some(i);
            }
        }
        None
    }

    // The track of an identity.
    pub fn track_of(&self, id: u64) -> Option<u32> {
        for held in self.slots.iter().flatten() {
            if held.id == id {
                return Some(held.track);
            }
        }
        None
    }

    // The identity of the first spot from a slot on.
    pub fn first_from(&self, start: usize) -> Option<u64> {
        for i in start..SLOTS {
            if let Some(held) = self.slots[i] {
                return Some(held.id);
            }
        }
        None
    }

    // The identity of the highest spot in rank order.
    pub fn highest(&self) -> Option<u64> {
        let mut best = None;
        let mut key = 0;
        for held in self.slots.iter().flatten() {
            let k = spot::rank_key(held.id);
            if key <= k {
                best = Some(held.id);
                key = k;
            }
        }
        best
    }

    // The number of spots with a place in range that do not come behind `last` in the order of Top's answers.
    pub fn count(&self, x1: i32, x2: i32, last: u64) -> u64 {
        let mut n = 0u64;
        for held in self.slots.iter().flatten() {
            if lies(spot::place_of(held.id), x1, x2) & !top_before(last, held.id) {
                n = n.wrapping_add(1);
            }
        }
        n
    }

    // The number of spots with a place in range and a rank of at least y.
    pub fn report_count(&self, x1: i32, x2: i32, y: i32) -> u64 {
        self.count(x1, x2, spot::key_of(i32::MAX, y))
    }

    pub fn live(&self) -> u64 {
        self.report_count(i32::MIN, i32::MAX, i32::MIN)
    }

    // The rank of the last of the k spots that Top gives, where there are k in range, else the least rank: the highest rank from which on k are found.
    pub fn last_rank(&self, x1: i32, x2: i32, k: u64) -> i32 {
        let mut low = 0;
        let mut step = 2147483648;
        // Stays: a halving, which has no range to run over.
        while 0 < step {
            if k <= self.report_count(x1, x2, spot::unbias(low + step)) {
                low += step;
            }
            step /= 2;
        }
        spot::unbias(low)
    }

    // Puts a spot in and returns the call's number.
    // Stays: a number for a refusal, since it is held to the number that the call answers.
    pub fn add(&mut self, capacity: u64, spot: Held) -> u32 {
        if outside(spot::place_of(spot.id)) {
            return 9;
        }
        if let Some(slot) = self.slot_of(spot.id) {
            self.slots[slot] = Some(spot);
            return 0;
        }
        if capacity <= self.live() {
            return 4;
        }
        if let Some(slot) = self.free() {
            self.slots[slot] = Some(spot);
        }
        0
    }

    // Takes a spot out, where it is there, and returns the call's number.
    pub fn withdraw(&mut self, id: u64) -> u32 {
        if outside(spot::place_of(id)) {
            return 9;
        }
        if let Some(slot) = self.slot_of(id) {
            self.slots[slot] = None;
        }
        0
    }
}
