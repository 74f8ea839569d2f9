// Random numbers for the programs that play long histories: a congruential generator of 32 bits, so that each run draws the same.
#![tactic(auto)]

ghost use Rattle.std.specs.Prelude.{◌≡◌, ◌+◌, ◌*◌, ◌/◌, ◌%◌, ◌<◌};

// The random number after s.
pub fn next(s: u64) -> u64
    ensures bound { result < 4294967296 }
    ensures value { result ≡ (1664525 * (s % 4294967296) + 1013904223) % 4294967296 }
{
    (1664525 * (s % 4294967296) + 1013904223) % 4294967296
}

// A number below n, of the upper bits, which are the more random ones.
pub fn below(seed: u64, n: u64) -> u64
    requires { 0 < n }
    ensures bound { result < n }
    ensures value { result ≡ seed / 65536 % n }
{
    seed / 65536 % n
}
