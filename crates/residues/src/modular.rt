// Arithmetic modulo any number that fits 16 bits.
ghost use Rattle.std.specs.Prelude.{◌≡◌, ◌≤◌, ◌<◌, ◌^◌};
ghost use Rattle.integers.specs.Moduli.{inverse, reduced};

// The number from 0 to p - 1 that differs from `z` by a multiple of `p`.
pub(crate) fn reduce(z: i64, p: u32) -> i32
    requires positive { 0 < p }
    requires small { p ≤ 2 ^ 16 }
    ensures { result ≡ reduced p z }
{
    z.rem_euclid(p as i64) as i32
}

// The inverse of `b` modulo the prime `p`, and zero for zero.
pub(crate) fn invert(b: u32, p: u32) -> u32
    requires reduced { b < p }
    requires small { p ≤ 2 ^ 16 }
    ensures value { result ≡ inverse p b }
    ensures bound { result < p }
{
    if b < 2 {
        b
    } else {
        (p - p / b) * invert(p % b, p) % p
    }
}
