// What a clamped scalar counts, and how its products and quotients are rounded.
ghost use Rattle.std.specs.Prelude.{◌≡◌, ℤ, pos, ◌*ℤ◌, ◌≤ℤ◌};
ghost use Rattle.integers.specs.Rounds.{clamped, rounded, truncated};
ghost use Rattle.integers.proofs.Rounds.{rounded_rises};

use crate::types::{Ones, Parts256};
use integers::rounding::{clamp, ratio};

pub trait Measure: Copy {
    // How many make one.
    const ONE: i32;

    ghost ONE: { ℤ };

    ghost scaled: { ℤ → ℤ };

    ghost quotient: { ℤ → ℤ → ℤ };

    fn product(a: i32, b: i32) -> i32
        ensures { result ≡ clamped (scaled (a *ℤ b)) };

    fn quotient(a: i32, b: i32) -> i32
        ensures { result ≡ clamped (quotient a b) };

    // rounding never turns an order round
    ghost scaled_rises: { (a b : ℤ) → a ≤ℤ b → scaled a ≤ℤ scaled b };
}

impl Measure for Parts256 {
    const ONE: i32 = 256;

    ghost ONE = { pos 256 };

    ghost scaled = { λ z. rounded z (pos 256) };

    ghost quotient = { λ a b. rounded (pos 256 *ℤ a) b };

    ghost scaled_rises = { rounded_rises };

    fn product(a: i32, b: i32) -> i32 {
        ratio(a, b, 256)
    }

    fn quotient(a: i32, b: i32) -> i32 {
        ratio(256, a, b)
    }
}

impl Measure for Ones {
    const ONE: i32 = 1;

    ghost ONE = { pos 1 };

    ghost scaled = { λ z. z };

    ghost quotient = { truncated };

    ghost scaled_rises = { λ _ _ h. h };

    fn product(a: i32, b: i32) -> i32 {
        a.saturating_mul(b)
    }

    fn quotient(a: i32, b: i32) -> i32 {
        if b == 0 {
            return 0;
        }
        clamp(a as i64 / b as i64)
    }
}
