// Numbers of a file as pixels.
ghost use Rattle.std.specs.Prelude.{◌≡◌};
ghost use Rattle.pixels.specs.Pixels.{pixel_of};

use crate::clamped::held;
use crate::types::{Clamped, Parts256, Pixel};
use integers::fraction::Fraction;
use integers::rounding::ratio;

// The floor of 256 times the fraction, clamped.
impl From<Fraction> for Clamped<Parts256> {
    ghost from_gives = { λ f r. r ≡ pixel_of f.num f.den };

    fn from(f: Fraction) -> Pixel {
        held(ratio(256, f.num, f.den as i32))
    }
}
