// The two scalars, each by its operations written out.
ghost use Rattle.std.specs.Prelude.{◌≡◌};
ghost use Rattle.pixels.specs.Pixels.{pixel_ops, pixel_less, pixel_absolute};
ghost use Rattle.pixels.specs.Wholes.{whole_ops, whole_less, whole_absolute};

use crate::types::{Pixel, Whole};
use scalar::{Ordered, Scalar};

// What Pixel does.
pub fn of_pixel()
    ensures ops { ⟦<Pixel as Scalar>⟧.ops ≡ pixel_ops }
    ensures less { ⟦<Pixel as Ordered>⟧.less ≡ pixel_less }
    ensures absolute { ⟦<Pixel as Ordered>⟧.absolute ≡ pixel_absolute }
{}

// What Whole does.
pub fn of_whole()
    ensures ops { ⟦<Whole as Scalar>⟧.ops ≡ whole_ops }
    ensures less { ⟦<Whole as Ordered>⟧.less ≡ whole_less }
    ensures absolute { ⟦<Whole as Ordered>⟧.absolute ≡ whole_absolute }
{}
