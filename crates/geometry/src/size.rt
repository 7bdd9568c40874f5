// Sizes.
ghost use Rattle.std.specs.Prelude.{◌≡◌};
ghost use Rattle.geometry.specs.Points.{size2 as size2_of, eq_sizes};

use crate::types::Size2D;
use scalar::{Scalar, Tag};

impl<T, U: Tag> Size2D<T, U> {
    pub fn new(width: T, height: T) -> Size2D<T, U>
        ensures { result ≡ size2_of width height U.label }
    {
        Size2D {
            width,
            height,
            unit: U::tag(),
        }
    }
}

// Shorthand for `Size2D::new`.
pub fn size2<T, U: Tag>(w: T, h: T) -> Size2D<T, U>
    ensures { result ≡ size2_of w h U.label }
{
    Size2D::new(w, h)
}

impl<T: Scalar, U: Copy> Size2D<T, U> {
    // Not PartialEq, which would ask for laws of the scalar's equality.
    pub fn eq(&self, other: &Size2D<T, U>) -> bool
        ensures { result ≡ eq_sizes T.ops self.now other.now }
    {
        self.width.eq(other.width) && self.height.eq(other.height)
    }
}
