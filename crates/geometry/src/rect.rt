// Rectangles, by a corner and a size.
ghost use Rattle.std.specs.Prelude.{◌≡◌};
ghost use Rattle.geometry.specs.Boxes.{rect, rect_box, box_rect, box_of2, eq_rects};
ghost use Rattle.geometry.specs.Points.{point_add};

use crate::types::{Box2D, Point2D, Rect, Size2D};
use scalar::{Ordered, Scalar, Tag};

impl<T, U> Rect<T, U> {
    pub fn new(origin: Point2D<T, U>, size: Size2D<T, U>) -> Rect<T, U>
        ensures { result ≡ rect origin size }
    {
        Rect { origin, size }
    }
}

impl<T: Copy, U: Copy> Rect<T, U> {
    pub fn min(&self) -> Point2D<T, U>
        ensures { result ≡ self.now.origin }
    {
        self.origin
    }
}

impl<T: Scalar, U: Copy> Rect<T, U> {
    pub fn max(&self) -> Point2D<T, U>
        ensures { result ≡ point_add T.ops self.now.origin self.now.size }
    {
        self.origin.add(self.size)
    }

    pub fn to_box2d(&self) -> Box2D<T, U>
        ensures { result ≡ rect_box T.ops self.now }
    {
        Box2D {
            min: self.min(),
            max: self.max(),
        }
    }

    // Not PartialEq, which would ask for laws of the scalar's equality.
    pub fn eq(&self, other: &Rect<T, U>) -> bool
        ensures { result ≡ eq_rects T.ops self.now other.now }
    {
        self.origin.eq(&other.origin) && self.size.eq(&other.size)
    }
}

impl<T: Ordered, U: Tag> Rect<T, U> {
    // The smallest rectangle around the points.
    pub fn from_points(points: &[Point2D<T, U>]) -> Rect<T, U>
        ensures { result ≡ box_rect T.ops (box_of2 T.less T.ops.zero U.label points.now) }
    {
        Box2D::from_points(points).to_rect()
    }
}
