// Boxes of the plane, by their minimum and maximum.
ghost use Rattle.std.specs.Prelude.{◌≡◌};
ghost use Rattle.geometry.specs.Boxes.{box2, box_size, box_rect, grown2, box_of2, eq_boxes2};
ghost use Rattle.geometry.specs.Points.{origin2};

use crate::order::{larger, smaller};
use crate::types::{Box2D, Point2D, Rect, Size2D};
use scalar::{Ordered, Scalar, Tag};

impl<T, U> Box2D<T, U> {
    pub fn new(min: Point2D<T, U>, max: Point2D<T, U>) -> Box2D<T, U>
        ensures { result ≡ box2 min max }
    {
        Box2D { min, max }
    }
}

impl<T: Scalar, U: Copy> Box2D<T, U> {
    pub fn size(&self) -> Size2D<T, U>
        ensures { result ≡ box_size T.ops self.now }
    {
        self.max.sub(self.min).to_size()
    }

    pub fn to_rect(&self) -> Rect<T, U>
        ensures { result ≡ box_rect T.ops self.now }
    {
        Rect {
            origin: self.min,
            size: self.size(),
        }
    }

    // Not PartialEq, which would ask for laws of the scalar's equality.
    pub fn eq(&self, other: &Box2D<T, U>) -> bool
        ensures { result ≡ eq_boxes2 T.ops self.now other.now }
    {
        self.min.eq(&other.min) && self.max.eq(&other.max)
    }
}

impl<T: Scalar, U: Tag> Box2D<T, U> {
    pub fn zero() -> Box2D<T, U>
        ensures { result ≡ box2 (origin2 T.ops U.label) (origin2 T.ops U.label) }
    {
        Box2D::new(Point2D::zero(), Point2D::zero())
    }
}

impl<T: Ordered, U: Copy> Box2D<T, U> {
    // Takes in one point more.
    pub fn grow(&mut self, p: Point2D<T, U>)
        ensures { self.new ≡ grown2 T.less self.old p }
    {
        self.min.x = smaller(self.min.x, p.x);
        self.max.x = larger(self.max.x, p.x);
        self.min.y = smaller(self.min.y, p.y);
        self.max.y = larger(self.max.y, p.y);
    }
}

impl<T: Ordered, U: Tag> Box2D<T, U> {
    // The smallest box around the points.
    pub fn from_points(points: &[Point2D<T, U>]) -> Box2D<T, U>
        ensures { result ≡ box_of2 T.less T.ops.zero U.label points.now }
    {
        match points.split_first() {
            Some((first, others)) => others
                .iter()
                .fold(Box2D::new(*first, *first), |mut outer, p| {
                    outer.grow(*p);
                    outer
                }),
            None => Box2D::zero(),
        }
    }
}
