// Boxes of space, by their minimum and maximum.
ghost use Rattle.std.specs.Prelude.{◌≡◌};
ghost use Rattle.geometry.specs.Boxes.{box3, grown3, box_of3, eq_boxes3};
ghost use Rattle.geometry.specs.Points.{origin3};

use crate::order::{larger, smaller};
use crate::types::{Box3D, Point3D};
use scalar::{Ordered, Scalar, Tag};

impl<T, U> Box3D<T, U> {
    pub fn new(min: Point3D<T, U>, max: Point3D<T, U>) -> Box3D<T, U>
        ensures { result ≡ box3 min max }
    {
        Box3D { min, max }
    }
}

impl<T: Scalar, U: Copy> Box3D<T, U> {
    // Not PartialEq, which would ask for laws of the scalar's equality.
    pub fn eq(&self, other: &Box3D<T, U>) -> bool
        ensures { result ≡ eq_boxes3 T.ops self.now other.now }
    {
        self.min.eq(&other.min) && self.max.eq(&other.max)
    }
}

impl<T: Scalar, U: Tag> Box3D<T, U> {
    pub fn zero() -> Box3D<T, U>
        ensures { result ≡ box3 (origin3 T.ops U.label) (origin3 T.ops U.label) }
    {
        Box3D::new(Point3D::zero(), Point3D::zero())
    }
}

impl<T: Ordered, U: Copy> Box3D<T, U> {
    // Takes in one point more.
    pub fn grow(&mut self, p: Point3D<T, U>)
        ensures { self.new ≡ grown3 T.less self.old p }
    {
        self.min.x = smaller(self.min.x, p.x);
        self.max.x = larger(self.max.x, p.x);
        self.min.y = smaller(self.min.y, p.y);
        self.max.y = larger(self.max.y, p.y);
        self.min.z = smaller(self.min.z, p.z);
        self.max.z = larger(self.max.z, p.z);
    }
}

impl<T: Ordered, U: Tag> Box3D<T, U> {
    // The smallest box around the points.
    pub fn from_points(points: &[Point3D<T, U>]) -> Box3D<T, U>
        ensures { result ≡ box_of3 T.less T.ops.zero U.label points.now }
    {
        match points.split_first() {
            Some((first, others)) => others
                .iter()
                .fold(Box3D::new(*first, *first), |mut outer, p| {
                    outer.grow(*p);
                    outer
                }),
            None => Box3D::zero(),
        }
    }
}
