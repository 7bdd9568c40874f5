// Points of the plane and of space.
ghost use Rattle.std.specs.Prelude.{◌≡◌};
ghost use Rattle.geometry.specs.Points.{point2 as point2_of, point3 as point3_of, origin2, origin3, point_add, point_sub, eq_points2, eq_points3};

use crate::types::{Point2D, Point3D, Size2D, Vector2D};
use scalar::{Scalar, Tag};

impl<T, U: Tag> Point2D<T, U> {
    pub fn new(x: T, y: T) -> Point2D<T, U>
        ensures { result ≡ point2_of x y U.label }
    {
        Point2D {
            x,
            y,
            unit: U::tag(),
        }
    }
}

// Shorthand for `Point2D::new`.
pub fn point2<T, U: Tag>(x: T, y: T) -> Point2D<T, U>
    ensures { result ≡ point2_of x y U.label }
{
    Point2D::new(x, y)
}

impl<T: Scalar, U: Tag> Point2D<T, U> {
    pub fn origin() -> Point2D<T, U>
        ensures { result ≡ origin2 T.ops U.label }
    {
        point2(T::zero(), T::zero())
    }

    // The same as `origin`.
    pub fn zero() -> Point2D<T, U>
        ensures { result ≡ origin2 T.ops U.label }
    {
        Point2D::origin()
    }
}

impl<T: Copy, U: Copy> Point2D<T, U> {
    pub fn to_tuple(self) -> (T, T)
        ensures { result ≡ (self.x, self.y) }
    {
        (self.x, self.y)
    }
}

impl<T: Scalar, U: Copy> Point2D<T, U> {
    // The point moved by `size`.
    pub fn add(self, size: Size2D<T, U>) -> Point2D<T, U>
        ensures { result ≡ point_add T.ops self size }
    {
        Point2D {
            x: self.x.add(size.width),
            y: self.y.add(size.height),
            unit: self.unit,
        }
    }

    // The vector from `other` to this point.
    pub fn sub(self, other: Point2D<T, U>) -> Vector2D<T, U>
        ensures { result ≡ point_sub T.ops self other }
    {
        Vector2D {
            x: self.x.sub(other.x),
            y: self.y.sub(other.y),
            unit: self.unit,
        }
    }

    // Not PartialEq, which would ask for laws of the scalar's equality.
    pub fn eq(&self, other: &Point2D<T, U>) -> bool
        ensures { result ≡ eq_points2 T.ops self.now other.now }
    {
        self.x.eq(other.x) && self.y.eq(other.y)
    }
}

impl<T, U: Tag> Point3D<T, U> {
    pub fn new(x: T, y: T, z: T) -> Point3D<T, U>
        ensures { result ≡ point3_of x y z U.label }
    {
        Point3D {
            x,
            y,
            z,
            unit: U::tag(),
        }
    }
}

// Shorthand for `Point3D::new`.
pub fn point3<T, U: Tag>(x: T, y: T, z: T) -> Point3D<T, U>
    ensures { result ≡ point3_of x y z U.label }
{
    Point3D::new(x, y, z)
}

impl<T: Scalar, U: Tag> Point3D<T, U> {
    pub fn origin() -> Point3D<T, U>
        ensures { result ≡ origin3 T.ops U.label }
    {
        point3(T::zero(), T::zero(), T::zero())
    }

    // The same as `origin`.
    pub fn zero() -> Point3D<T, U>
        ensures { result ≡ origin3 T.ops U.label }
    {
        Point3D::origin()
    }
}

impl<T: Copy, U: Copy> Point3D<T, U> {
    pub fn to_tuple(self) -> (T, T, T)
        ensures { result ≡ (self.x, self.y, self.z) }
    {
        (self.x, self.y, self.z)
    }
}

impl<T: Scalar, U: Copy> Point3D<T, U> {
    // Not PartialEq, which would ask for laws of the scalar's equality.
    pub fn eq(&self, other: &Point3D<T, U>) -> bool
        ensures { result ≡ eq_points3 T.ops self.now other.now }
    {
        self.x.eq(other.x) && self.y.eq(other.y) && self.z.eq(other.z)
    }
}
