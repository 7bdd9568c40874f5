// Homogeneous vectors.
ghost use Rattle.std.specs.Prelude.{◌≡◌};
ghost use Rattle.geometry.specs.Points.{homogeneous, eq_homogeneous, cartesian2, cartesian3};

use crate::types::{HomogeneousVector, Point2D, Point3D, Vector2D, Vector3D};
use scalar::{Ordered, Scalar, Tag};

impl<T, U: Tag> HomogeneousVector<T, U> {
    pub fn new(x: T, y: T, z: T, w: T) -> HomogeneousVector<T, U>
        ensures { result ≡ homogeneous x y z w U.label }
    {
        HomogeneousVector {
            x,
            y,
            z,
            w,
            unit: U::tag(),
        }
    }
}

impl<T: Scalar, U: Copy> HomogeneousVector<T, U> {
    // Not PartialEq, which would ask for laws of the scalar's equality.
    pub fn eq(&self, other: &HomogeneousVector<T, U>) -> bool
        ensures { result ≡ eq_homogeneous T.ops self.now other.now }
    {
        self.x.eq(other.x) && self.y.eq(other.y) && self.z.eq(other.z) && self.w.eq(other.w)
    }
}

impl<T: Ordered, U: Copy> HomogeneousVector<T, U> {
    // The point of the plane, or None unless w is above zero.
    pub fn to_point2d(self) -> Option<Point2D<T, U>>
        ensures { result ≡ cartesian2 T.ops T.less self }
    {
        if T::zero().lt(self.w) {
            Some(Point2D {
                x: self.x.div(self.w),
                y: self.y.div(self.w),
                unit: self.unit,
            })
        } else {
            None
        }
    }

    // The point of space, or None unless w is above zero.
    pub fn to_point3d(self) -> Option<Point3D<T, U>>
        ensures { result ≡ cartesian3 T.ops T.less self }
    {
        if T::zero().lt(self.w) {
            Some(Point3D {
                x: self.x.div(self.w),
                y: self.y.div(self.w),
                z: self.z.div(self.w),
                unit: self.unit,
            })
        } else {
            None
        }
    }
}

impl<T: Scalar, U: Copy + Drop> From<Vector2D<T, U>> for HomogeneousVector<T, U> {
    ghost from_gives = { λ v r. r ≡ homogeneous v.x v.y T.ops.zero T.ops.zero v.unit };

    fn from(v: Vector2D<T, U>) -> HomogeneousVector<T, U> {
        HomogeneousVector {
            x: v.x,
            y: v.y,
            z: T::zero(),
            w: T::zero(),
            unit: v.unit,
        }
    }
}

impl<T: Scalar, U: Copy + Drop> From<Vector3D<T, U>> for HomogeneousVector<T, U> {
    ghost from_gives = { λ v r. r ≡ homogeneous v.x v.y v.z T.ops.zero v.unit };

    fn from(v: Vector3D<T, U>) -> HomogeneousVector<T, U> {
        HomogeneousVector {
            x: v.x,
            y: v.y,
            z: v.z,
            w: T::zero(),
            unit: v.unit,
        }
    }
}

impl<T: Scalar, U: Copy + Drop> From<Point2D<T, U>> for HomogeneousVector<T, U> {
    ghost from_gives = { λ p r. r ≡ homogeneous p.x p.y T.ops.zero T.ops.one p.unit };

    fn from(p: Point2D<T, U>) -> HomogeneousVector<T, U> {
        HomogeneousVector {
            x: p.x,
            y: p.y,
            z: T::zero(),
            w: T::one(),
            unit: p.unit,
        }
    }
}

impl<T: Scalar, U: Copy + Drop> From<Point3D<T, U>> for HomogeneousVector<T, U> {
    ghost from_gives = { λ p r. r ≡ homogeneous p.x p.y p.z T.ops.one p.unit };

    fn from(p: Point3D<T, U>) -> HomogeneousVector<T, U> {
        HomogeneousVector {
            x: p.x,
            y: p.y,
            z: p.z,
            w: T::one(),
            unit: p.unit,
        }
    }
}
