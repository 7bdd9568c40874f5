// Vectors of the plane and of space.
ghost use Rattle.std.specs.Prelude.{◌≡◌};
ghost use Rattle.geometry.specs.Points.{vec2 as vec2_of, vec3 as vec3_of, size2, eq_vectors2, eq_vectors3};

use crate::types::{Size2D, Vector2D, Vector3D};
use scalar::{Scalar, Tag};

impl<T, U: Tag> Vector2D<T, U> {
    pub fn new(x: T, y: T) -> Vector2D<T, U>
        ensures { result ≡ vec2_of x y U.label }
    {
        Vector2D {
            x,
            y,
            unit: U::tag(),
        }
    }
}

// Shorthand for `Vector2D::new`.
pub fn vec2<T, U: Tag>(x: T, y: T) -> Vector2D<T, U>
    ensures { result ≡ vec2_of x y U.label }
{
    Vector2D::new(x, y)
}

impl<T: Copy, U: Copy> Vector2D<T, U> {
    pub fn to_size(self) -> Size2D<T, U>
        ensures { result ≡ size2 self.x self.y self.unit }
    {
        Size2D {
            width: self.x,
            height: self.y,
            unit: self.unit,
        }
    }
}

impl<T: Scalar, U: Copy> Vector2D<T, U> {
    // Not PartialEq, which would ask for laws of the scalar's equality.
    pub fn eq(&self, other: &Vector2D<T, U>) -> bool
        ensures { result ≡ eq_vectors2 T.ops self.now other.now }
    {
        self.x.eq(other.x) && self.y.eq(other.y)
    }
}

impl<T, U: Tag> Vector3D<T, U> {
    pub fn new(x: T, y: T, z: T) -> Vector3D<T, U>
        ensures { result ≡ vec3_of x y z U.label }
    {
        Vector3D {
            x,
            y,
            z,
            unit: U::tag(),
        }
    }
}

// Shorthand for `Vector3D::new`.
pub fn vec3<T, U: Tag>(x: T, y: T, z: T) -> Vector3D<T, U>
    ensures { result ≡ vec3_of x y z U.label }
{
    Vector3D::new(x, y, z)
}

impl<T: Scalar, U: Copy> Vector3D<T, U> {
    // Not PartialEq, which would ask for laws of the scalar's equality.
    pub fn eq(&self, other: &Vector3D<T, U>) -> bool
        ensures { result ≡ eq_vectors3 T.ops self.now other.now }
    {
        self.x.eq(other.x) && self.y.eq(other.y) && self.z.eq(other.z)
    }
}
