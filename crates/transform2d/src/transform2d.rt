// Transforms of the plane.
ghost use Rattle.std.specs.Prelude.{◌≡◌, not, ◌&&◌};
ghost use Rattle.geometry.specs.Boxes.{box_rect, rect_box};
ghost use Rattle.transform2d.specs.Flats.{flat, flat_identity, flat_translation, flat_scale, flat_then, flat_pre_scale, flat_eq, flat_det, flat_inverse, flat_point, flat_vector, flat_box, re_tagged};
ghost use Rattle.transform2d.specs.Widened.{solid_of, scale_offset_of};

use crate::types::{ScaleOffset2D, Transform2D};
use geometry::types::{Box2D, Point2D, Rect, Vector2D};
use geometry::unit::UnknownUnit;
use scalar::{Ordered, Scalar, Tag};
use sums::{Row, cross};
use transform3d::types::Transform3D;

impl<T, Src: Tag, Dst: Tag> Transform2D<T, Src, Dst> {
    pub fn new(m11: T, m12: T, m21: T, m22: T, m31: T, m32: T) -> Transform2D<T, Src, Dst>
        ensures { result ≡ flat m11 m12 m21 m22 m31 m32 Src.label Dst.label }
    {
        Transform2D {
            m11,
            m12,
            m21,
            m22,
            m31,
            m32,
            src: Src::tag(),
            dst: Dst::tag(),
        }
    }
}

impl<T: Scalar, Src: Tag, Dst: Tag> Transform2D<T, Src, Dst> {
    pub fn identity() -> Transform2D<T, Src, Dst>
        ensures { result ≡ flat_identity T.ops Src.label Dst.label }
    {
        Transform2D::translation(T::zero(), T::zero())
    }

    pub fn translation(x: T, y: T) -> Transform2D<T, Src, Dst>
        ensures { result ≡ flat_translation T.ops x y Src.label Dst.label }
    {
        let (zero, one) = (T::zero(), T::one());
        Transform2D::new(one, zero, zero, one, x, y)
    }

    pub fn scale(x: T, y: T) -> Transform2D<T, Src, Dst>
        ensures { result ≡ flat_scale T.ops x y Src.label Dst.label }
    {
        let zero = T::zero();
        Transform2D::new(x, zero, zero, y, zero, zero)
    }
}

impl<T: Scalar, Src: Copy, Dst: Tag> Transform2D<T, Src, Dst> {
    // This transform, and a translation by `v` after it.
    pub fn then_translate(&self, v: Vector2D<T, Dst>) -> Transform2D<T, Src, Dst>
        ensures { result ≡ flat_then T.ops self.now (flat_translation T.ops v.x v.y Dst.label Dst.label) }
    {
        self.then(&Transform2D::<T, Dst, Dst>::translation(v.x, v.y))
    }

    // This transform, and a scale after it.
    pub fn then_scale(&self, x: T, y: T) -> Transform2D<T, Src, Dst>
        ensures { result ≡ flat_then T.ops self.now (flat_scale T.ops x y Dst.label Dst.label) }
    {
        self.then(&Transform2D::<T, Dst, Dst>::scale(x, y))
    }
}

impl<T: Scalar, Src: Tag, Dst: Copy> Transform2D<T, Src, Dst> {
    // A translation by `v`, and this transform after it.
    pub fn pre_translate(&self, v: Vector2D<T, Src>) -> Transform2D<T, Src, Dst>
        ensures { result ≡ flat_then T.ops (flat_translation T.ops v.x v.y Src.label Src.label) self.now }
    {
        Transform2D::<T, Src, Src>::translation(v.x, v.y).then(self)
    }
}

impl<T: Scalar, Src: Copy, Dst: Copy> Transform2D<T, Src, Dst> {
    // This transform, and `mat` after it.
    pub fn then<NewDst: Copy>(
        &self,
        mat: &Transform2D<T, Dst, NewDst>,
    ) -> Transform2D<T, Src, NewDst>
        ensures { result ≡ flat_then T.ops self.now mat.now }
    {
        let (a, b, c) = (
            (self.m11, self.m12),
            (self.m21, self.m22),
            (self.m31, self.m32),
        );
        let column1 = (mat.m11, mat.m21);
        let column2 = (mat.m12, mat.m22);
        Transform2D {
            m11: a.dot(column1),
            m12: a.dot(column2),
            m21: b.dot(column1),
            m22: b.dot(column2),
            m31: c.affine(column1, mat.m31),
            m32: c.affine(column2, mat.m32),
            src: self.src,
            dst: mat.dst,
        }
    }

    // The same transform, of space.
    pub fn to_3d(&self) -> Transform3D<T, Src, Dst>
        ensures { result ≡ solid_of T.ops self.now }
    {
        let (zero, one) = (T::zero(), T::one());
        let rows = (
            (self.m11, self.m12, zero, zero),
            (self.m21, self.m22, zero, zero),
            (zero, zero, one, zero),
            (self.m31, self.m32, zero, one),
        );
        Transform3D::from_rows(rows, self.src, self.dst)
    }

    // A scale, and this transform after it.
    pub fn pre_scale(&self, x: T, y: T) -> Transform2D<T, Src, Dst>
        ensures { result ≡ flat_pre_scale T.ops self.now x y }
    {
        Transform2D {
            m11: self.m11.mul(x),
            m12: self.m12.mul(x),
            m21: self.m21.mul(y),
            m22: self.m22.mul(y),
            ..*self
        }
    }

    // Not `PartialEq`, which would ask every scalar that its equality is symmetric and transitive.
    pub fn eq(&self, other: &Transform2D<T, Src, Dst>) -> bool
        ensures { result ≡ flat_eq T.ops self.now other.now }
    {
        self.m11.eq(other.m11)
            && self.m12.eq(other.m12)
            && self.m21.eq(other.m21)
            && self.m22.eq(other.m22)
            && self.m31.eq(other.m31)
            && self.m32.eq(other.m32)
    }

    pub fn determinant(&self) -> T
        ensures { result ≡ flat_det T.ops self.now }
    {
        cross(self.m11, self.m22, self.m12, self.m21)
    }

    pub fn is_invertible(&self) -> bool
        ensures { result ≡ not (T.ops.eq (flat_det T.ops self.now) T.ops.zero) }
    {
        !self.determinant().eq(T::zero())
    }

    // The transform back, or None where the determinant equals zero.
    pub fn inverse(&self) -> Option<Transform2D<T, Dst, Src>>
        ensures { result ≡ flat_inverse T.ops self.now }
    {
        let det = self.determinant();
        let zero = T::zero();
        if det.eq(zero) {
            return None;
        }
        let inv_det = T::one().div(det);
        Some(Transform2D {
            m11: inv_det.mul(self.m22),
            m12: inv_det.mul(zero.sub(self.m12)),
            m21: inv_det.mul(zero.sub(self.m21)),
            m22: inv_det.mul(self.m11),
            m31: inv_det.mul(cross(self.m21, self.m32, self.m22, self.m31)),
            m32: inv_det.mul(cross(self.m31, self.m12, self.m11, self.m32)),
            src: self.dst,
            dst: self.src,
        })
    }

    pub fn transform_point(&self, p: Point2D<T, Src>) -> Point2D<T, Dst>
        ensures { result ≡ flat_point T.ops self.now p }
    {
        let row = (p.x, p.y);
        Point2D {
            x: row.affine((self.m11, self.m21), self.m31),
            y: row.affine((self.m12, self.m22), self.m32),
            unit: self.dst,
        }
    }

    pub fn transform_vector(&self, v: Vector2D<T, Src>) -> Vector2D<T, Dst>
        ensures { result ≡ flat_vector T.ops self.now v }
    {
        let row = (v.x, v.y);
        Vector2D {
            x: row.dot((self.m11, self.m21)),
            y: row.dot((self.m12, self.m22)),
            unit: self.dst,
        }
    }
}

impl<T: Ordered, Src: Copy, Dst: Copy> Transform2D<T, Src, Dst> {
    // Whether, up to `epsilon`, this scales and moves and does nothing else.
    pub fn is_scale_offset_eps(&self, epsilon: T) -> bool
        ensures { result ≡ (T.less (T.absolute self.now.m12) epsilon && T.less (T.absolute self.now.m21) epsilon) }
    {
        self.m12.abs().lt(epsilon) && self.m21.abs().lt(epsilon)
    }

    // The box of the images of the four corners.
    pub fn outer_transformed_box(&self, b: &Box2D<T, Src>) -> Box2D<T, Dst>
        ensures { result ≡ flat_box T.ops T.less self.now b.now }
    {
        let first = self.transform_point(b.min);
        let mut outer = Box2D::new(first, first);
        outer.grow(self.transform_point(b.max));
        outer.grow(self.transform_point(Point2D {
            x: b.max.x,
            ..b.min
        }));
        outer.grow(self.transform_point(Point2D {
            y: b.max.y,
            ..b.min
        }));
        outer
    }

    // The rectangle of the images of the four corners.
    pub fn outer_transformed_rect(&self, rect: &Rect<T, Src>) -> Rect<T, Dst>
        ensures { result ≡ box_rect T.ops (flat_box T.ops T.less self.now (rect_box T.ops rect.now)) }
    {
        self.outer_transformed_box(&rect.to_box2d()).to_rect()
    }
}

impl<T: Copy, Src: Copy, Dst: Copy> Transform2D<T, Src, Dst> {
    // The scales and the offset, whatever the other two entries are.
    pub fn to_scale_offset(&self) -> ScaleOffset2D<T, Src, Dst>
        ensures { result ≡ scale_offset_of self.now }
    {
        ScaleOffset2D {
            sx: self.m11,
            sy: self.m22,
            tx: self.m31,
            ty: self.m32,
            src: self.src,
            dst: self.dst,
        }
    }

    // The same numbers between other spaces. Each transform has this and its four callers itself: no associated type has parameters, so a trait would be longer, and callers would have to import it.
    fn between<A, B>(&self, src: A, dst: B) -> Transform2D<T, A, B>
        ensures { result ≡ re_tagged self.now src dst }
    {
        Transform2D {
            m11: self.m11,
            m12: self.m12,
            m21: self.m21,
            m22: self.m22,
            m31: self.m31,
            m32: self.m32,
            src,
            dst,
        }
    }

    pub fn with_source<NewSrc: Tag>(&self) -> Transform2D<T, NewSrc, Dst>
        ensures { result ≡ re_tagged self.now NewSrc.label self.now.dst }
    {
        self.between(NewSrc::tag(), self.dst)
    }

    pub fn with_destination<NewDst: Tag>(&self) -> Transform2D<T, Src, NewDst>
        ensures { result ≡ re_tagged self.now self.now.src NewDst.label }
    {
        self.between(self.src, NewDst::tag())
    }

    pub fn to_untyped(&self) -> Transform2D<T, UnknownUnit, UnknownUnit>
        ensures { result ≡ re_tagged self.now (record {}) (record {}) }
    {
        self.between(UnknownUnit, UnknownUnit)
    }
}

impl<T: Copy, Src: Tag, Dst: Tag> Transform2D<T, Src, Dst> {
    pub fn from_untyped(p: &Transform2D<T, UnknownUnit, UnknownUnit>) -> Transform2D<T, Src, Dst>
        ensures { result ≡ re_tagged p.now Src.label Dst.label }
    {
        p.between(Src::tag(), Dst::tag())
    }
}
