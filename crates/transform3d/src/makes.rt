// How transforms of space are made, and moved between spaces.
ghost use Rattle.std.specs.Prelude.{◌≡◌};
ghost use Rattle.transform3d.specs.Solids.{solid, solid_of_rows, rows_of, solid_2d, solid_identity, solid_translation, solid_scale, solid_perspective, solid_ortho, re_tagged};

use crate::types::{Rows, Transform3D};
use geometry::unit::UnknownUnit;
use scalar::{Scalar, Tag};

impl<T, Src, Dst> Transform3D<T, Src, Dst> {
    // The transform with these rows, from the space of `src` to that of `dst`.
    pub fn from_rows(rows: Rows<T>, src: Src, dst: Dst) -> Transform3D<T, Src, Dst>
        ensures { result ≡ solid_of_rows rows src dst }
    {
        let (
            (m11, m12, m13, m14),
            (m21, m22, m23, m24),
            (m31, m32, m33, m34),
            (m41, m42, m43, m44),
        ) = rows;
        Transform3D {
            m11,
            m12,
            m13,
            m14,
            m21,
            m22,
            m23,
            m24,
            m31,
            m32,
            m33,
            m34,
            m41,
            m42,
            m43,
            m44,
            src,
            dst,
        }
    }
}

impl<T: Copy, Src, Dst> Transform3D<T, Src, Dst> {
    pub(crate) fn rows(&self) -> Rows<T>
        ensures { result ≡ rows_of self.now }
    {
        (
            (self.m11, self.m12, self.m13, self.m14),
            (self.m21, self.m22, self.m23, self.m24),
            (self.m31, self.m32, self.m33, self.m34),
            (self.m41, self.m42, self.m43, self.m44),
        )
    }
}

impl<T, Src: Tag, Dst: Tag> Transform3D<T, Src, Dst> {
    pub fn new(
        m11: T,
        m12: T,
        m13: T,
        m14: T,
        m21: T,
        m22: T,
        m23: T,
        m24: T,
        m31: T,
        m32: T,
        m33: T,
        m34: T,
        m41: T,
        m42: T,
        m43: T,
        m44: T,
    ) -> Transform3D<T, Src, Dst>
        ensures { result ≡ solid m11 m12 m13 m14 m21 m22 m23 m24 m31 m32 m33 m34 m41 m42 m43 m44 Src.label Dst.label }
    {
        let rows = (
            (m11, m12, m13, m14),
            (m21, m22, m23, m24),
            (m31, m32, m33, m34),
            (m41, m42, m43, m44),
        );
        Transform3D::from_rows(rows, Src::tag(), Dst::tag())
    }
}

impl<T: Scalar, Src: Tag, Dst: Tag> Transform3D<T, Src, Dst> {
    // A transform of the plane.
    pub fn new_2d(m11: T, m12: T, m21: T, m22: T, m41: T, m42: T) -> Transform3D<T, Src, Dst>
        ensures { result ≡ solid_2d T.ops m11 m12 m21 m22 m41 m42 Src.label Dst.label }
    {
        let (zero, one) = (T::zero(), T::one());
        let rows = (
            (m11, m12, zero, zero),
            (m21, m22, zero, zero),
            (zero, zero, one, zero),
            (m41, m42, zero, one),
        );
        Transform3D::from_rows(rows, Src::tag(), Dst::tag())
    }

    pub fn identity() -> Transform3D<T, Src, Dst>
        ensures { result ≡ solid_identity T.ops Src.label Dst.label }
    {
        Transform3D::translation(T::zero(), T::zero(), T::zero())
    }

    pub fn translation(x: T, y: T, z: T) -> Transform3D<T, Src, Dst>
        ensures { result ≡ solid_translation T.ops x y z Src.label Dst.label }
    {
        let (zero, one) = (T::zero(), T::one());
        let rows = (
            (one, zero, zero, zero),
            (zero, one, zero, zero),
            (zero, zero, one, zero),
            (x, y, z, one),
        );
        Transform3D::from_rows(rows, Src::tag(), Dst::tag())
    }

    pub fn scale(x: T, y: T, z: T) -> Transform3D<T, Src, Dst>
        ensures { result ≡ solid_scale T.ops x y z Src.label Dst.label }
    {
        let (zero, one) = (T::zero(), T::one());
        let rows = (
            (x, zero, zero, zero),
            (zero, y, zero, zero),
            (zero, zero, z, zero),
            (zero, zero, zero, one),
        );
        Transform3D::from_rows(rows, Src::tag(), Dst::tag())
    }

    // The view from the distance `d` above the plane z = 0, which stays where it is.
    pub fn perspective(d: T) -> Transform3D<T, Src, Dst>
        ensures { result ≡ solid_perspective T.ops d Src.label Dst.label }
    {
        let (zero, one) = (T::zero(), T::one());
        let rows = (
            (one, zero, zero, zero),
            (zero, one, zero, zero),
            (zero, zero, one, one.neg().div(d)),
            (zero, zero, zero, one),
        );
        Transform3D::from_rows(rows, Src::tag(), Dst::tag())
    }

    // The view without perspective of the box between the given sides.
    pub fn ortho(left: T, right: T, bottom: T, top: T, near: T, far: T) -> Transform3D<T, Src, Dst>
        ensures { result ≡ solid_ortho T.ops left right bottom top near far Src.label Dst.label }
    {
        let (zero, one) = (T::zero(), T::one());
        let two = one.add(one);
        let tx = right.add(left).div(right.sub(left)).neg();
        let ty = top.add(bottom).div(top.sub(bottom)).neg();
        let tz = far.add(near).div(far.sub(near)).neg();
        let sx = two.div(right.sub(left));
        let sy = two.div(top.sub(bottom));
        let sz = two.neg().div(far.sub(near));
        let rows = (
            (sx, zero, zero, zero),
            (zero, sy, zero, zero),
            (zero, zero, sz, zero),
            (tx, ty, tz, one),
        );
        Transform3D::from_rows(rows, Src::tag(), Dst::tag())
    }
}

impl<T: Copy, Src: Copy, Dst: Copy> Transform3D<T, Src, Dst> {
    // The same numbers between other spaces. Each transform has this and its four callers itself: no associated type has parameters, so a trait would be longer, and callers would have to import it.
    fn between<A, B>(&self, src: A, dst: B) -> Transform3D<T, A, B>
        ensures { result ≡ re_tagged self.now src dst }
    {
        Transform3D::from_rows(self.rows(), src, dst)
    }

    pub fn with_source<NewSrc: Tag>(&self) -> Transform3D<T, NewSrc, Dst>
        ensures { result ≡ re_tagged self.now NewSrc.label self.now.dst }
    {
        self.between(NewSrc::tag(), self.dst)
    }

    pub fn with_destination<NewDst: Tag>(&self) -> Transform3D<T, Src, NewDst>
        ensures { result ≡ re_tagged self.now self.now.src NewDst.label }
    {
        self.between(self.src, NewDst::tag())
    }

    pub fn to_untyped(&self) -> Transform3D<T, UnknownUnit, UnknownUnit>
        ensures { result ≡ re_tagged self.now (record {}) (record {}) }
    {
        self.between(UnknownUnit, UnknownUnit)
    }
}

impl<T: Copy, Src: Tag, Dst: Tag> Transform3D<T, Src, Dst> {
    pub fn from_untyped(m: &Transform3D<T, UnknownUnit, UnknownUnit>) -> Transform3D<T, Src, Dst>
        ensures { result ≡ re_tagged m.now Src.label Dst.label }
    {
        m.between(Src::tag(), Dst::tag())
    }
}
