// Products of transforms of space, and questions about them.
ghost use Rattle.std.specs.Prelude.{◌≡◌, ◌∷◌, []};
ghost use Rattle.sums.specs.Sums.{dot as dot_of};
ghost use Rattle.transform3d.specs.Solids.{column1, column2, column3, column4, solid_translation, solid_scale, solid_then, solid_pre_scale, solid_times, solid_eq, is_2d, flattened, small3 as small3_of, is_scale_offset};

use crate::types::Transform3D;
use geometry::types::Vector3D;
use scalar::{Ordered, Scalar, Tag};
use sums::{Row, Row3, Row4, eq4};

impl<T: Scalar, Src: Tag, Dst: Copy> Transform3D<T, Src, Dst> {
    // A translation by `v`, and this transform after it.
    pub fn pre_translate(&self, v: Vector3D<T, Src>) -> Transform3D<T, Src, Dst>
        ensures { result ≡ solid_then T.ops (solid_translation T.ops v.x v.y v.z Src.label Src.label) self.now }
    {
        Transform3D::<T, Src, Src>::translation(v.x, v.y, v.z).then(self)
    }
}

impl<T: Scalar, Src: Copy, Dst: Tag> Transform3D<T, Src, Dst> {
    // This transform, and a translation by `v` after it.
    pub fn then_translate(&self, v: Vector3D<T, Dst>) -> Transform3D<T, Src, Dst>
        ensures { result ≡ solid_then T.ops self.now (solid_translation T.ops v.x v.y v.z Dst.label Dst.label) }
    {
        self.then(&Transform3D::<T, Dst, Dst>::translation(v.x, v.y, v.z))
    }

    // This transform, and a scale after it.
    pub fn then_scale(&self, x: T, y: T, z: T) -> Transform3D<T, Src, Dst>
        ensures { result ≡ solid_then T.ops self.now (solid_scale T.ops x y z Dst.label Dst.label) }
    {
        self.then(&Transform3D::<T, Dst, Dst>::scale(x, y, z))
    }
}

// The row (a1, a2, a3, a4) times the columns of `m`.
// Not a row, which was tried: LLVM then no longer sees the zeros and ones of a translation, and `pre_translate` over Residue runs 1.8 times as many instructions.
fn row_times<T: Scalar, Src: Copy, Dst: Copy>(
    a1: T,
    a2: T,
    a3: T,
    a4: T,
    m: &Transform3D<T, Src, Dst>,
) -> Row4<T>
    ensures { result ≡ (let r = a1 ∷ a2 ∷ a3 ∷ a4 ∷ [] in let q = m.now in (dot_of T.ops r (column1 q), dot_of T.ops r (column2 q), dot_of T.ops r (column3 q), dot_of T.ops r (column4 q))) }
{
    let row = (a1, a2, a3, a4);
    (
        row.dot((m.m11, m.m21, m.m31, m.m41)),
        row.dot((m.m12, m.m22, m.m32, m.m42)),
        row.dot((m.m13, m.m23, m.m33, m.m43)),
        row.dot((m.m14, m.m24, m.m34, m.m44)),
    )
}

// Each entry of a row times `x`.
fn scaled<T: Scalar>(row: Row4<T>, x: T) -> Row4<T>
    ensures { result ≡ (T.ops.mul row.0 x, T.ops.mul row.1 x, T.ops.mul row.2 x, T.ops.mul row.3 x) }
{
    (row.0.mul(x), row.1.mul(x), row.2.mul(x), row.3.mul(x))
}

impl<T: Scalar, Src: Copy, Dst: Copy> Transform3D<T, Src, Dst> {
    // This transform, and `other` after it.
    pub fn then<NewDst: Copy>(
        &self,
        other: &Transform3D<T, Dst, NewDst>,
    ) -> Transform3D<T, Src, NewDst>
        ensures { result ≡ solid_then T.ops self.now other.now }
    {
        let rows = (
            row_times(self.m11, self.m12, self.m13, self.m14, other),
            row_times(self.m21, self.m22, self.m23, self.m24, other),
            row_times(self.m31, self.m32, self.m33, self.m34, other),
            row_times(self.m41, self.m42, self.m43, self.m44, other),
        );
        Transform3D::from_rows(rows, self.src, other.dst)
    }

    // A scale, and this transform after it.
    pub fn pre_scale(&self, x: T, y: T, z: T) -> Transform3D<T, Src, Dst>
        ensures { result ≡ solid_pre_scale T.ops self.now x y z }
    {
        let (a, b, c, d) = self.rows();
        let rows = (scaled(a, x), scaled(b, y), scaled(c, z), d);
        Transform3D::from_rows(rows, self.src, self.dst)
    }

    // Every entry times `x`.
    pub fn mul_s(&self, x: T) -> Transform3D<T, Src, Dst>
        ensures { result ≡ solid_times T.ops self.now x }
    {
        let (a, b, c, d) = self.rows();
        let rows = (scaled(a, x), scaled(b, x), scaled(c, x), scaled(d, x));
        Transform3D::from_rows(rows, self.src, self.dst)
    }

    // Not `PartialEq`, which would ask every scalar that its equality is symmetric and transitive.
    pub fn eq(&self, other: &Transform3D<T, Src, Dst>) -> bool
        ensures { result ≡ solid_eq T.ops self.now other.now }
    {
        let (a1, a2, a3, a4) = self.rows();
        let (b1, b2, b3, b4) = other.rows();
        eq4(a1, b1) && eq4(a2, b2) && eq4(a3, b3) && eq4(a4, b4)
    }

    // Whether this is a transform of the plane.
    pub fn is_2d(&self) -> bool
        ensures { result ≡ is_2d T.ops self.now }
    {
        self.m31.eq(T::zero())
            && self.m32.eq(T::zero())
            && self.m13.eq(T::zero())
            && self.m23.eq(T::zero())
            && self.m43.eq(T::zero())
            && self.m14.eq(T::zero())
            && self.m24.eq(T::zero())
            && self.m34.eq(T::zero())
            && self.m33.eq(T::one())
            && self.m44.eq(T::one())
    }

    // The transform of the plane that is seen along the z axis.
    pub fn project_to_2d(&self) -> Transform3D<T, Src, Dst>
        ensures { result ≡ flattened T.ops self.now }
    {
        let mut result = *self;
        result.m31 = T::zero();
        result.m32 = T::zero();
        result.m13 = T::zero();
        result.m23 = T::zero();
        result.m33 = T::one();
        result.m43 = T::zero();
        result.m34 = T::zero();
        if self.m14.eq(T::zero())
            && self.m24.eq(T::zero())
            && !self.m44.eq(T::zero())
            && !self.m44.eq(T::one())
        {
            let scale = T::one().div(self.m44);
            result.m11 = result.m11.mul(scale);
            result.m12 = result.m12.mul(scale);
            result.m21 = result.m21.mul(scale);
            result.m22 = result.m22.mul(scale);
            result.m41 = result.m41.mul(scale);
            result.m42 = result.m42.mul(scale);
            result.m44 = T::one();
        }
        result
    }
}

// Whether the absolute values of three numbers are below `epsilon`.
fn small3<T: Ordered>(row: Row3<T>, epsilon: T) -> bool
    ensures { result ≡ small3_of T.less T.absolute row epsilon }
{
    row.0.abs().lt(epsilon) && row.1.abs().lt(epsilon) && row.2.abs().lt(epsilon)
}

impl<T: Ordered, Src: Copy, Dst: Copy> Transform3D<T, Src, Dst> {
    // Whether, up to `epsilon`, this scales and moves the plane and does nothing else.
    pub fn is_scale_offset_2d_eps(&self, epsilon: T) -> bool
        ensures { result ≡ is_scale_offset T.ops T.less T.absolute self.now epsilon }
    {
        small3((self.m12, self.m13, self.m14), epsilon)
            && small3((self.m21, self.m23, self.m24), epsilon)
            && small3((self.m31, self.m32, self.m33.sub(T::one())), epsilon)
            && small3((self.m34, self.m43, self.m44.sub(T::one())), epsilon)
    }
}
