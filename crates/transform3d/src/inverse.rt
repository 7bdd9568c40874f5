// Determinants and inverses of transforms of space.
ghost use Rattle.std.specs.Prelude.{◌≡◌, not};
ghost use Rattle.transform3d.specs.Solids.{solid_det, solid_adjugate, solid_inverse};

use crate::types::Transform3D;
use scalar::{Ordered, Scalar};
use sums::{add4, even, less4, odd, prod4};

impl<T: Scalar, Src: Copy, Dst: Copy> Transform3D<T, Src, Dst> {
    pub fn determinant(&self) -> T
        ensures { result ≡ solid_det T.ops self.now }
    {
        let (
            (m11, m12, m13, m14),
            (m21, m22, m23, m24),
            (m31, m32, m33, m34),
            (m41, m42, m43, m44),
        ) = self.rows();
        let t = prod4(m14, m23, m32, m41);
        let t = less4(t, m13, m24, m32, m41);
        let t = less4(t, m14, m22, m33, m41);
        let t = add4(t, m12, m24, m33, m41);
        let t = add4(t, m13, m22, m34, m41);
        let t = less4(t, m12, m23, m34, m41);
        let t = less4(t, m14, m23, m31, m42);
        let t = add4(t, m13, m24, m31, m42);
        let t = add4(t, m14, m21, m33, m42);
        let t = less4(t, m11, m24, m33, m42);
        let t = less4(t, m13, m21, m34, m42);
        let t = add4(t, m11, m23, m34, m42);
        let t = add4(t, m14, m22, m31, m43);
        let t = less4(t, m12, m24, m31, m43);
        let t = less4(t, m14, m21, m32, m43);
        let t = add4(t, m11, m24, m32, m43);
        let t = add4(t, m12, m21, m34, m43);
        let t = less4(t, m11, m22, m34, m43);
        let t = less4(t, m13, m22, m31, m44);
        let t = add4(t, m12, m23, m31, m44);
        let t = add4(t, m13, m21, m32, m44);
        let t = less4(t, m11, m23, m32, m44);
        let t = less4(t, m12, m21, m33, m44);
        add4(t, m11, m22, m33, m44)
    }

    // At each place the determinant without that column and that row, with the sign of the place.
    fn adjugate(&self) -> Transform3D<T, Dst, Src>
        ensures { result ≡ solid_adjugate T.ops self.now }
    {
        let (
            (m11, m12, m13, m14),
            (m21, m22, m23, m24),
            (m31, m32, m33, m34),
            (m41, m42, m43, m44),
        ) = self.rows();
        Transform3D {
            m11: even((m22, m23, m24), (m32, m33, m34), (m42, m43, m44)),
            m12: odd((m12, m13, m14), (m32, m33, m34), (m42, m43, m44)),
            m13: even((m12, m13, m14), (m22, m23, m24), (m42, m43, m44)),
            m14: odd((m12, m13, m14), (m22, m23, m24), (m32, m33, m34)),
            m21: odd((m21, m23, m24), (m31, m33, m34), (m41, m43, m44)),
            m22: even((m11, m13, m14), (m31, m33, m34), (m41, m43, m44)),
            m23: odd((m11, m13, m14), (m21, m23, m24), (m41, m43, m44)),
            m24: even((m11, m13, m14), (m21, m23, m24), (m31, m33, m34)),
            m31: even((m21, m22, m24), (m31, m32, m34), (m41, m42, m44)),
            m32: odd((m11, m12, m14), (m31, m32, m34), (m41, m42, m44)),
            m33: even((m11, m12, m14), (m21, m22, m24), (m41, m42, m44)),
            m34: odd((m11, m12, m14), (m21, m22, m24), (m31, m32, m34)),
            m41: odd((m21, m22, m23), (m31, m32, m33), (m41, m42, m43)),
            m42: even((m11, m12, m13), (m31, m32, m33), (m41, m42, m43)),
            m43: odd((m11, m12, m13), (m21, m22, m23), (m41, m42, m43)),
            m44: even((m11, m12, m13), (m21, m22, m23), (m31, m32, m33)),
            src: self.dst,
            dst: self.src,
        }
    }

    pub fn is_invertible(&self) -> bool
        ensures { result ≡ not (T.ops.eq (solid_det T.ops self.now) T.ops.zero) }
    {
        !self.determinant().eq(T::zero())
    }

    // The transform back, or None where the determinant equals zero.
    pub fn inverse(&self) -> Option<Transform3D<T, Dst, Src>>
        ensures { result ≡ solid_inverse T.ops self.now }
    {
        let det = self.determinant();
        if det.eq(T::zero()) {
            return None;
        }
        Some(self.adjugate().mul_s(T::one().div(det)))
    }
}

impl<T: Ordered, Src: Copy, Dst: Copy> Transform3D<T, Src, Dst> {
    // Whether the plane z = 0 shows its back.
    pub fn is_backface_visible(&self) -> bool
        ensures { result ≡ T.less (T.ops.mul (solid_adjugate T.ops self.now).m33 (solid_det T.ops self.now)) T.ops.zero }
    {
        let det = self.determinant();
        let m33 = even(
            (self.m11, self.m12, self.m14),
            (self.m21, self.m22, self.m24),
            (self.m41, self.m42, self.m44),
        );
        m33.mul(det).lt(T::zero())
    }
}
