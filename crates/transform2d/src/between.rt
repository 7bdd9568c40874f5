// Between the three kinds of transform.
ghost use Rattle.std.specs.Prelude.{◌≡◌, Some};
ghost use Rattle.transform2d.specs.declared.types.ScaleOffset2D.{ScaleOffset2D};
ghost use Rattle.transform2d.specs.declared.types.Transform2D.{Transform2D};
ghost use Rattle.transform2d.specs.Widened.{flat_of, solid_of, solid_of_scale_offset, flat_part, scale_offset_part};

use crate::types::{ScaleOffset2D, Transform2D};
use scalar::Scalar;
use transform3d::types::Transform3D;

impl<T: Scalar, Src: Copy, Dst: Copy> ScaleOffset2D<T, Src, Dst> {
    pub fn to_transform2d(&self) -> Transform2D<T, Src, Dst>
        ensures { result ≡ flat_of T.ops self.now }
    {
        Transform2D {
            m11: self.sx,
            m12: T::zero(),
            m21: T::zero(),
            m22: self.sy,
            m31: self.tx,
            m32: self.ty,
            src: self.src,
            dst: self.dst,
        }
    }

    pub fn to_transform3d(&self) -> Transform3D<T, Src, Dst>
        ensures { result ≡ solid_of_scale_offset T.ops self.now }
    {
        self.to_transform2d().to_3d()
    }
}

impl<T: Scalar, Src: Copy, Dst: Copy> From<ScaleOffset2D<T, Src, Dst>>
    for Transform2D<T, Src, Dst> {
    ghost from_gives = { λ m r. r ≡ flat_of T.ops m };

    fn from(m: ScaleOffset2D<T, Src, Dst>) -> Transform2D<T, Src, Dst> {
        m.to_transform2d()
    }
}

impl<T: Scalar, Src: Copy, Dst: Copy> From<Transform2D<T, Src, Dst>> for Transform3D<T, Src, Dst> {
    ghost from_gives = { λ m r. r ≡ solid_of T.ops m };

    fn from(m: Transform2D<T, Src, Dst>) -> Transform3D<T, Src, Dst> {
        m.to_3d()
    }
}

// What a transform of space keeps of the plane. It stands here, and not with Transform3D, since its answers are of this crate.
pub trait Planar<T, Src, Dst> {
    ghost plane: { Self → Transform2D T Src Dst };

    ghost axes: { Self → ScaleOffset2D T Src Dst };

    // The entries of a transform of the plane, whatever the others are.
    fn to_2d(&self) -> Transform2D<T, Src, Dst>
        ensures { result ≡ plane self.now };

    // The scales and the offset, whatever the other entries are.
    fn to_scale_offset2d(&self) -> Option<ScaleOffset2D<T, Src, Dst>>
        ensures { result ≡ Some (axes self.now) };
}

impl<T: Copy, Src: Copy, Dst: Copy> Planar<T, Src, Dst> for Transform3D<T, Src, Dst> {
    ghost plane = { flat_part };

    ghost axes = { scale_offset_part };

    fn to_2d(&self) -> Transform2D<T, Src, Dst> {
        Transform2D {
            m11: self.m11,
            m12: self.m12,
            m21: self.m21,
            m22: self.m22,
            m31: self.m41,
            m32: self.m42,
            src: self.src,
            dst: self.dst,
        }
    }

    fn to_scale_offset2d(&self) -> Option<ScaleOffset2D<T, Src, Dst>> {
        Some(ScaleOffset2D {
            sx: self.m11,
            sy: self.m22,
            tx: self.m41,
            ty: self.m42,
            src: self.src,
            dst: self.dst,
        })
    }
}
