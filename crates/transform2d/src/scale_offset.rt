// Scale-offsets of the plane.
ghost use Rattle.std.specs.Prelude.{◌≡◌, ◌&&◌};
ghost use Rattle.geometry.specs.Boxes.{box_rect, rect_box};
ghost use Rattle.transform2d.specs.ScaleOffsets.{scale_offset, scale_offset_point, scale_offset_vector, scale_offset_box, scale_offset_then, scale_offset_eq, scale_offset_inverse, usable, re_tagged};

use crate::types::ScaleOffset2D;
use geometry::types::{Box2D, Point2D, Rect, Vector2D};
use geometry::unit::UnknownUnit;
use scalar::{Ordered, Scalar, Tag};

impl<T, Src: Tag, Dst: Tag> ScaleOffset2D<T, Src, Dst> {
    pub fn new(sx: T, sy: T, tx: T, ty: T) -> ScaleOffset2D<T, Src, Dst>
        ensures { result ≡ scale_offset sx sy tx ty Src.label Dst.label }
    {
        ScaleOffset2D {
            sx,
            sy,
            tx,
            ty,
            src: Src::tag(),
            dst: Dst::tag(),
        }
    }
}

impl<T: Scalar, Src: Tag, Dst: Tag> ScaleOffset2D<T, Src, Dst> {
    pub fn identity() -> ScaleOffset2D<T, Src, Dst>
        ensures { result ≡ scale_offset T.ops.one T.ops.one T.ops.zero T.ops.zero Src.label Dst.label }
    {
        ScaleOffset2D::new(T::one(), T::one(), T::zero(), T::zero())
    }

    pub fn scale(sx: T, sy: T) -> ScaleOffset2D<T, Src, Dst>
        ensures { result ≡ scale_offset sx sy T.ops.zero T.ops.zero Src.label Dst.label }
    {
        ScaleOffset2D::new(sx, sy, T::zero(), T::zero())
    }

    pub fn offset(tx: T, ty: T) -> ScaleOffset2D<T, Src, Dst>
        ensures { result ≡ scale_offset T.ops.one T.ops.one tx ty Src.label Dst.label }
    {
        ScaleOffset2D::new(T::one(), T::one(), tx, ty)
    }
}

impl<T: Scalar, Src: Copy, Dst: Copy> ScaleOffset2D<T, Src, Dst> {
    pub fn transform_point(&self, p: Point2D<T, Src>) -> Point2D<T, Dst>
        ensures { result ≡ scale_offset_point T.ops self.now p }
    {
        Point2D {
            x: p.x.mul(self.sx).add(self.tx),
            y: p.y.mul(self.sy).add(self.ty),
            unit: self.dst,
        }
    }

    pub fn transform_vector(&self, v: Vector2D<T, Src>) -> Vector2D<T, Dst>
        ensures { result ≡ scale_offset_vector T.ops self.now v }
    {
        Vector2D {
            x: v.x.mul(self.sx),
            y: v.y.mul(self.sy),
            unit: self.dst,
        }
    }

    // This transform, and `other` after it.
    pub fn then<NewDst: Copy>(
        &self,
        other: &ScaleOffset2D<T, Dst, NewDst>,
    ) -> ScaleOffset2D<T, Src, NewDst>
        ensures { result ≡ scale_offset_then T.ops self.now other.now }
    {
        ScaleOffset2D {
            sx: self.sx.mul(other.sx),
            sy: self.sy.mul(other.sy),
            tx: self.tx.mul(other.sx).add(other.tx),
            ty: self.ty.mul(other.sy).add(other.ty),
            src: self.src,
            dst: other.dst,
        }
    }

    // A translation by `v`, and this transform after it.
    pub fn pre_translate(&self, v: Vector2D<T, Src>) -> ScaleOffset2D<T, Src, Dst>
        ensures { result ≡ (let m = self.now in scale_offset m.sx m.sy (T.ops.add m.tx (T.ops.mul v.x m.sx)) (T.ops.add m.ty (T.ops.mul v.y m.sy)) m.src m.dst) }
    {
        ScaleOffset2D {
            tx: self.tx.add(v.x.mul(self.sx)),
            ty: self.ty.add(v.y.mul(self.sy)),
            ..*self
        }
    }

    // This transform, and a translation by `v` after it.
    pub fn then_translate(&self, v: Vector2D<T, Dst>) -> ScaleOffset2D<T, Src, Dst>
        ensures { result ≡ (let m = self.now in scale_offset m.sx m.sy (T.ops.add m.tx v.x) (T.ops.add m.ty v.y) m.src m.dst) }
    {
        ScaleOffset2D {
            tx: self.tx.add(v.x),
            ty: self.ty.add(v.y),
            ..*self
        }
    }

    // A scale, and this transform after it.
    pub fn pre_scale(&self, sx: T, sy: T) -> ScaleOffset2D<T, Src, Dst>
        ensures { result ≡ (let m = self.now in scale_offset (T.ops.mul m.sx sx) (T.ops.mul m.sy sy) m.tx m.ty m.src m.dst) }
    {
        ScaleOffset2D {
            sx: self.sx.mul(sx),
            sy: self.sy.mul(sy),
            ..*self
        }
    }

    // This transform, and a scale after it.
    pub fn then_scale(&self, sx: T, sy: T) -> ScaleOffset2D<T, Src, Dst>
        ensures { result ≡ (let m = self.now in scale_offset (T.ops.mul m.sx sx) (T.ops.mul m.sy sy) (T.ops.mul m.tx sx) (T.ops.mul m.ty sy) m.src m.dst) }
    {
        ScaleOffset2D {
            sx: self.sx.mul(sx),
            sy: self.sy.mul(sy),
            tx: self.tx.mul(sx),
            ty: self.ty.mul(sy),
            ..*self
        }
    }

    // Whether both scales can be divided by: neither is zero, or unequal to itself.
    pub fn is_invertible(&self) -> bool
        ensures { result ≡ (usable T.ops self.now.sx && usable T.ops self.now.sy) }
    {
        self.sx.eq(self.sx)
            && !self.sx.eq(T::zero())
            && (self.sy.eq(self.sy) && !self.sy.eq(T::zero()))
    }

    // The transform back, or None where a scale equals zero.
    pub fn inverse(&self) -> Option<ScaleOffset2D<T, Dst, Src>>
        ensures { result ≡ scale_offset_inverse T.ops self.now }
    {
        if self.sx.eq(T::zero()) || self.sy.eq(T::zero()) {
            return None;
        }
        let sx = T::one().div(self.sx);
        let sy = T::one().div(self.sy);
        Some(ScaleOffset2D {
            sx,
            sy,
            tx: self.tx.neg().mul(sx),
            ty: self.ty.neg().mul(sy),
            src: self.dst,
            dst: self.src,
        })
    }

    // Not `PartialEq`, which would ask every scalar that its equality is symmetric and transitive.
    pub fn eq(&self, other: &ScaleOffset2D<T, Src, Dst>) -> bool
        ensures { result ≡ scale_offset_eq T.ops self.now other.now }
    {
        self.sx.eq(other.sx) && self.sy.eq(other.sy) && self.tx.eq(other.tx) && self.ty.eq(other.ty)
    }
}

impl<T: Ordered, Src: Copy, Dst: Copy> ScaleOffset2D<T, Src, Dst> {
    pub fn transform_box(&self, b: &Box2D<T, Src>) -> Box2D<T, Dst>
        ensures { result ≡ scale_offset_box T.ops T.less self.now b.now }
    {
        let mut min = self.transform_point(b.min);
        let mut max = self.transform_point(b.max);
        if self.sx.lt(T::zero()) {
            std::mem::swap(&mut min.x, &mut max.x);
        }
        if self.sy.lt(T::zero()) {
            std::mem::swap(&mut min.y, &mut max.y);
        }
        Box2D { min, max }
    }

    pub fn transform_rect(&self, r: &Rect<T, Src>) -> Rect<T, Dst>
        ensures { result ≡ box_rect T.ops (scale_offset_box T.ops T.less self.now (rect_box T.ops r.now)) }
    {
        self.transform_box(&r.to_box2d()).to_rect()
    }
}

impl<T: Copy, Src: Copy, Dst: Copy> ScaleOffset2D<T, Src, Dst> {
    // The same numbers between other spaces. Each transform has this and its four callers itself: no associated type has parameters, so a trait would be longer, and callers would have to import it.
    fn between<A, B>(&self, src: A, dst: B) -> ScaleOffset2D<T, A, B>
        ensures { result ≡ re_tagged self.now src dst }
    {
        ScaleOffset2D {
            sx: self.sx,
            sy: self.sy,
            tx: self.tx,
            ty: self.ty,
            src,
            dst,
        }
    }

    pub fn with_source<NewSrc: Tag>(&self) -> ScaleOffset2D<T, NewSrc, Dst>
        ensures { result ≡ re_tagged self.now NewSrc.label self.now.dst }
    {
        self.between(NewSrc::tag(), self.dst)
    }

    pub fn with_destination<NewDst: Tag>(&self) -> ScaleOffset2D<T, Src, NewDst>
        ensures { result ≡ re_tagged self.now self.now.src NewDst.label }
    {
        self.between(self.src, NewDst::tag())
    }

    pub fn to_untyped(&self) -> ScaleOffset2D<T, UnknownUnit, UnknownUnit>
        ensures { result ≡ re_tagged self.now (record {}) (record {}) }
    {
        self.between(UnknownUnit, UnknownUnit)
    }
}

impl<T: Copy, Src: Tag, Dst: Tag> ScaleOffset2D<T, Src, Dst> {
    pub fn from_untyped(m: ScaleOffset2D<T, UnknownUnit, UnknownUnit>) -> ScaleOffset2D<T, Src, Dst>
        ensures { result ≡ re_tagged m Src.label Dst.label }
    {
        m.between(Src::tag(), Dst::tag())
    }
}
