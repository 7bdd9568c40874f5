// Images of points, vectors and boxes under transforms of space.
ghost use Rattle.std.specs.Prelude.{◌≡◌};
ghost use Rattle.geometry.specs.Points.{cartesian2, cartesian3};
ghost use Rattle.transform3d.specs.Solids.{image_point2, image_point3, image_vector2, image_vector3, outer_box2, outer_rect, taken_in, edge_taken_in, outer_box3};

use crate::types::Transform3D;
use geometry::types::{
    Box2D, Box3D, HomogeneousVector, Point2D, Point3D, Rect, Vector2D, Vector3D,
};
use scalar::{Ordered, Scalar};
use sums::Row;

impl<T: Scalar, Src: Copy, Dst: Copy> Transform3D<T, Src, Dst> {
    pub fn transform_point2d_homogeneous(&self, p: Point2D<T, Src>) -> HomogeneousVector<T, Dst>
        ensures { result ≡ image_point2 T.ops self.now p }
    {
        let row = (p.x, p.y);
        HomogeneousVector {
            x: row.affine((self.m11, self.m21), self.m41),
            y: row.affine((self.m12, self.m22), self.m42),
            z: row.affine((self.m13, self.m23), self.m43),
            w: row.affine((self.m14, self.m24), self.m44),
            unit: self.dst,
        }
    }

    pub fn transform_point3d_homogeneous(&self, p: Point3D<T, Src>) -> HomogeneousVector<T, Dst>
        ensures { result ≡ image_point3 T.ops self.now p }
    {
        let row = (p.x, p.y, p.z);
        HomogeneousVector {
            x: row.affine((self.m11, self.m21, self.m31), self.m41),
            y: row.affine((self.m12, self.m22, self.m32), self.m42),
            z: row.affine((self.m13, self.m23, self.m33), self.m43),
            w: row.affine((self.m14, self.m24, self.m34), self.m44),
            unit: self.dst,
        }
    }

    pub fn transform_vector2d(&self, v: Vector2D<T, Src>) -> Vector2D<T, Dst>
        ensures { result ≡ image_vector2 T.ops self.now v }
    {
        let row = (v.x, v.y);
        Vector2D {
            x: row.dot((self.m11, self.m21)),
            y: row.dot((self.m12, self.m22)),
            unit: self.dst,
        }
    }

    pub fn transform_vector3d(&self, v: Vector3D<T, Src>) -> Vector3D<T, Dst>
        ensures { result ≡ image_vector3 T.ops self.now v }
    {
        let row = (v.x, v.y, v.z);
        Vector3D {
            x: row.dot((self.m11, self.m21, self.m31)),
            y: row.dot((self.m12, self.m22, self.m32)),
            z: row.dot((self.m13, self.m23, self.m33)),
            unit: self.dst,
        }
    }
}

impl<T: Ordered, Src: Copy, Dst: Copy> Transform3D<T, Src, Dst> {
    // The image of a point of the plane, or None unless its w is above zero.
    pub fn transform_point2d(&self, p: Point2D<T, Src>) -> Option<Point2D<T, Dst>>
        ensures { result ≡ cartesian2 T.ops T.less (image_point2 T.ops self.now p) }
    {
        self.transform_point2d_homogeneous(p).to_point2d()
    }

    // The image of a point of space, or None unless its w is above zero.
    pub fn transform_point3d(&self, p: Point3D<T, Src>) -> Option<Point3D<T, Dst>>
        ensures { result ≡ cartesian3 T.ops T.less (image_point3 T.ops self.now p) }
    {
        self.transform_point3d_homogeneous(p).to_point3d()
    }
}

impl<T: Ordered, Src: Copy, Dst: Copy> Transform3D<T, Src, Dst> {
    // The box of the images of the four corners, or None unless the w of each is above zero.
    pub fn outer_transformed_box2d(&self, b: &Box2D<T, Src>) -> Option<Box2D<T, Dst>>
        ensures { result ≡ outer_box2 T.ops T.less self.now b.now }
    {
        let first = self.transform_point2d(b.min)?;
        let mut outer = Box2D::new(first, first);
        outer.grow(self.transform_point2d(b.max)?);
        outer.grow(self.transform_point2d(Point2D {
            x: b.max.x,
            ..b.min
        })?);
        outer.grow(self.transform_point2d(Point2D {
            y: b.max.y,
            ..b.min
        })?);
        Some(outer)
    }

    // The rectangle of the images of the four corners, or None unless the w of each is above zero.
    pub fn outer_transformed_rect(&self, rect: &Rect<T, Src>) -> Option<Rect<T, Dst>>
        ensures { result ≡ outer_rect T.ops T.less self.now rect.now }
    {
        Some(self.outer_transformed_box2d(&rect.to_box2d())?.to_rect())
    }

    // `outer` with the image of `p` taken in, or None unless the w of the image is above zero.
    fn take_in(&self, outer: Box3D<T, Dst>, p: Point3D<T, Src>) -> Option<Box3D<T, Dst>>
        ensures { result ≡ taken_in T.ops T.less self.now outer p }
    {
        let mut grown = outer;
        grown.grow(self.transform_point3d(p)?);
        Some(grown)
    }

    // The same of the two corners of `b` at `x` and `y`, which may be of two corners and so are no point.
    fn take_in_edge(
        &self,
        outer: Box3D<T, Dst>,
        x: T,
        y: T,
        b: &Box3D<T, Src>,
    ) -> Option<Box3D<T, Dst>>
        ensures { result ≡ edge_taken_in T.ops T.less self.now outer x y b.now }
    {
        let low = Point3D { x, y, ..b.min };
        let half = self.take_in(outer, low)?;
        self.take_in(half, Point3D { z: b.max.z, ..low })
    }

    // The box of the images of the eight corners, or None unless the w of each is above zero.
    pub fn outer_transformed_box3d(&self, b: &Box3D<T, Src>) -> Option<Box3D<T, Dst>>
        ensures { result ≡ outer_box3 T.ops T.less self.now b.now }
    {
        let first = self.transform_point3d(b.min)?;
        let outer = self.take_in(
            Box3D::new(first, first),
            Point3D {
                z: b.max.z,
                ..b.min
            },
        )?;
        let outer = self.take_in_edge(outer, b.min.x, b.max.y, b)?;
        let outer = self.take_in_edge(outer, b.max.x, b.min.y, b)?;
        self.take_in_edge(outer, b.max.x, b.max.y, b)
    }
}
