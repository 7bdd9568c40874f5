// Transform3D: its numbers, and the functions that can be asked about.
use crate::number::Orderable;
use crate::question::Question;
use crate::refusal::Fault;
use crate::shapes::{Answer, Row, Shape, Six, Sixteen};
use crate::table::Asked;
use geometry::types::{Box2D, Box3D, Point2D, Point3D, Rect, Vector2D, Vector3D};
use scalar::{Ordered, Tag};
use spaces::{Beam, Camera, Hide};
use transform2d::between::Planar;
use transform2d::types::Transform2D;
use transform3d::types::Transform3D;

pub type Solid<T> = Transform3D<T, Camera, Hide>;

impl<T: Orderable, Src: Tag, Dst: Tag> Shape<T> for Transform3D<T, Src, Dst> {
    type Fields = Sixteen<T>;

    fn from_fields(((row1, row2), (row3, row4)): Sixteen<T>) -> Self {
        let ((m11, m12), (m13, m14)) = row1;
        let ((m21, m22), (m23, m24)) = row2;
        let ((m31, m32), (m33, m34)) = row3;
        let ((m41, m42), (m43, m44)) = row4;
        Transform3D::new(
            m11, m12, m13, m14, m21, m22, m23, m24, m31, m32, m33, m34, m41, m42, m43, m44,
        )
    }

    fn fields(self) -> Sixteen<T> {
        let row1 = ((self.m11, self.m12), (self.m13, self.m14));
        let row2 = ((self.m21, self.m22), (self.m23, self.m24));
        let row3 = ((self.m31, self.m32), (self.m33, self.m34));
        let row4 = ((self.m41, self.m42), (self.m43, self.m44));
        ((row1, row2), (row3, row4))
    }

    fn same(&self, other: &Self) -> bool {
        self.eq(other)
    }
}

impl<T: Orderable> Asked<T> for Transform3D<T, Camera, Hide> {
    fn ask(q: &mut Question<'_, T>) -> Result<(), Fault> {
        match q.function {
            "new_2d" => {
                let ((m11, m12), (m21, m22), (m41, m42)) = Six::of(q)?;
                Self::new_2d(m11, m12, m21, m22, m41, m42).say(q)
            }
            "identity" => Self::identity().say(q),
            "translation" => Self::translation(q.number()?, q.number()?, q.number()?).say(q),
            "scale" => Self::scale(q.number()?, q.number()?, q.number()?).say(q),
            "perspective" => Self::perspective(q.number()?).say(q),
            "ortho" => {
                let ((left, right), (bottom, top), (near, far)) = Six::of(q)?;
                Self::ortho(left, right, bottom, top, near, far).say(q)
            }
            "from_Transform2D" => Self::from(Transform2D::of(q)?).say(q),
            "from_untyped" => Self::from_untyped(&Transform3D::of(q)?).say(q),
            "to_untyped" => Self::of(q)?.to_untyped().say(q),
            "with_source" => Self::of(q)?.with_source::<Beam>().say(q),
            "with_destination" => Self::of(q)?.with_destination::<Beam>().say(q),
            "to_2d" => Self::of(q)?.to_2d().say(q),
            "to_scale_offset2d" => Self::of(q)?.to_scale_offset2d().say(q),
            _ => ask_more(q),
        }
    }
}

// The rest of the table, in two parts, so that each fits on a screen.
fn ask_more<T: Orderable>(q: &mut Question<'_, T>) -> Result<(), Fault> {
    match q.function {
        "is_2d" => Solid::of(q)?.is_2d().say(q),
        "project_to_2d" => Solid::of(q)?.project_to_2d().say(q),
        "then" => Solid::of(q)?.then::<Beam>(&Transform3D::of(q)?).say(q),
        "then_translate" => Solid::of(q)?.then_translate(Vector3D::of(q)?).say(q),
        "pre_translate" => Solid::of(q)?.pre_translate(Vector3D::of(q)?).say(q),
        "then_scale" => Solid::of(q)?
            .then_scale(q.number()?, q.number()?, q.number()?)
            .say(q),
        "pre_scale" => Solid::of(q)?
            .pre_scale(q.number()?, q.number()?, q.number()?)
            .say(q),
        "mul_s" => Solid::of(q)?.mul_s(q.number()?).say(q),
        "determinant" => Solid::of(q)?.determinant().say(q),
        "is_invertible" => Solid::of(q)?.is_invertible().say(q),
        "inverse" => Solid::of(q)?.inverse().say(q),
        "is_scale_offset_2d_eps" => {
            let q = T::ordered(q)?;
            Solid::of(q)?.is_scale_offset_2d_eps(q.number()?).say(q)
        }
        "is_backface_visible" => {
            let q = T::ordered(q)?;
            Solid::of(q)?.is_backface_visible().say(q)
        }
        _ => ask_images(q),
    }
}

fn ask_images<T: Orderable>(q: &mut Question<'_, T>) -> Result<(), Fault> {
    match q.function {
        "transform_point2d_homogeneous" => Solid::of(q)?
            .transform_point2d_homogeneous(Point2D::of(q)?)
            .say(q),
        "transform_point3d_homogeneous" => Solid::of(q)?
            .transform_point3d_homogeneous(Point3D::of(q)?)
            .say(q),
        "transform_vector2d" => Solid::of(q)?.transform_vector2d(Vector2D::of(q)?).say(q),
        "transform_vector3d" => Solid::of(q)?.transform_vector3d(Vector3D::of(q)?).say(q),
        "transform_point2d" => {
            let q = T::ordered(q)?;
            Solid::of(q)?.transform_point2d(Point2D::of(q)?).say(q)
        }
        "transform_point3d" => {
            let q = T::ordered(q)?;
            Solid::of(q)?.transform_point3d(Point3D::of(q)?).say(q)
        }
        "outer_transformed_rect" => {
            let q = T::ordered(q)?;
            Solid::of(q)?.outer_transformed_rect(&Rect::of(q)?).say(q)
        }
        "outer_transformed_box2d" => {
            let q = T::ordered(q)?;
            Solid::of(q)?.outer_transformed_box2d(&Box2D::of(q)?).say(q)
        }
        "outer_transformed_box3d" => {
            let q = T::ordered(q)?;
            Solid::of(q)?.outer_transformed_box3d(&Box3D::of(q)?).say(q)
        }
        _ => Solid::ask_any(q),
    }
}
