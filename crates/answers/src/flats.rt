// Transform2D: its numbers, and the functions that can be asked about.
use crate::number::Orderable;
use crate::question::Question;
use crate::refusal::Fault;
use crate::shapes::{Answer, Row, Shape, Six};
use crate::table::Asked;
use geometry::types::{Box2D, Point2D, Rect, Vector2D};
use scalar::Tag;
use spaces::{Beam, Camera, Hide};
use transform2d::types::{ScaleOffset2D, Transform2D};

pub type Flat<T> = Transform2D<T, Camera, Hide>;

impl<T: Orderable, Src: Tag, Dst: Tag> Shape<T> for Transform2D<T, Src, Dst> {
    type Fields = Six<T>;

    fn from_fields(((m11, m12), (m21, m22), (m31, m32)): Six<T>) -> Self {
        Transform2D::new(m11, m12, m21, m22, m31, m32)
    }

    fn fields(self) -> Six<T> {
        (
            (self.m11, self.m12),
            (self.m21, self.m22),
            (self.m31, self.m32),
        )
    }

    fn same(&self, other: &Self) -> bool {
        self.eq(other)
    }
}

impl<T: Orderable> Asked<T> for Transform2D<T, Camera, Hide> {
    fn ask(q: &mut Question<'_, T>) -> Result<(), Fault> {
        match q.function {
            "identity" => Self::identity().say(q),
            "translation" => Self::translation(q.number()?, q.number()?).say(q),
            "scale" => Self::scale(q.number()?, q.number()?).say(q),
            "from_ScaleOffset2D" => Self::from(ScaleOffset2D::of(q)?).say(q),
            "from_untyped" => Self::from_untyped(&Transform2D::of(q)?).say(q),
            "to_untyped" => Self::of(q)?.to_untyped().say(q),
            "with_source" => Self::of(q)?.with_source::<Beam>().say(q),
            "with_destination" => Self::of(q)?.with_destination::<Beam>().say(q),
            "to_3d" => Self::of(q)?.to_3d().say(q),
            "to_scale_offset" => Self::of(q)?.to_scale_offset().say(q),
            _ => ask_more(q),
        }
    }
}

// The rest of the table, so that each part fits on a screen.
fn ask_more<T: Orderable>(q: &mut Question<'_, T>) -> Result<(), Fault> {
    match q.function {
        "then" => Flat::of(q)?.then::<Beam>(&Transform2D::of(q)?).say(q),
        "then_translate" => Flat::of(q)?.then_translate(Vector2D::of(q)?).say(q),
        "pre_translate" => Flat::of(q)?.pre_translate(Vector2D::of(q)?).say(q),
        "then_scale" => Flat::of(q)?.then_scale(q.number()?, q.number()?).say(q),
        "pre_scale" => Flat::of(q)?.pre_scale(q.number()?, q.number()?).say(q),
        "transform_point" => Flat::of(q)?.transform_point(Point2D::of(q)?).say(q),
        "transform_vector" => Flat::of(q)?.transform_vector(Vector2D::of(q)?).say(q),
        "determinant" => Flat::of(q)?.determinant().say(q),
        "is_invertible" => Flat::of(q)?.is_invertible().say(q),
        "inverse" => Flat::of(q)?.inverse().say(q),
        "is_scale_offset_eps" => {
            let q = T::ordered(q)?;
            Flat::of(q)?.is_scale_offset_eps(q.number()?).say(q)
        }
        "outer_transformed_rect" => {
            let q = T::ordered(q)?;
            Flat::of(q)?.outer_transformed_rect(&Rect::of(q)?).say(q)
        }
        "outer_transformed_box" => {
            let q = T::ordered(q)?;
            Flat::of(q)?.outer_transformed_box(&Box2D::of(q)?).say(q)
        }
        _ => Flat::ask_any(q),
    }
}
