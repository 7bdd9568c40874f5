// ScaleOffset2D: its numbers, and the functions that can be asked about.
use crate::number::Orderable;
use crate::question::Question;
use crate::refusal::Fault;
use crate::shapes::{Answer, Four, Shape};
use crate::table::Asked;
use geometry::types::{Box2D, Point2D, Rect, Vector2D};
use scalar::Tag;
use spaces::{Beam, Camera, Hide};
use transform2d::types::ScaleOffset2D;

pub type Scaling<T> = ScaleOffset2D<T, Camera, Hide>;

impl<T: Orderable, Src: Tag, Dst: Tag> Shape<T> for ScaleOffset2D<T, Src, Dst> {
    type Fields = Four<T>;

    fn from_fields(((sx, sy), (tx, ty)): Four<T>) -> Self {
        ScaleOffset2D::new(sx, sy, tx, ty)
    }

    fn fields(self) -> Four<T> {
        ((self.sx, self.sy), (self.tx, self.ty))
    }

    fn same(&self, other: &Self) -> bool {
        self.eq(other)
    }
}

impl<T: Orderable> Asked<T> for ScaleOffset2D<T, Camera, Hide> {
    fn ask(q: &mut Question<'_, T>) -> Result<(), Fault> {
        match q.function {
            "identity" => Self::identity().say(q),
            "scale" => Self::scale(q.number()?, q.number()?).say(q),
            "offset" => Self::offset(q.number()?, q.number()?).say(q),
            "from_untyped" => Self::from_untyped(ScaleOffset2D::of(q)?).say(q),
            "to_untyped" => Self::of(q)?.to_untyped().say(q),
            "with_source" => Self::of(q)?.with_source::<Beam>().say(q),
            "with_destination" => Self::of(q)?.with_destination::<Beam>().say(q),
            "to_transform2d" => Self::of(q)?.to_transform2d().say(q),
            "to_transform3d" => Self::of(q)?.to_transform3d().say(q),
            _ => ask_more(q),
        }
    }
}

// The rest of the table, so that each part fits on a screen.
fn ask_more<T: Orderable>(q: &mut Question<'_, T>) -> Result<(), Fault> {
    match q.function {
        "then" => Scaling::of(q)?.then::<Beam>(&ScaleOffset2D::of(q)?).say(q),
        "then_translate" => Scaling::of(q)?.then_translate(Vector2D::of(q)?).say(q),
        "pre_translate" => Scaling::of(q)?.pre_translate(Vector2D::of(q)?).say(q),
        "then_scale" => Scaling::of(q)?.then_scale(q.number()?, q.number()?).say(q),
        "pre_scale" => Scaling::of(q)?.pre_scale(q.number()?, q.number()?).say(q),
        "transform_point" => Scaling::of(q)?.transform_point(Point2D::of(q)?).say(q),
        "transform_vector" => Scaling::of(q)?.transform_vector(Vector2D::of(q)?).say(q),
        "is_invertible" => Scaling::of(q)?.is_invertible().say(q),
        "inverse" => Scaling::of(q)?.inverse().say(q),
        "transform_box" => {
            let q = T::ordered(q)?;
            Scaling::of(q)?.transform_box(&Box2D::of(q)?).say(q)
        }
        "transform_rect" => {
            let q = T::ordered(q)?;
            Scaling::of(q)?.transform_rect(&Rect::of(q)?).say(q)
        }
        _ => Scaling::ask_any(q),
    }
}
