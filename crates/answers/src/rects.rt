// Rectangles and boxes: their numbers, and the functions that can be asked about.
use crate::number::Orderable;
use crate::question::Question;
use crate::refusal::Fault;
use crate::shapes::{Answer, Four, Shape};
use crate::table::Asked;
use geometry::types::{Box2D, Box3D, Point2D, Point3D, Rect, Size2D};
use scalar::Tag;
use spaces::Camera;

impl<T: Orderable, U: Tag> Shape<T> for Rect<T, U> {
    type Fields = Four<T>;

    fn from_fields((origin, size): Four<T>) -> Self {
        Rect::new(Point2D::from_fields(origin), Size2D::from_fields(size))
    }

    fn fields(self) -> Four<T> {
        (self.origin.fields(), self.size.fields())
    }

    fn same(&self, other: &Self) -> bool {
        self.eq(other)
    }
}

impl<T: Orderable> Asked<T> for Rect<T, Camera> {
    fn ask(q: &mut Question<'_, T>) -> Result<(), Fault> {
        match q.function {
            "min" => Self::of(q)?.min().say(q),
            "max" => Self::of(q)?.max().say(q),
            "to_box2d" => Self::of(q)?.to_box2d().say(q),
            "from_points" => {
                let q = T::ordered(q)?;
                let points = q.shapes(q.numbers.len().div_ceil(2))?;
                Rect::<_, Camera>::from_points(points.as_slice()).say(q)
            }
            _ => Self::ask_any(q),
        }
    }
}

impl<T: Orderable, U: Tag> Shape<T> for Box2D<T, U> {
    type Fields = Four<T>;

    fn from_fields((min, max): Four<T>) -> Self {
        Box2D::new(Point2D::from_fields(min), Point2D::from_fields(max))
    }

    fn fields(self) -> Four<T> {
        (self.min.fields(), self.max.fields())
    }

    fn same(&self, other: &Self) -> bool {
        self.eq(other)
    }
}

impl<T: Orderable> Asked<T> for Box2D<T, Camera> {
    fn ask(q: &mut Question<'_, T>) -> Result<(), Fault> {
        match q.function {
            "zero" => Self::zero().say(q),
            "size" => Self::of(q)?.size().say(q),
            "to_rect" => Self::of(q)?.to_rect().say(q),
            "from_points" => {
                let q = T::ordered(q)?;
                let points = q.shapes(q.numbers.len().div_ceil(2))?;
                Box2D::<_, Camera>::from_points(points.as_slice()).say(q)
            }
            _ => Self::ask_any(q),
        }
    }
}

impl<T: Orderable, U: Tag> Shape<T> for Box3D<T, U> {
    type Fields = ((T, T, T), (T, T, T));

    fn from_fields((min, max): ((T, T, T), (T, T, T))) -> Self {
        Box3D::new(Point3D::from_fields(min), Point3D::from_fields(max))
    }

    fn fields(self) -> ((T, T, T), (T, T, T)) {
        (self.min.fields(), self.max.fields())
    }

    fn same(&self, other: &Self) -> bool {
        self.eq(other)
    }
}

impl<T: Orderable> Asked<T> for Box3D<T, Camera> {
    fn ask(q: &mut Question<'_, T>) -> Result<(), Fault> {
        match q.function {
            "zero" => Self::zero().say(q),
            "from_points" => {
                let q = T::ordered(q)?;
                let points = q.shapes(q.numbers.len().div_ceil(3))?;
                Box3D::<_, Camera>::from_points(points.as_slice()).say(q)
            }
            _ => Self::ask_any(q),
        }
    }
}
