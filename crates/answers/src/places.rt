// Points, vectors, sizes and homogeneous vectors: their numbers, and the functions that can be asked about.
use crate::number::Orderable;
use crate::question::Question;
use crate::refusal::Fault;
use crate::shapes::{Answer, Four, Row, Shape};
use crate::table::Asked;
use geometry::types::{HomogeneousVector, Point2D, Point3D, Size2D, Vector2D, Vector3D};
use scalar::Tag;
use spaces::Camera;

impl<T: Orderable, U: Tag> Shape<T> for Point2D<T, U> {
    type Fields = (T, T);

    fn from_fields((x, y): (T, T)) -> Self {
        Point2D::new(x, y)
    }

    fn fields(self) -> (T, T) {
        (self.x, self.y)
    }

    fn same(&self, other: &Self) -> bool {
        self.eq(other)
    }
}

impl<T: Orderable> Asked<T> for Point2D<T, Camera> {
    fn ask(q: &mut Question<'_, T>) -> Result<(), Fault> {
        match q.function {
            "origin" => Self::origin().say(q),
            "zero" => Self::zero().say(q),
            "to_tuple" => Self::of(q)?.to_tuple().say(q),
            "add" => Self::of(q)?.add(Size2D::of(q)?).say(q),
            "sub" => Self::of(q)?.sub(Point2D::of(q)?).say(q),
            _ => Self::ask_any(q),
        }
    }
}

impl<T: Orderable, U: Tag> Shape<T> for Point3D<T, U> {
    type Fields = (T, T, T);

    fn from_fields((x, y, z): (T, T, T)) -> Self {
        Point3D::new(x, y, z)
    }

    fn fields(self) -> (T, T, T) {
        (self.x, self.y, self.z)
    }

    fn same(&self, other: &Self) -> bool {
        self.eq(other)
    }
}

impl<T: Orderable> Asked<T> for Point3D<T, Camera> {
    fn ask(q: &mut Question<'_, T>) -> Result<(), Fault> {
        match q.function {
            "origin" => Self::origin().say(q),
            "zero" => Self::zero().say(q),
            "to_tuple" => Self::of(q)?.to_tuple().say(q),
            _ => Self::ask_any(q),
        }
    }
}

impl<T: Orderable, U: Tag> Shape<T> for Vector2D<T, U> {
    type Fields = (T, T);

    fn from_fields((x, y): (T, T)) -> Self {
        Vector2D::new(x, y)
    }

    fn fields(self) -> (T, T) {
        (self.x, self.y)
    }

    fn same(&self, other: &Self) -> bool {
        self.eq(other)
    }
}

impl<T: Orderable> Asked<T> for Vector2D<T, Camera> {
    fn ask(q: &mut Question<'_, T>) -> Result<(), Fault> {
        match q.function {
            "to_size" => Self::of(q)?.to_size().say(q),
            _ => Self::ask_any(q),
        }
    }
}

impl<T: Orderable, U: Tag> Shape<T> for Vector3D<T, U> {
    type Fields = (T, T, T);

    fn from_fields((x, y, z): (T, T, T)) -> Self {
        Vector3D::new(x, y, z)
    }

    fn fields(self) -> (T, T, T) {
        (self.x, self.y, self.z)
    }

    fn same(&self, other: &Self) -> bool {
        self.eq(other)
    }
}

impl<T: Orderable, U: Tag> Shape<T> for Size2D<T, U> {
    type Fields = (T, T);

    fn from_fields((width, height): (T, T)) -> Self {
        Size2D::new(width, height)
    }

    fn fields(self) -> (T, T) {
        (self.width, self.height)
    }

    fn same(&self, other: &Self) -> bool {
        self.eq(other)
    }
}

impl<T: Orderable, U: Tag> Shape<T> for HomogeneousVector<T, U> {
    type Fields = Four<T>;

    fn from_fields(((x, y), (z, w)): Four<T>) -> Self {
        HomogeneousVector::new(x, y, z, w)
    }

    fn fields(self) -> Four<T> {
        ((self.x, self.y), (self.z, self.w))
    }

    fn same(&self, other: &Self) -> bool {
        self.eq(other)
    }
}

impl<T: Orderable> Asked<T> for HomogeneousVector<T, Camera> {
    fn ask(q: &mut Question<'_, T>) -> Result<(), Fault> {
        match q.function {
            "from_Vector2D" => Self::from(Vector2D::of(q)?).say(q),
            "from_Vector3D" => Self::from(Vector3D::of(q)?).say(q),
            "from_Point2D" => Self::from(Point2D::of(q)?).say(q),
            "from_Point3D" => Self::from(Point3D::of(q)?).say(q),
            "to_point2d" => {
                let q = T::ordered(q)?;
                HomogeneousVector::<_, Camera>::of(q)?.to_point2d().say(q)
            }
            "to_point3d" => {
                let q = T::ordered(q)?;
                HomogeneousVector::<_, Camera>::of(q)?.to_point3d().say(q)
            }
            _ => Self::ask_any(q),
        }
    }
}
