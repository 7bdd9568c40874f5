// Which table answers a question.
// A table is a match on the function's name: a list of names and closures has the same rows, and needs a search besides.
use crate::flats::Flat;
use crate::number::Orderable;
use crate::question::Question;
use crate::refusal::{Fault, Refusal};
use crate::scalings::Scaling;
use crate::shapes::{Answer, Row, Shape};
use crate::solids::Solid;
use geometry::point::{point2, point3};
use geometry::size::size2;
use geometry::types::{
    Box2D, Box3D, HomogeneousVector, Point2D, Point3D, Rect, Size2D, Vector2D, Vector3D,
};
use geometry::vector::{vec2, vec3};
use scalar::Ordered;
use spaces::Camera;

// A type with a table.
pub trait Asked<T> {
    fn ask(q: &mut Question<'_, T>) -> Result<(), Fault>;
}

pub fn ask<T: Orderable>(q: &mut Question<'_, T>) -> Result<(), Fault> {
    let Some((kind, function)) = q.function.split_once("::") else {
        return ask_free(q);
    };
    q.function = function;
    match kind {
        "Transform2D" => Flat::<T>::ask(q),
        "ScaleOffset2D" => Scaling::<T>::ask(q),
        "Transform3D" => Solid::<T>::ask(q),
        "HomogeneousVector" => HomogeneousVector::<T, Camera>::ask(q),
        "Point2D" => Point2D::<T, Camera>::ask(q),
        "Point3D" => Point3D::<T, Camera>::ask(q),
        "Vector2D" => Vector2D::<T, Camera>::ask(q),
        "Vector3D" => Vector3D::<T, Camera>::ask_any(q),
        "Size2D" => Size2D::<T, Camera>::ask_any(q),
        "Rect" => Rect::<T, Camera>::ask(q),
        "Box2D" => Box2D::<T, Camera>::ask(q),
        "Box3D" => Box3D::<T, Camera>::ask(q),
        "Scalar" => ask_scalar(q),
        _ => Err(Refusal::UnknownFunction.into()),
    }
}

fn ask_free<T: Orderable>(q: &mut Question<'_, T>) -> Result<(), Fault> {
    match q.function {
        "point2" => point2::<T, Camera>(q.number()?, q.number()?).say(q),
        "point3" => point3::<T, Camera>(q.number()?, q.number()?, q.number()?).say(q),
        "vec2" => vec2::<T, Camera>(q.number()?, q.number()?).say(q),
        "vec3" => vec3::<T, Camera>(q.number()?, q.number()?, q.number()?).say(q),
        "size2" => size2::<T, Camera>(q.number()?, q.number()?).say(q),
        _ => Err(Refusal::UnknownFunction.into()),
    }
}

// The scalar's own operations.
fn ask_scalar<T: Orderable>(q: &mut Question<'_, T>) -> Result<(), Fault> {
    match q.function {
        "zero" => T::zero().say(q),
        "one" => T::one().say(q),
        "add" => q.number()?.add(q.number()?).say(q),
        "sub" => q.number()?.sub(q.number()?).say(q),
        "mul" => q.number()?.mul(q.number()?).say(q),
        "neg" => q.number()?.neg().say(q),
        "div" => q.number()?.div(q.number()?).say(q),
        "eq" => q.number()?.eq(q.number()?).say(q),
        "lt" => {
            let q = T::ordered(q)?;
            q.number()?.lt(q.number()?).say(q)
        }
        "abs" => {
            let q = T::ordered(q)?;
            q.number()?.abs().say(q)
        }
        _ => Err(Refusal::UnknownFunction.into()),
    }
}
