// Points, vectors, sizes, rectangles, boxes and homogeneous vectors. Modules and functions, conversions too, have euclid's names.
// Each type is generic over its scalar and over the space that its coordinates are taken in, of which it holds the one value.
#![tactic(auto)]

pub mod box2d;
pub mod box3d;
pub mod homogen;
mod order;
pub mod point;
pub mod rect;
pub mod size;
pub mod types;
pub mod unit;
pub mod vector;
