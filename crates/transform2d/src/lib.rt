// Transforms of the plane, and the ways between the three kinds of transform. Functions have euclid's names, and take entries apart where it does.
#![tactic(auto)]

pub mod between;
pub mod scale_offset;
pub mod transform2d;
pub mod types;
