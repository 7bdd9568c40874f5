// Transforms of space. Functions have euclid's names, and take entries apart where it does.
#![tactic(auto)]

pub mod images;
pub mod inverse;
pub mod makes;
pub mod transform3d;
pub mod types;
