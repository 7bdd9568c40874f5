// The scalars that clamp: Pixel, which counts 256ths, and Whole.
#![tactic(auto)]

pub mod clamped;
pub mod measure;
pub mod operations;
pub mod pixel;
pub mod types;
