// What the integer scalars share: how an exact result is made to fit, and in proofs/ the laws that follow from it.
// Facts of modular arithmetic are there for any modulus, and facts of inverses for any prime.
#![tactic(auto)]

pub mod fraction;
pub mod rounding;
