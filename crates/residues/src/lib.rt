// Residues modulo a prime. What is proved of them is proved in `integers` for any prime, and cited here for each.
#![tactic(auto)]

mod modular;
pub mod residue;
pub mod types;
