//! What formulas and rules mean on a scale of truth. The definitions stand in specs/, their laws are proved in proofs/.
#![tactic(auto)]

mod laws;

pub use laws::meaning_stands;
