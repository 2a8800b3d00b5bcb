// Each promise once more, so that one that is gone or weakened is refused here: the theorems with their whole statements in proofs/, and
// for each call that a customer makes a function that only makes it and states its whole contract. Nothing else uses them.
#![tactic(auto)]

pub mod line_calls;
pub mod run_calls;
pub mod set_calls;
