// What a call that changes a set answers: the changed set, or a refusal with the first set as it came. Under it, a result finished.
#![tactic(auto)]

ghost use Rattle.std.specs.Prelude.{◌≡◌};
ghost use Rattle.answers.specs.Answer.{answer};

use zonotope::{Cause, PolyZonotope};

pub mod finishing;

// That the set was changed, with the changed set, or a refusal, with the first set as it came.
#[derive(Clone, Copy)]
pub struct Changed {
    pub outcome: Result<(), Cause>,
    pub set: PolyZonotope,
}

// What a call on a first set answers for its result.
pub fn answer(first: PolyZonotope, r: Result<PolyZonotope, Cause>) -> Changed
    ensures { result ≡ answer first r }
{
    match r {
        Ok(set) => Changed {
            outcome: Ok(()),
            set,
        },
        Err(cause) => Changed {
            outcome: Err(cause),
            set: first,
        },
    }
}
