// A tied sum: equal identifiers are one factor.
ghost use Rattle.std.specs.Prelude.{◌≡◌};
ghost use Rattle.model.specs.Field.{tied};
ghost use Rattle.zonotope.specs.Record.{view};
ghost use Rattle.answers.specs.Answer.{resulted};
ghost use Rattle.answers.specs.Accepted.{AcceptedRecord};
ghost use Rattle.summing.specs.Summable.{Next};
ghost use Rattle.fields.specs.Refusal.{body_refusal, result_of};
ghost use Rattle.fields.specs.Effect.{effect};

use crate::{Effect, effects, sets};
use zonotope::{Cause, PolyZonotope};

// What it does; the next identifier stays.
pub fn effect(first: PolyZonotope, next: u32, body: &[u8]) -> Result<Effect, Cause>
    requires { AcceptedRecord first × Next next }
    ensures { result ≡ effect tied body.now next first }
{
    effects::boxed(tied(first, body), next)
}

// The sum with the body's set.
fn tied(first: PolyZonotope, body: &[u8]) -> Result<PolyZonotope, Cause>
    requires { AcceptedRecord first }
    ensures { result ≡ resulted (body_refusal tied body.now 0 (view first))
        (result_of tied body.now 0 (view first)) }
{
    let second = sets::summand(first.dimension, body)?;
    summing::sum::tied(first, second)
}
