// The hull with a second set: its blending factor takes the next identifier.
ghost use Rattle.std.specs.Prelude.{◌≡◌};
ghost use Rattle.model.specs.Field.{hull};
ghost use Rattle.zonotope.specs.Record.{view};
ghost use Rattle.answers.specs.Answer.{resulted};
ghost use Rattle.answers.specs.Accepted.{AcceptedRecord};
ghost use Rattle.summing.specs.Summable.{Next};
ghost use Rattle.fields.specs.Refusal.{body_refusal, result_of};
ghost use Rattle.fields.specs.Effect.{effect};

use crate::{Effect, effects, sets};
use zonotope::{Cause, PolyZonotope};

// What it does; the next identifier rises by one.
pub fn effect(first: PolyZonotope, next: u32, body: &[u8]) -> Result<Effect, Cause>
    requires { AcceptedRecord first × Next next }
    ensures { result ≡ effect hull body.now next first }
{
    effects::boxed(hull(first, next, body), next + 1)
}

// The hull with the body's set, blended by the factor `next`.
fn hull(first: PolyZonotope, next: u32, body: &[u8]) -> Result<PolyZonotope, Cause>
    requires { AcceptedRecord first }
    ensures { result ≡ resulted (body_refusal hull body.now next (view first))
        (result_of hull body.now next (view first)) }
{
    let second = sets::summand(first.dimension, body)?;
    hulling::hulled(first, second, next)
}
