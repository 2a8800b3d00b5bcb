// A reduction: the set, finished with the limits of its body.
ghost use Rattle.std.specs.Prelude.{◌≡◌};
ghost use Rattle.model.specs.Field.{reduction};
ghost use Rattle.model.specs.Run.{first_of};
ghost use Rattle.zonotope.specs.Record.{view};
ghost use Rattle.zonotope.specs.Answer.{examined};
ghost use Rattle.answers.specs.Answer.{resulted};
ghost use Rattle.answers.specs.Accepted.{AcceptedRecord};
ghost use Rattle.fields.specs.Refusal.{body_refusal, result_of};
ghost use Rattle.fields.specs.Effect.{effect};
ghost use Rattle.fields.specs.Reductions.{limits_layout};

use crate::{Effect, effects};
use zonotope::{Cause, PolyZonotope};

// What it does; the next identifier stays.
pub fn effect(first: PolyZonotope, next: u32, body: &[u8]) -> Result<Effect, Cause>
    requires { AcceptedRecord first }
    ensures { result ≡ effect reduction body.now next first }
{
    effects::boxed(reduce(first, body), next)
}

// The reduced set.
fn reduce(s: PolyZonotope, body: &[u8]) -> Result<PolyZonotope, Cause>
    requires { AcceptedRecord s }
    ensures { result ≡ resulted (body_refusal reduction body.now 0 (view s)) (result_of reduction body.now 0 (view s)) }
{
    of_layout(body)?;
    let terms = words::byte_at(body, 0);
    let generators = words::byte_at(body, 1);
    summing::reduction::reduced(s, terms, generators)
}

// Whether the body is two limits of a set: 3, 4, 3.
fn of_layout(body: &[u8]) -> Result<(), Cause>
    ensures { result ≡ examined (first_of (limits_layout body.now)) }
{
    if body.len() < 2 {
        return Err(Cause::Length);
    }
    if bodies::limits_out(body) {
        return Err(Cause::Count);
    }
    if body.len() != 2 {
        return Err(Cause::Length);
    }
    Ok(())
}
