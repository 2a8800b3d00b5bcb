// An independent sum: the factors of its body take the next identifiers.
ghost use Rattle.std.specs.Prelude.{◌≡◌, ◌<◌};
ghost use Rattle.model.specs.Body.{factors};
ghost use Rattle.model.specs.Field.{independent};
ghost use Rattle.zonotope.specs.Record.{view};
ghost use Rattle.answers.specs.Answer.{resulted};
ghost use Rattle.answers.specs.Accepted.{AcceptedRecord};
ghost use Rattle.summing.specs.Summable.{Next};
ghost use Rattle.fields.specs.Refusal.{body_refusal, result_of};
ghost use Rattle.fields.specs.Effect.{effect};

use crate::{Effect, effects, sets};
use zonotope::{Cause, PolyZonotope};

// What it does; the next identifier rises by the number of factors.
pub fn effect(first: PolyZonotope, next: u32, body: &[u8]) -> Result<Effect, Cause>
    requires { AcceptedRecord first × Next next }
    ensures { result ≡ effect independent body.now next first }
{
    effects::boxed(independent(first, next, body), next + factor_count(body))
}

// The sum with the body's set, whose factors are numbered from `next` on.
fn independent(first: PolyZonotope, next: u32, body: &[u8]) -> Result<PolyZonotope, Cause>
    requires { AcceptedRecord first × Next next }
    ensures { result ≡ resulted (body_refusal independent body.now next (view first))
        (result_of independent body.now next (view first)) }
{
    let second = sets::summand(first.dimension, body)?;
    summing::sum::independent(first, second, next)
}

// How many factors the body's set has; 0 where the body ends before it says so.
fn factor_count(body: &[u8]) -> u32
    ensures { (result ≡ factors body.now) × (result < 256) }
{
    if body.len() < 2 {
        return 0;
    }
    words::byte_at(body, 1) as u32
}
