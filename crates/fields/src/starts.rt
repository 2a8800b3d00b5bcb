// The start set: the set of its body.
ghost use Rattle.std.specs.Prelude.{◌≡◌};
ghost use Rattle.model.specs.Field.{start};
ghost use Rattle.model.specs.Run.{no_set};
ghost use Rattle.zonotope.specs.Record.{pack};
ghost use Rattle.answers.specs.Answer.{resulted};
ghost use Rattle.fields.specs.Refusal.{body_refusal, result_of};
ghost use Rattle.fields.specs.Effect.{effect};

use crate::{Effect, effects, sets};
use zonotope::{Cause, PolyZonotope};

// What it does, whatever stands where the set will.
pub fn effect(next: u32, body: &[u8]) -> Result<Effect, Cause>
    ensures { result ≡ effect start body.now next (pack no_set) }
{
    effects::boxed(given(body), next)
}

// The set itself.
fn given(body: &[u8]) -> Result<PolyZonotope, Cause>
    ensures { result ≡ resulted (body_refusal start body.now 0 no_set) (result_of start body.now 0 no_set) }
{
    sets::of_layout(body)?;
    sets::read(body)
}
