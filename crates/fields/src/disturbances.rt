// A disturbance: the radii of its body are added to the set's.
ghost use Rattle.std.specs.Prelude.{◌≡◌, length};
ghost use Rattle.model.specs.Operations.{disturb};
ghost use Rattle.model.specs.Body.{dimension, given_radii};
ghost use Rattle.model.specs.Field.{disturbance};
ghost use Rattle.model.specs.Run.{first_of};
ghost use Rattle.zonotope.specs.Record.{view};
ghost use Rattle.zonotope.specs.Answer.{examined};
ghost use Rattle.answers.specs.Answer.{resulted, settled};
ghost use Rattle.answers.specs.Accepted.{AcceptedRecord};
ghost use Rattle.summing.specs.Disturb.{Disturbable};
ghost use Rattle.bodies.specs.Fields.{radii_length};
ghost use Rattle.fields.specs.Refusal.{body_refusal, result_of};
ghost use Rattle.fields.specs.Effect.{effect};
ghost use Rattle.fields.specs.Disturbances.{radii_layout, RadiiLaid, of_disturbance};

use crate::{Effect, effects};
use zonotope::{Cause, PolyZonotope};

// What it does; the next identifier stays.
pub fn effect(first: PolyZonotope, next: u32, body: &[u8]) -> Result<Effect, Cause>
    requires { AcceptedRecord first }
    ensures { result ≡ effect disturbance body.now next first }
{
    effects::boxed(disturb(first, body), next)
}

// The set with the radii added.
fn disturb(s: PolyZonotope, body: &[u8]) -> Result<PolyZonotope, Cause>
    requires { AcceptedRecord s }
    ensures { result ≡ resulted (body_refusal disturbance body.now 0 (view s)) (result_of disturbance body.now 0 (view s)) }
{
    of_body(s.dimension, body)?;
    read(s, body)
}

// The first cause that refuses radii for n coordinates: 3, 4, 3, 5, 6, 14.
fn of_body(n: usize, body: &[u8]) -> Result<(), Cause>
    ensures { result ≡ examined (first_of (of_disturbance n body.now)) }
{
    of_layout(body)?;
    if words::byte_at(body, 0) != n {
        return Err(Cause::Dimension);
    }
    if bodies::radii_out(body) {
        return Err(Cause::Range);
    }
    if bodies::radii_empty(body) {
        return Err(Cause::EmptyDisturbance);
    }
    Ok(())
}

// Whether the body is as long as its count says: 3, 4, 3.
fn of_layout(body: &[u8]) -> Result<(), Cause>
    ensures { result ≡ examined (first_of (radii_layout body.now)) }
{
    if body.len() < 1 {
        return Err(Cause::Length);
    }
    if bodies::radii_counts_out(body) {
        return Err(Cause::Count);
    }
    if body.len() != bodies::radii_length(body) {
        return Err(Cause::Length);
    }
    Ok(())
}

// The set with the radii of a body that nothing refuses: 10.
fn read(s: PolyZonotope, body: &[u8]) -> Result<PolyZonotope, Cause>
    requires { RadiiLaid body.now × Disturbable s (given_radii body.now) }
    ensures { result ≡ settled (disturb (given_radii body.now) (view s)) }
{
    let n = words::byte_at(body, 0);
    let mut radii = [0u32; 6];
    read_into(s, body, &mut radii[0..n])
}

// The same with room for the radii.
fn read_into(s: PolyZonotope, body: &[u8], radii: &mut [u32]) -> Result<PolyZonotope, Cause>
    requires { (length body.now ≡ radii_length body.now) × (length radii.old ≡ dimension body.now)
        × Disturbable s (given_radii body.now) }
    ensures { result ≡ settled (disturb (given_radii body.now) (view s)) }
{
    bodies::radii(body, radii);
    summing::disturbance::disturbed(s, radii)
}
