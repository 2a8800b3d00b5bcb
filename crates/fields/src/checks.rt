// A check: the region of its body is read, and the set is judged against it.
ghost use Rattle.std.specs.Prelude.{◌≡◌, length};
ghost use Rattle.model.specs.Operations.{safe};
ghost use Rattle.model.specs.Body.{dimension, halfspace_count, given_halfspaces};
ghost use Rattle.model.specs.Field.{check};
ghost use Rattle.zonotope.specs.Record.{view};
ghost use Rattle.answers.specs.Accepted.{AcceptedRecord};
ghost use Rattle.bodies.specs.Fields.{RegionBody};
ghost use Rattle.verdicts.specs.Judged.{judged};
ghost use Rattle.fields.specs.Refusal.{body_refusal};
ghost use Rattle.fields.specs.Effect.{effect};
ghost use Rattle.fields.specs.Checks.{WholeRegion, checked};

use crate::{Effect, effects};
use verdicts::Verdict;
use zonotope::{Cause, PolyZonotope};

// What it does: a verdict; the set and the next identifier stay.
pub fn effect(first: PolyZonotope, next: u32, body: &[u8]) -> Result<Effect, Cause>
    requires { AcceptedRecord first }
    ensures { result ≡ effect check body.now next first }
{
    effects::judged(check(first, body), first, next)
}

// Whether the set avoids the body's region, as far as the lower ends tell.
fn check(s: PolyZonotope, body: &[u8]) -> Result<Verdict, Cause>
    requires { AcceptedRecord s }
    ensures { result ≡ judged (body_refusal check body.now 0 (view s)) (safe (given_halfspaces body.now) (view s)) }
{
    if body.len() < 2 {
        return Err(Cause::Length);
    }
    if bodies::region_counts_out(body) {
        return Err(Cause::Count);
    }
    if body.len() != bodies::region_length(body) {
        return Err(Cause::Length);
    }
    read(s, body)
}

// The verdict by a body of the right length: 5, 6.
fn read(s: PolyZonotope, body: &[u8]) -> Result<Verdict, Cause>
    requires { AcceptedRecord s × WholeRegion body.now }
    ensures { result ≡ checked body.now (view s) }
{
    let n = words::byte_at(body, 0);
    let count = words::byte_at(body, 1);
    let entries = count * n;
    let mut normals = [0i32; 48];
    let mut bounds = [0i64; 8];
    read_into(
        s,
        body,
        n,
        count,
        &mut normals[0..entries],
        &mut bounds[0..count],
    )
}

// The same with room for the normals and bounds.
fn read_into(
    s: PolyZonotope,
    body: &[u8],
    n: usize,
    count: usize,
    normals: &mut [i32],
    bounds: &mut [i64],
) -> Result<Verdict, Cause>
    requires { AcceptedRecord s × (n ≡ dimension body.now) × (count ≡ halfspace_count body.now)
        × RegionBody body.now (length normals.old) (length bounds.old) }
    ensures { result ≡ checked body.now (view s) }
{
    bodies::region(body, normals, bounds);
    verdicts::judge(s, n, count, normals, bounds)
}
