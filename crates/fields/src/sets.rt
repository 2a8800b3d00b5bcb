// Bodies that are a set: of a start set, of the sums and of the hull.
ghost use Rattle.std.specs.Prelude.{◌≡◌};
ghost use Rattle.model.specs.Body.{given_set};
ghost use Rattle.model.specs.Run.{first_of};
ghost use Rattle.zonotope.specs.Record.{pack};
ghost use Rattle.zonotope.specs.Answer.{examined};
ghost use Rattle.answers.specs.Answer.{resulted};
ghost use Rattle.bodies.specs.Set.{SetBody};
ghost use Rattle.fields.specs.Sets.{of_layout, of_contents, of_summand};

use zonotope::{Cause, PolyZonotope};

// The set in the body of a sum or a hull, for n coordinates: 3, 4, 3, 5, 6, 7, 8.
pub fn summand(n: usize, body: &[u8]) -> Result<PolyZonotope, Cause>
    ensures { result ≡ resulted (first_of (of_summand n body.now)) (given_set body.now) }
{
    of_layout(body)?;
    if words::byte_at(body, 0) != n {
        return Err(Cause::Dimension);
    }
    read(body)
}

// The set that a body of the right length gives: 6, 7, 8.
pub fn read(body: &[u8]) -> Result<PolyZonotope, Cause>
    requires { SetBody body.now }
    ensures { result ≡ resulted (first_of (of_contents body.now)) (given_set body.now) }
{
    let s = bodies::set(body);
    of_contents(s, body)?;
    Ok(s)
}

// Whether the body is as long as the counts of its set say: 3, 4, 3.
pub fn of_layout(body: &[u8]) -> Result<(), Cause>
    ensures { result ≡ examined (first_of (of_layout body.now)) }
{
    if body.len() < 4 {
        return Err(Cause::Length);
    }
    if bodies::set_counts_out(body) {
        return Err(Cause::Count);
    }
    if body.len() != bodies::set_length(body) {
        return Err(Cause::Length);
    }
    Ok(())
}

// Whether s, which the body gives, is a set of a file: 6, 7, 8.
fn of_contents(s: PolyZonotope, body: &[u8]) -> Result<(), Cause>
    requires { SetBody body.now × (s ≡ pack (given_set body.now)) }
    ensures { result ≡ examined (first_of (of_contents body.now)) }
{
    if bodies::large_identifier(body) | bodies::negative_radius(body) {
        return Err(Cause::Range);
    }
    zonotope::examine(s)
}
