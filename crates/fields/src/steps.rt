// A step: its entries are read from the body, and the set's image is made in lent work slices. What it shares with a ranged step.
ghost use Rattle.std.specs.Prelude.{◌≡◌, ℕ, ◌≤◌, pos, length, get_or};
ghost use Rattle.model.specs.Limits.{standard_weights};
ghost use Rattle.model.specs.Ranged.{gaining_step};
ghost use Rattle.model.specs.Body.{step_length, given_step};
ghost use Rattle.model.specs.Field.{step};
ghost use Rattle.model.specs.Run.{first_of};
ghost use Rattle.zonotope.specs.Record.{view};
ghost use Rattle.zonotope.specs.Answer.{examined};
ghost use Rattle.raw.specs.Append.{KeptFrom};
ghost use Rattle.image.specs.StepAccepted.{StepAccepted};
ghost use Rattle.image.specs.Gaining.{Gaining};
ghost use Rattle.answers.specs.Answer.{resulted, settled};
ghost use Rattle.answers.specs.Accepted.{AcceptedRecord};
ghost use Rattle.stepping.specs.Work.{work_numbers, work_exponents};
ghost use Rattle.fields.specs.Refusal.{body_refusal, result_of};
ghost use Rattle.fields.specs.Effect.{effect};
ghost use Rattle.fields.specs.Asked.{step_from};
ghost use Rattle.fields.specs.Steps.{Worked, layout_of, BodyLaid, SteppedBy};

use crate::{Effect, effects};
use zonotope::{Cause, PolyZonotope};

// The entries of a step from as many coordinates as it has columns to as many as it has rows: c, then A by rows, then Q by forms and rows.
#[derive(Clone, Copy)]
pub struct Entries<'a> {
    pub rows: usize,
    pub columns: usize,
    pub constant: &'a [i32],
    pub linear: &'a [i32],
    pub quadratic: &'a [i32],
}

// What a step does; the next identifier stays. w and e are work space: their first 5,160 and 10,320 places hold anything afterwards where
// the step was worked out, also where its result is refused with 10. Else they are as they were, and so are all later places.
pub fn effect(
    first: PolyZonotope,
    next: u32,
    body: &[u8],
    w: &mut [i64],
    e: &mut [u8],
) -> Result<Effect, Cause>
    requires { AcceptedRecord first × (work_numbers ≤ length w.old) × (work_exponents ≤ length e.old) }
    ensures value { result ≡ effect step body.now next first }
    ensures numbers { Worked (pos 0) (body_refusal step body.now next (view first)) work_numbers w.old w.new }
    ensures exponents { Worked 0 (body_refusal step body.now next (view first)) work_exponents e.old e.new }
{
    effects::boxed(step(first, body, w, e), next)
}

// The set's image under the step of the body.
fn step(s: PolyZonotope, body: &[u8], w: &mut [i64], e: &mut [u8]) -> Result<PolyZonotope, Cause>
    requires { AcceptedRecord s × (work_numbers ≤ length w.old) × (work_exponents ≤ length e.old) }
    ensures value { result ≡ resulted (body_refusal step body.now 0 (view s)) (result_of step body.now 0 (view s)) }
    ensures numbers { Worked (pos 0) (body_refusal step body.now 0 (view s)) work_numbers w.old w.new }
    ensures exponents { Worked 0 (body_refusal step body.now 0 (view s)) work_exponents e.old e.new }
{
    of_layout(body)?;
    read(s, body, w, e)
}

// The step of a body of the right length: 5, 6, 10.
fn read(s: PolyZonotope, body: &[u8], w: &mut [i64], e: &mut [u8]) -> Result<PolyZonotope, Cause>
    requires { BodyLaid body.now (step_length body.now) × AcceptedRecord s
        × (work_numbers ≤ length w.old) × (work_exponents ≤ length e.old) }
    ensures { SteppedBy (given_step body.now) s result w.old w.new e.old e.new }
{
    let rows = words::byte_at(body, 0);
    let columns = words::byte_at(body, 1);
    let mut c = [0i32; 6];
    let mut a = [0i32; 36];
    let mut q = [0i32; 216];
    let constant = &mut c[..rows];
    let linear = &mut a[..rows * columns];
    let quadratic = &mut q[..rows * columns * columns];
    bodies::step(body, constant, linear, quadratic);
    let entries = Entries {
        rows,
        columns,
        constant,
        linear,
        quadratic,
    };
    stepped(s, entries, w, e)
}

// The step with these entries: 4, 3, 5, 6, 10.
fn stepped(s: PolyZonotope, p: Entries, w: &mut [i64], e: &mut [u8]) -> Result<PolyZonotope, Cause>
    requires { AcceptedRecord s × (work_numbers ≤ length w.old) × (work_exponents ≤ length e.old) }
    ensures { SteppedBy (step_from p.entry) s result w.old w.new e.old e.new }
{
    stepping::arguments::of_step(
        s.dimension,
        p.rows,
        p.columns,
        p.constant,
        p.linear,
        p.quadratic,
    )?;
    worked_out(s, p, &[0; 6], w, e)
}

// Whether the body is as long as its counts say: 3, 4, 3.
fn of_layout(body: &[u8]) -> Result<(), Cause>
    ensures { result ≡ examined (first_of (layout_of body.now (step_length body.now))) }
{
    if body.len() < 2 {
        return Err(Cause::Length);
    }
    if bodies::step_counts_out(body) {
        return Err(Cause::Count);
    }
    if body.len() != bodies::step_length(body) {
        return Err(Cause::Length);
    }
    Ok(())
}

// The image where S of each coordinate gains a number: 10.
pub fn worked_out(
    s: PolyZonotope,
    p: Entries,
    gains: &[u64; 6],
    w: &mut [i64],
    e: &mut [u8],
) -> Result<PolyZonotope, Cause>
    requires { AcceptedRecord s × StepAccepted (step_from p) × Gaining p.rows gains.now
        × (work_numbers ≤ length w.old) × (work_exponents ≤ length e.old) }
    ensures value { result ≡ settled (gaining_step standard_weights (λ (i : ℕ). get_or gains.now i 0) (step_from p.entry) (view s)) }
    ensures numbers { KeptFrom (pos 0) work_numbers w.old w.new }
    ensures exponents { KeptFrom 0 work_exponents e.old e.new }
{
    stepping::image_finished(
        s,
        p.rows,
        p.columns,
        p.constant,
        p.linear,
        p.quadratic,
        gains,
        w,
        e,
    )
}
