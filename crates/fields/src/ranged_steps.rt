// A ranged step: a step whose entries of A and Q are known within half-widths, which follow them in the body.
ghost use Rattle.std.specs.Prelude.{◌≡◌, ◌≤◌, pos, length};
ghost use Rattle.model.specs.Body.{ranged_length, given_step, given_widths};
ghost use Rattle.model.specs.Field.{ranged_step, negative_width};
ghost use Rattle.model.specs.Run.{first_of};
ghost use Rattle.zonotope.specs.Record.{view};
ghost use Rattle.zonotope.specs.Answer.{examined};
ghost use Rattle.answers.specs.Answer.{resulted};
ghost use Rattle.answers.specs.Accepted.{AcceptedRecord};
ghost use Rattle.stepping.specs.Work.{work_numbers, work_exponents};
ghost use Rattle.fields.specs.Refusal.{body_refusal, result_of};
ghost use Rattle.fields.specs.Effect.{effect};
ghost use Rattle.fields.specs.Asked.{step_from, widths_from};
ghost use Rattle.fields.specs.Steps.{Worked, layout_of, BodyLaid, RangedBy, of_ranged_words};

use crate::steps::{self, Entries};
use crate::{Effect, effects};
use zonotope::{Cause, PolyZonotope};

// The half-widths beside the entries of A and of Q: the sizes of words, and whether one of the words is negative.
#[derive(Clone, Copy)]
struct Widths<'a> {
    linear: &'a [u32],
    quadratic: &'a [u32],
    negative: bool,
}

// What a ranged step does; the next identifier and the work space as for a step.
pub fn effect(
    first: PolyZonotope,
    next: u32,
    body: &[u8],
    w: &mut [i64],
    e: &mut [u8],
) -> Result<Effect, Cause>
    requires { AcceptedRecord first × (work_numbers ≤ length w.old) × (work_exponents ≤ length e.old) }
    ensures value { result ≡ effect ranged_step body.now next first }
    ensures numbers { Worked (pos 0) (body_refusal ranged_step body.now next (view first)) work_numbers w.old w.new }
    ensures exponents { Worked 0 (body_refusal ranged_step body.now next (view first)) work_exponents e.old e.new }
{
    effects::boxed(step(first, body, w, e), next)
}

// The set's image under the ranged step of the body.
fn step(s: PolyZonotope, body: &[u8], w: &mut [i64], e: &mut [u8]) -> Result<PolyZonotope, Cause>
    requires { AcceptedRecord s × (work_numbers ≤ length w.old) × (work_exponents ≤ length e.old) }
    ensures value { result ≡ resulted (body_refusal ranged_step body.now 0 (view s))
        (result_of ranged_step body.now 0 (view s)) }
    ensures numbers { Worked (pos 0) (body_refusal ranged_step body.now 0 (view s)) work_numbers w.old w.new }
    ensures exponents { Worked 0 (body_refusal ranged_step body.now 0 (view s)) work_exponents e.old e.new }
{
    of_layout(body)?;
    read(s, body, w, e)
}

// The ranged step of a body of the right length: 5, 6, 10.
fn read(s: PolyZonotope, body: &[u8], w: &mut [i64], e: &mut [u8]) -> Result<PolyZonotope, Cause>
    requires { BodyLaid body.now (ranged_length body.now) × AcceptedRecord s
        × (work_numbers ≤ length w.old) × (work_exponents ≤ length e.old) }
    ensures { RangedBy (given_step body.now) (given_widths body.now) (negative_width body.now) s result
        w.old w.new e.old e.new }
{
    let rows = words::byte_at(body, 0);
    let columns = words::byte_at(body, 1);
    let linears = rows * columns;
    let quadratics = linears * columns;
    let mut c = [0i32; 6];
    let mut a = [0i32; 36];
    let mut q = [0i32; 216];
    let mut da = [0u32; 36];
    let mut dq = [0u32; 216];
    let constant = &mut c[..rows];
    let linear = &mut a[..linears];
    let quadratic = &mut q[..quadratics];
    let linear_widths = &mut da[..linears];
    let quadratic_widths = &mut dq[..quadratics];
    bodies::step(body, constant, linear, quadratic);
    bodies::widths(body, linear_widths, quadratic_widths);
    let entries = Entries {
        rows,
        columns,
        constant,
        linear,
        quadratic,
    };
    let widths = Widths {
        linear: linear_widths,
        quadratic: quadratic_widths,
        negative: bodies::negative_width(body),
    };
    stepped(s, entries, widths, w, e)
}

// The ranged step with these entries and half-widths: 4, 3, 3, 5, 6, 6, 6, 10.
fn stepped(
    s: PolyZonotope,
    p: Entries,
    d: Widths,
    w: &mut [i64],
    e: &mut [u8],
) -> Result<PolyZonotope, Cause>
    requires { AcceptedRecord s × (work_numbers ≤ length w.old) × (work_exponents ≤ length e.old) }
    ensures { RangedBy (step_from p.entry) (widths_from d.entry) d.entry.negative s result w.old w.new e.old e.new }
{
    of_words(s.dimension, p, d)?;
    let gains = widths::gains(p.rows, p.columns, d.linear, d.quadratic, s);
    steps::worked_out(s, p, &gains, w, e)
}

// The first cause that refuses them before the result is looked at.
fn of_words(dimension: usize, p: Entries, d: Widths) -> Result<(), Cause>
    ensures { result ≡ examined (first_of (of_ranged_words (step_from p.entry) (widths_from d.entry) d.entry.negative dimension)) }
{
    stepping::arguments::of_ranged_step(
        dimension,
        p.rows,
        p.columns,
        p.constant,
        p.linear,
        p.quadratic,
        d.linear,
        d.quadratic,
    )?;
    if d.negative {
        return Err(Cause::Range);
    }
    Ok(())
}

// Whether the body is as long as its counts say: 3, 4, 3.
fn of_layout(body: &[u8]) -> Result<(), Cause>
    ensures { result ≡ examined (first_of (layout_of body.now (ranged_length body.now))) }
{
    if body.len() < 2 {
        return Err(Cause::Length);
    }
    if bodies::step_counts_out(body) {
        return Err(Cause::Count);
    }
    if body.len() != bodies::ranged_length(body) {
        return Err(Cause::Length);
    }
    Ok(())
}
