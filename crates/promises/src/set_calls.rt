// The calls on single sets.
ghost use Rattle.std.specs.Prelude.{◌≡◌, pos};
ghost use Rattle.model.specs.Limits.{standard_weights};
ghost use Rattle.model.specs.Run.{no_set};
ghost use Rattle.model.specs.Operations.{disturb, reduce, tied_sum, independent_sum};
ghost use Rattle.model.specs.Hull.{hull};
ghost use Rattle.model.specs.Step.{step};
ghost use Rattle.model.specs.Ranged.{ranged_step};
ghost use Rattle.model.specs.Library.{examine, disturb_refusal, reduce_refusal, tied_refusal, independent_refusal, hull_refusal};
ghost use Rattle.zonotope.specs.Record.{view, pack, given};
ghost use Rattle.zonotope.specs.Shape.{Sized};
ghost use Rattle.zonotope.specs.Answer.{Accepted, examined};
ghost use Rattle.bounds.specs.Answer.{bounds_of, verdict_of};
ghost use Rattle.answers.specs.Answer.{answered};
ghost use Rattle.image.specs.StepAccepted.{step_of};
ghost use Rattle.widths.specs.Widths.{widths_of};
ghost use Rattle.stepping.specs.Work.{work_numbers, work_exponents};
ghost use Rattle.step.specs.Answer.{refusal_of, ranged_refusal_of, left_in};

use answers::Changed;
use verdicts::{Ends, Verdict};
use zonotope::{Cause, PolyZonotope};

pub fn empty() -> PolyZonotope
    ensures { result ≡ pack no_set }
{
    zonotope::empty()
}

pub fn examine(s: PolyZonotope) -> Result<(), Cause>
    ensures value { result ≡ examined (examine (given s)) }
    ensures sized { result ≡ Accepted → Sized s }
{
    zonotope::examine(s)
}

pub fn box_of(s: PolyZonotope) -> Result<Ends, Cause>
    ensures { result ≡ bounds_of (given s) }
{
    bounds::box_of(s)
}

pub fn check(
    s: PolyZonotope,
    n: usize,
    count: usize,
    normals: &[i32],
    bounds: &[i64],
) -> Result<Verdict, Cause>
    ensures { result ≡ verdict_of n count normals.now bounds.now (given s) }
{
    bounds::check(s, n, count, normals, bounds)
}

pub fn disturb(s: PolyZonotope, n: usize, radii: &[u32]) -> Changed
    ensures { result ≡ answered (disturb_refusal n radii.now (given s)) s (disturb radii.now (view s)) }
{
    sums::disturb(s, n, radii)
}

pub fn reduce(s: PolyZonotope, term_limit: usize, generator_limit: usize) -> Changed
    ensures { result ≡ answered (reduce_refusal term_limit generator_limit (given s)) s
        (reduce standard_weights term_limit generator_limit (view s)) }
{
    sums::reduce(s, term_limit, generator_limit)
}

pub fn tied_sum(first: PolyZonotope, second: PolyZonotope) -> Changed
    ensures { result ≡ answered (tied_refusal (given first) (given second)) first (tied_sum standard_weights (view first) (view second)) }
{
    sums::tied_sum(first, second)
}

pub fn independent_sum(first: PolyZonotope, second: PolyZonotope, next: u32) -> Changed
    ensures { result ≡ answered (independent_refusal next (given first) (given second)) first
        (independent_sum standard_weights next (view first) (view second)) }
{
    sums::independent_sum(first, second, next)
}

pub fn hull(first: PolyZonotope, second: PolyZonotope, next: u32) -> Changed
    ensures { result ≡ answered (hull_refusal next (given first) (given second)) first
        (hull standard_weights next (view first) (view second)) }
{
    hull::hull(first, second, next)
}

pub fn step(
    s: PolyZonotope,
    m: usize,
    n: usize,
    c: &[i32],
    a: &[i32],
    q: &[i32],
    w: &mut [i64],
    e: &mut [u8],
) -> Changed
    ensures value { result ≡ answered (refusal_of w.old e.old
        (step_of m n c.now a.now q.now) (given s)) s
        (step standard_weights (step_of m n c.now a.now q.now) (view s)) }
    ensures numbers { w.new ≡ left_in (refusal_of w.old e.old
        (step_of m n c.now a.now q.now) (given s)) work_numbers (pos 0) w.old }
    ensures exponents { e.new ≡ left_in (refusal_of w.old e.old
        (step_of m n c.now a.now q.now) (given s)) work_exponents 0 e.old }
{
    step::step(s, m, n, c, a, q, w, e)
}

pub fn ranged_step(
    s: PolyZonotope,
    m: usize,
    n: usize,
    c: &[i32],
    a: &[i32],
    q: &[i32],
    da: &[u32],
    dq: &[u32],
    w: &mut [i64],
    e: &mut [u8],
) -> Changed
    ensures value { result ≡ answered (ranged_refusal_of w.old e.old
        (step_of m n c.now a.now q.now) (widths_of da.now dq.now) (given s)) s
        (ranged_step standard_weights (step_of m n c.now a.now q.now)
        (widths_of da.now dq.now) (view s)) }
    ensures numbers { w.new ≡ left_in (ranged_refusal_of w.old e.old
        (step_of m n c.now a.now q.now) (widths_of da.now dq.now) (given s))
        work_numbers (pos 0) w.old }
    ensures exponents { e.new ≡ left_in (ranged_refusal_of w.old e.old
        (step_of m n c.now a.now q.now) (widths_of da.now dq.now) (given s))
        work_exponents 0 e.old }
{
    step::ranged_step(s, m, n, c, a, q, da, dq, w, e)
}
