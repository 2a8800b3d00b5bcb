// The polynomial step x' = c + Ax + Q(x, x) of a set, in lent work slices; also where A and Q are known within half-widths.
#![tactic(auto)]

ghost use Rattle.std.specs.Prelude.{◌≡◌, ℕ, ◌≤◌, pos, length, get_or};
ghost use Rattle.model.specs.Limits.{standard_weights};
ghost use Rattle.model.specs.Step.{step};
ghost use Rattle.model.specs.Ranged.{gaining_step, ranged_step};
ghost use Rattle.zonotope.specs.Record.{view, given};
ghost use Rattle.image.specs.StepAccepted.{StepAccepted, step_of};
ghost use Rattle.image.specs.Gaining.{Gaining};
ghost use Rattle.widths.specs.Widths.{widths_of};
ghost use Rattle.answers.specs.Answer.{answered};
ghost use Rattle.answers.specs.Accepted.{AcceptedRecord};
ghost use Rattle.stepping.specs.Work.{work_numbers, work_exponents};
ghost use Rattle.step.specs.Answer.{refusal_of, ranged_refusal_of, left_in};
ghost use Rattle.step.specs.Called.{Called, WorkedOut};

use answers::Changed;
use zonotope::{Cause, PolyZonotope};

mod refusals;

// How many places of its work slices a step needs.
pub const WORK_NUMBERS: usize = stepping::WORK_NUMBERS;

pub const WORK_EXPONENTS: usize = stepping::WORK_EXPONENTS;

// The set's image under the step from n coordinates to m: c, then A by rows, then Q by forms and rows. w and e are work space; where the
// step was worked out, also where its result is refused with 10, their first 5,160 and 10,320 places are 0 afterwards. Else they are as
// they were, and so are all later places.
pub fn step(
    s: PolyZonotope,
    m: usize,
    n: usize,
    c: &[i32],
    a: &[i32],
    q: &[i32],
    w: &mut [i64],
    e: &mut [u8],
) -> Changed
    ensures value { result ≡ answered (refusal_of w.old e.old
        (step_of m n c.now a.now q.now) (given s)) s
        (step standard_weights (step_of m n c.now a.now q.now) (view s)) }
    ensures numbers { w.new ≡ left_in (refusal_of w.old e.old
        (step_of m n c.now a.now q.now) (given s)) work_numbers (pos 0) w.old }
    ensures exponents { e.new ≡ left_in (refusal_of w.old e.old
        (step_of m n c.now a.now q.now) (given s)) work_exponents 0 e.old }
{
    answers::answer(s, stepped(s, m, n, c, a, q, w, e))
}

// The set's image under the step with half-widths beside its entries: da beside A's and dq beside Q's, each as its entries stand. It holds
// the image under every step whose entries are within them. w and e are as `step` leaves them.
pub fn ranged_step(
    s: PolyZonotope,
    m: usize,
    n: usize,
    c: &[i32],
    a: &[i32],
    q: &[i32],
    da: &[u32],
    dq: &[u32],
    w: &mut [i64],
    e: &mut [u8],
) -> Changed
    ensures value { result ≡ answered (ranged_refusal_of w.old e.old
        (step_of m n c.now a.now q.now) (widths_of da.now dq.now) (given s)) s
        (ranged_step standard_weights (step_of m n c.now a.now q.now)
        (widths_of da.now dq.now) (view s)) }
    ensures numbers { w.new ≡ left_in (ranged_refusal_of w.old e.old
        (step_of m n c.now a.now q.now) (widths_of da.now dq.now) (given s))
        work_numbers (pos 0) w.old }
    ensures exponents { e.new ≡ left_in (ranged_refusal_of w.old e.old
        (step_of m n c.now a.now q.now) (widths_of da.now dq.now) (given s))
        work_exponents 0 e.old }
{
    answers::answer(s, ranged_stepped(s, m, n, c, a, q, da, dq, w, e))
}

// The result of a step: what refuses it before it is worked out, then its image.
fn stepped(
    s: PolyZonotope,
    m: usize,
    n: usize,
    c: &[i32],
    a: &[i32],
    q: &[i32],
    w: &mut [i64],
    e: &mut [u8],
) -> Result<PolyZonotope, Cause>
    ensures { Called (refusal_of w.old e.old (step_of m n c.now a.now q.now) (given s))
        (step standard_weights (step_of m n c.now a.now q.now) (view s)) result w.old w.new e.old e.new }
{
    refusals::of_room_and_set(s, w.len(), e.len())?;
    stepping::arguments::of_step(s.dimension, m, n, c, a, q)?;
    worked_out(s, m, n, c, a, q, &[0; 6], w, e)
}

// The same of a ranged step.
fn ranged_stepped(
    s: PolyZonotope,
    m: usize,
    n: usize,
    c: &[i32],
    a: &[i32],
    q: &[i32],
    da: &[u32],
    dq: &[u32],
    w: &mut [i64],
    e: &mut [u8],
) -> Result<PolyZonotope, Cause>
    ensures { Called (ranged_refusal_of w.old e.old (step_of m n c.now a.now q.now) (widths_of da.now dq.now) (given s))
        (ranged_step standard_weights (step_of m n c.now a.now q.now) (widths_of da.now dq.now) (view s)) result
        w.old w.new e.old e.new }
{
    refusals::of_room_and_set(s, w.len(), e.len())?;
    stepping::arguments::of_ranged_step(s.dimension, m, n, c, a, q, da, dq)?;
    let gains = widths::gains(m, n, da, dq, s);
    worked_out(s, m, n, c, a, q, &gains, w, e)
}

// The step where nothing that is asked before refuses it: the image, where S gains these numbers, made in the work slices, which are then
// cleared; 10.
fn worked_out(
    s: PolyZonotope,
    m: usize,
    n: usize,
    c: &[i32],
    a: &[i32],
    q: &[i32],
    gains: &[u64; 6],
    w: &mut [i64],
    e: &mut [u8],
) -> Result<PolyZonotope, Cause>
    requires { AcceptedRecord s × StepAccepted (step_of m n c.now a.now q.now) × Gaining m gains.now
        × (work_numbers ≤ length w.old) × (work_exponents ≤ length e.old) }
    ensures { WorkedOut (gaining_step standard_weights (λ (i : ℕ). get_or gains.now i 0)
        (step_of m n c.now a.now q.now) (view s)) result
        w.old w.new e.old e.new }
{
    let finished = stepping::image_finished(s, m, n, c, a, q, gains, w, e);
    stepping::work::clear_numbers(w);
    stepping::work::clear_exponents(e);
    finished
}
