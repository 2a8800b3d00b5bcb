// A whole input, one field after the other.
ghost use Rattle.std.specs.Prelude.{◌≡◌, ◌≤◌, pos, length};
ghost use Rattle.model.specs.Run.{begin, fields};
ghost use Rattle.stepping.specs.Work.{work_numbers, work_exponents};
ghost use Rattle.step.specs.Answer.{cleared_if};
ghost use Rattle.zonotope.specs.declared.Cause.TheVariants.{WorkTooShort};
ghost use Rattle.states.specs.State.{beginning};
ghost use Rattle.states.specs.Answer.{unfit_answer};
ghost use Rattle.run.specs.Whole.{of_input, any_worked};

use crate::{Ran, taking};
use zonotope::Cause;

// Without room in the work slices nothing is looked at.
pub fn unfit() -> Ran
    ensures { result ≡ record { accepted = 0; last = unfit_answer 0 WorkTooShort; state = beginning } }
{
    Ran {
        accepted: 0,
        last: taking::unfit_answer(0, Cause::WorkTooShort),
        state: crate::begin(),
    }
}

// One field after the other, until the run is over or the input at its end; the work slices are cleared once, at the end, where they were
// used.
pub fn whole(input: &[u8], w: &mut [i64], e: &mut [u8]) -> Ran
    requires { (work_numbers ≤ length w.old) × (work_exponents ≤ length e.old) }
    ensures value { result ≡ of_input input.now }
    ensures numbers { w.new ≡ cleared_if (any_worked begin (fields input.now)) work_numbers (pos 0) w.old }
    ensures exponents { e.new ≡ cleared_if (any_worked begin (fields input.now)) work_exponents 0 e.old }
{
    let mut state = crate::begin();
    let mut at = 0;
    let mut worked = false;
    loop {
        let a = advance::advance(state, at, &input[at..], w, e);
        state = a.state;
        at += a.answer.bytes;
        worked |= a.worked;
        if state.over | (at == input.len()) {
            taking::clear_used(worked, w, e);
            return Ran {
                accepted: state.count,
                last: a.answer,
                state,
            };
        }
    }
}
