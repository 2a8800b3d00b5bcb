// A field that is taken, and a call that is refused.
ghost use Rattle.std.specs.Prelude.{◌≡◌, ◌≤◌, pos, length};
ghost use Rattle.model.specs.Run.{first_field};
ghost use Rattle.stepping.specs.Work.{work_numbers, work_exponents};
ghost use Rattle.step.specs.Answer.{cleared_if};
ghost use Rattle.states.specs.State.{viewed};
ghost use Rattle.states.specs.Answer.{unfit_answer};
ghost use Rattle.states.specs.Taken.{taken};
ghost use Rattle.advance.specs.Running.{Running};
ghost use Rattle.advance.specs.Advanced.{step_worked};

use states::{Answer, Fielded, Outcome, State};
use zonotope::Cause;

// The answer of a call that is refused for this cause: it takes no byte.
#[tactic(auto, unfolding(states::specs::Answer::unfit_answer))]
pub fn unfit_answer(field: usize, cause: Cause) -> Answer
    ensures { result ≡ unfit_answer field cause }
{
    Answer::without_box(field, 0, Outcome::Unfit(cause))
}

// A call that is refused for this cause leaves the state as it came.
pub fn unfit(st: State, cause: Cause) -> Fielded
    ensures { result ≡ record { answer = unfit_answer st.count cause; state = st } }
{
    Fielded {
        answer: unfit_answer(st.count, cause),
        state: st,
    }
}

// The field with which `rest` begins, given to a state that a run can have; the work slices are cleared where they were used.
pub fn taken(st: State, place: usize, rest: &[u8], w: &mut [i64], e: &mut [u8]) -> Fielded
    requires { Running st × (work_numbers ≤ length w.old) × (work_exponents ≤ length e.old) }
    ensures value { result ≡ taken place st (first_field rest.now) }
    ensures numbers { w.new ≡ cleared_if (step_worked (viewed st) (first_field rest.now)) work_numbers (pos 0)
        w.old }
    ensures exponents { e.new ≡ cleared_if (step_worked (viewed st) (first_field rest.now)) work_exponents 0
        e.old }
{
    let a = advance::advance(st, place, rest, w, e);
    clear_used(a.worked, w, e);
    Fielded {
        answer: a.answer,
        state: a.state,
    }
}

// The work slices cleared, where a step was worked out in them.
pub fn clear_used(worked: bool, w: &mut [i64], e: &mut [u8])
    requires { (work_numbers ≤ length w.old) × (work_exponents ≤ length e.old) }
    ensures numbers { w.new ≡ cleared_if worked work_numbers (pos 0) w.old }
    ensures exponents { e.new ≡ cleared_if worked work_exponents 0 e.old }
{
    if worked {
        stepping::work::clear_numbers(w);
        stepping::work::clear_exponents(e);
    }
}
