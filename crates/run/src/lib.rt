// A run: one field after the other, from the bytes of a run file to answers. No call asks anything of its caller.
#![tactic(auto)]

ghost use Rattle.std.specs.Prelude.{◌≡◌, pos, length};
ghost use Rattle.stepping.specs.Work.{work_numbers, work_exponents};
ghost use Rattle.step.specs.Answer.{without_room, cleared_if};
ghost use Rattle.states.specs.State.{beginning};
ghost use Rattle.run.specs.Field.{fielded, field_worked};
ghost use Rattle.run.specs.Whole.{ran_of, run_worked};

use states::{Answer, Fielded, State};

mod fitness;
mod following;
mod taking;

// Document 01's first of the next identifiers (the mark).
const FIRST_FRESH: u32 = 65536;

// What a whole input comes to: how many of its fields were accepted, the answer for the last one that was looked at, and the state then.
#[derive(Clone, Copy)]
pub struct Ran {
    pub accepted: usize,
    pub last: Answer,
    pub state: State,
}

// The state of a run that has no set yet.
pub fn begin() -> State
    ensures { result ≡ beginning }
{
    State {
        set: zonotope::empty(),
        next: FIRST_FRESH,
        count: 0,
        over: false,
        folded: [0; 6],
    }
}

// One field: `rest` is what is left of the input from the field's first byte on, at this place. The field is as long as its header says,
// the last one what is left. w and e are work space; where a step was worked out their first 5,160 and 10,320 places are 0 afterwards, all
// else is as it was.
pub fn field(st: State, place: usize, rest: &[u8], w: &mut [i64], e: &mut [u8]) -> Fielded
    ensures value { result ≡ fielded (without_room (length w.old) (length e.old)) place st rest.now }
    ensures numbers { w.new ≡ cleared_if (field_worked (without_room (length w.old) (length e.old)) st
        rest.now) work_numbers (pos 0) w.old }
    ensures exponents { e.new ≡ cleared_if (field_worked (without_room (length w.old) (length e.old)) st
        rest.now) work_exponents 0 e.old }
{
    match fitness::of_call(st, w.len(), e.len()) {
        Ok(()) => taking::taken(st, place, rest, w, e),
        Err(cause) => taking::unfit(st, cause),
    }
}

// A whole input, from the beginning to its end or its first refusal. The work slices as for a field.
pub fn run(input: &[u8], w: &mut [i64], e: &mut [u8]) -> Ran
    ensures value { result ≡ ran_of (without_room (length w.old) (length e.old)) input.now }
    ensures numbers { w.new ≡ cleared_if (run_worked (without_room (length w.old) (length e.old))
        input.now) work_numbers (pos 0) w.old }
    ensures exponents { e.new ≡ cleared_if (run_worked (without_room (length w.old) (length e.old))
        input.now) work_exponents 0 e.old }
{
    if fitness::no_room(w.len(), e.len()) {
        return following::unfit();
    }
    following::whole(input, w, e)
}
