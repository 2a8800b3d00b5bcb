// The calls of a run.
ghost use Rattle.std.specs.Prelude.{◌≡◌, pos, length};
ghost use Rattle.stepping.specs.Work.{work_numbers, work_exponents};
ghost use Rattle.step.specs.Answer.{without_room, cleared_if};
ghost use Rattle.states.specs.State.{beginning};
ghost use Rattle.run.specs.Field.{fielded, field_worked};
ghost use Rattle.run.specs.Whole.{ran_of, run_worked};

use run::Ran;
use states::{Fielded, State};

pub fn begin() -> State
    ensures { result ≡ beginning }
{
    run::begin()
}

pub fn field(st: State, place: usize, rest: &[u8], w: &mut [i64], e: &mut [u8]) -> Fielded
    ensures value { result ≡ fielded (without_room (length w.old) (length e.old)) place st rest.now }
    ensures numbers { w.new ≡ cleared_if (field_worked (without_room (length w.old) (length e.old)) st
        rest.now) work_numbers (pos 0) w.old }
    ensures exponents { e.new ≡ cleared_if (field_worked (without_room (length w.old) (length e.old)) st
        rest.now) work_exponents 0 e.old }
{
    run::field(st, place, rest, w, e)
}

pub fn run(input: &[u8], w: &mut [i64], e: &mut [u8]) -> Ran
    ensures value { result ≡ ran_of (without_room (length w.old) (length e.old)) input.now }
    ensures numbers { w.new ≡ cleared_if (run_worked (without_room (length w.old) (length e.old))
        input.now) work_numbers (pos 0) w.old }
    ensures exponents { e.new ≡ cleared_if (run_worked (without_room (length w.old) (length e.old))
        input.now) work_exponents 0 e.old }
{
    run::run(input, w, e)
}
