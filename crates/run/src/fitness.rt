// Whether a call can be taken: room in the work slices, then the state.
ghost use Rattle.std.specs.Prelude.{false, ◌≡◌, ◌<◌};
ghost use Rattle.zonotope.specs.Answer.{Accepted, examined};
ghost use Rattle.step.specs.Answer.{without_room};
ghost use Rattle.advance.specs.Running.{Running};
ghost use Rattle.model.specs.Run.{first_of};
ghost use Rattle.run.specs.Unfit.{unfit, of_rest, bad_totals};

use states::State;
use zonotope::Cause;

// The most that folding can add to a radius in a run: the largest span in each of 4,096 fields.
const MAX_TOTAL: u64 = 4294967296;

// 13: whether a work slice is too short for a step.
pub fn no_room(numbers: usize, exponents: usize) -> bool
    ensures { result ≡ without_room numbers exponents }
{
    (numbers < stepping::WORK_NUMBERS) | (exponents < stepping::WORK_EXPONENTS)
}

// The first cause that refuses a call: 13, the set where a field was accepted, the next identifier, the totals of what folding added.
pub fn of_call(st: State, numbers: usize, exponents: usize) -> Result<(), Cause>
    ensures value { result ≡ examined (unfit (without_room numbers exponents) st) }
    ensures running { result ≡ Accepted → Running st }
{
    if no_room(numbers, exponents) {
        return Err(Cause::WorkTooShort);
    }
    if st.count == 0 {
        return of_range(st);
    }
    of_state(st)
}

// Where no field was accepted.
fn of_range(st: State) -> Result<(), Cause>
    requires { st.count ≡ 0 }
    ensures value { result ≡ examined (unfit false st) }
    ensures running { result ≡ Accepted → Running st }
{
    of_rest(fresh::out_of_range(st.next), st.folded)
}

// Where one was.
fn of_state(st: State) -> Result<(), Cause>
    requires { 0 < st.count }
    ensures value { result ≡ examined (unfit false st) }
    ensures running { result ≡ Accepted → Running st }
{
    zonotope::examine(st.set)?;
    of_rest(fresh::bad_next(st.set, st.next), st.folded)
}

// What is asked after the set: 11 where the next identifier is bad, then 6 for the totals.
fn of_rest(bad: bool, totals: [u64; 6]) -> Result<(), Cause>
    ensures { result ≡ examined (first_of (of_rest bad totals)) }
{
    if bad {
        return Err(Cause::NextIdentifier);
    }
    if totals_out(totals) {
        return Err(Cause::Range);
    }
    Ok(())
}

// 6: whether a total is more than folding can add in a run.
fn totals_out(totals: [u64; 6]) -> bool
    ensures { result ≡ bad_totals totals }
{
    totals.iter().any(|total| MAX_TOTAL < *total)
}
