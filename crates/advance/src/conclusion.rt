// What a field answers and leaves, by what was found.
ghost use Rattle.std.specs.Prelude.{◌≡◌, ◌≤◌, eqb, IfOk};
ghost use Rattle.model.specs.Operations.{box};
ghost use Rattle.model.specs.Field.{describe};
ghost use Rattle.zonotope.specs.Record.{view};
ghost use Rattle.zonotope.specs.Answer.{number_of};
ghost use Rattle.states.specs.declared.Outcome.TheVariants.{Inside};
ghost use Rattle.states.specs.Answer.{no_box};
ghost use Rattle.fields.specs.Kinds.{meant};
ghost use Rattle.advance.specs.Totals.{Leavable};
ghost use Rattle.advance.specs.Concluded.{left_by, accepted_as, accepted_so, refused_so, skipped_as, concluded};

use crate::{Advanced, totals};
use fields::{Effect, Found, Kind};
use states::{Answer, Outcome, Refusal, State};
use zonotope::Cause;

// A field given to a run that is over.
pub fn skipped(st: State, bytes: usize) -> Advanced
    ensures { result ≡ skipped_as st bytes }
{
    Advanced {
        answer: Answer::without_box(st.count, bytes, Outcome::Skipped),
        state: st,
        worked: false,
    }
}

// A refused field ends the run and leaves the set and the totals.
pub fn refused(st: State, place: usize, bytes: usize, cause: Cause, worked: bool) -> Advanced
    ensures { result ≡ refused_so st place bytes cause worked }
{
    let refusal = Refusal { cause, place };
    Advanced {
        answer: Answer::without_box(st.count, bytes, Outcome::Refused(refusal)),
        state: State { over: true, ..st },
        worked,
    }
}

// By what a field of this kind does to the set.
pub fn concluded(
    st: State,
    kind: Kind,
    place: usize,
    bytes: usize,
    r: Result<Effect, Cause>,
) -> Advanced
    requires { IfOk r (λ m. Leavable st (describe (meant kind)).anew m.set) × (st.count ≤ 4096) }
    ensures { result ≡ concluded st place bytes kind r }
{
    match r {
        Ok(m) => accepted(st, kind, bytes, m),
        Err(cause) => refused(
            st,
            place,
            bytes,
            cause,
            kind.works() & for_its_result(cause),
        ),
    }
}

// Whether a cause refuses a field for its result, which was worked out.
fn for_its_result(cause: Cause) -> bool
    ensures { result ≡ eqb (number_of cause) 10 }
{
    matches!(cause, Cause::ResultTooWide)
}

// By what an accepted field comes to.
fn accepted(st: State, kind: Kind, bytes: usize, m: Effect) -> Advanced
    requires { Leavable st (describe (meant kind)).anew m.set × (st.count ≤ 4096) }
    ensures { result ≡ accepted_so m.found st bytes kind m }
{
    match m.found {
        Found::Inside => inside(st, kind, bytes, m),
        Found::Safe => judged(st, kind, bytes, Outcome::Safe, m),
        Found::Unknown => judged(st, kind, bytes, Outcome::Unknown, m),
    }
}

// One that answers with the box of its set.
fn inside(st: State, kind: Kind, bytes: usize, m: Effect) -> Advanced
    requires { Leavable st (describe (meant kind)).anew m.set × (st.count ≤ 4096) }
    ensures { result ≡ accepted_as st bytes Inside (box (view m.set)) kind m }
{
    let ends = verdicts::ends_of(m.set);
    let low = ends.low;
    let high = ends.high;
    let answer = Answer {
        field: st.count,
        bytes,
        outcome: Outcome::Inside,
        sides: m.set.dimension,
        low,
        high,
    };
    Advanced {
        answer,
        state: left(st, kind, m),
        worked: kind.works(),
    }
}

// One that answers with a verdict.
fn judged(st: State, kind: Kind, bytes: usize, outcome: Outcome, m: Effect) -> Advanced
    requires { Leavable st (describe (meant kind)).anew m.set × (st.count ≤ 4096) }
    ensures { result ≡ accepted_as st bytes outcome no_box kind m }
{
    Advanced {
        answer: Answer::without_box(st.count, bytes, outcome),
        state: left(st, kind, m),
        worked: kind.works(),
    }
}

// What an accepted field leaves.
fn left(st: State, kind: Kind, m: Effect) -> State
    requires { Leavable st (describe (meant kind)).anew m.set × (st.count ≤ 4096) }
    ensures { result ≡ left_by st kind m }
{
    State {
        set: m.set,
        next: m.next,
        count: st.count + 1,
        over: false,
        folded: totals::after(st, m.set, kind.makes_anew()),
    }
}
