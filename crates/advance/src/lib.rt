// One field given to a state that a run can have. A part of `run`, and of the programs that take fields as they come.
#![tactic(auto)]

ghost use Rattle.std.specs.Prelude.{◌≡◌, false, ◌≤◌, pos, length};
ghost use Rattle.std.proofs.Math.Option.{none};
ghost use Rattle.model.specs.Bytes.{byte};
ghost use Rattle.model.specs.Run.{first_of, first_field};
ghost use Rattle.stepping.specs.Work.{work_numbers, work_exponents};
ghost use Rattle.fields.specs.Kinds.{tag_of};
ghost use Rattle.advance.specs.Header.{of_header};
ghost use Rattle.advance.specs.Running.{Running};
ghost use Rattle.advance.specs.Advanced.{advanced, Used};

use fields::Kind;
use states::{Answer, State};

mod conclusion;
pub mod headers;
mod kinds;
mod totals;

// A field's header: how many bytes the field has, as many as the header says or all that are left, and whether it is there as a whole.
#[derive(Clone, Copy)]
pub struct Header {
    pub bytes: usize,
    pub whole: bool,
}

// An answer, the state that the field leaves, and whether a step was worked out in the work slices.
#[derive(Clone, Copy)]
pub struct Advanced {
    pub answer: Answer,
    pub state: State,
    pub worked: bool,
}

// The field with which `rest` begins, at this place of the input. The body is passed on as the part of `rest` that it fills. Of the work
// slices only the first places are used, and only by a step that is worked out.
pub fn advance(st: State, place: usize, rest: &[u8], w: &mut [i64], e: &mut [u8]) -> Advanced
    requires { Running st × (work_numbers ≤ length w.old) × (work_exponents ≤ length e.old) }
    ensures value { result ≡ advanced place st (first_field rest.now) }
    ensures numbers { Used result.worked (pos 0) work_numbers w.old w.new }
    ensures exponents { Used result.worked 0 work_exponents e.old e.new }
{
    let h = headers::read(rest);
    if st.over {
        return conclusion::skipped(st, h.bytes);
    }
    match headers::kind(st.count, rest, h.whole) {
        Ok(kind) => whole(st, kind, place, rest, h.bytes, w, e),
        Err(cause) => conclusion::refused(st, place, h.bytes, cause, false),
    }
}

// A field of this kind whose header passed, in a run that isn't over.
fn whole(
    st: State,
    kind: Kind,
    place: usize,
    rest: &[u8],
    bytes: usize,
    w: &mut [i64],
    e: &mut [u8],
) -> Advanced
    requires { Running st × (st.over ≡ false) × (first_of (of_header st.count (first_field rest.now)) ≡ none)
        × (tag_of kind ≡ byte rest.now 0) × (bytes ≡ length (first_field rest.now))
        × (work_numbers ≤ length w.old) × (work_exponents ≤ length e.old) }
    ensures value { result ≡ advanced place st (first_field rest.now) }
    ensures numbers { Used result.worked (pos 0) work_numbers w.old w.new }
    ensures exponents { Used result.worked 0 work_exponents e.old e.new }
{
    let r = kinds::effect(kind, st, &rest[3..bytes], w, e);
    conclusion::concluded(st, kind, place, bytes, r)
}
