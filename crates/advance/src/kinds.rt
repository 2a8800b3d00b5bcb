// A field by its kind: one line each.
ghost use Rattle.std.specs.Prelude.{◌≡◌, ◌≤◌, pos, length};
ghost use Rattle.stepping.specs.Work.{work_numbers, work_exponents};
ghost use Rattle.fields.specs.Kinds.{meant};
ghost use Rattle.fields.specs.Effect.{effect, Used};
ghost use Rattle.advance.specs.Running.{Ready};
ghost use Rattle.advance.specs.Advanced.{field_works};

use fields::{Effect, Kind};
use states::State;
use zonotope::Cause;

// What a field of this kind does to the set.
pub fn effect(
    kind: Kind,
    st: State,
    body: &[u8],
    w: &mut [i64],
    e: &mut [u8],
) -> Result<Effect, Cause>
    requires { Ready st kind × (work_numbers ≤ length w.old) × (work_exponents ≤ length e.old) }
    ensures value { result ≡ effect (meant kind) body.now st.next st.set }
    ensures numbers { Used (field_works (meant kind) body.now st) (pos 0) work_numbers w.old w.new }
    ensures exponents { Used (field_works (meant kind) body.now st) 0 work_exponents e.old e.new }
{
    match kind {
        Kind::Start => fields::starts::effect(st.next, body),
        Kind::Step => fields::steps::effect(st.set, st.next, body, w, e),
        Kind::Disturbance => fields::disturbances::effect(st.set, st.next, body),
        Kind::IndependentSum => fields::independent_sums::effect(st.set, st.next, body),
        Kind::TiedSum => fields::tied_sums::effect(st.set, st.next, body),
        Kind::Reduction => fields::reductions::effect(st.set, st.next, body),
        Kind::Check => fields::checks::effect(st.set, st.next, body),
        Kind::Hull => fields::hulls::effect(st.set, st.next, body),
        Kind::RangedStep => fields::ranged_steps::effect(st.set, st.next, body, w, e),
    }
}
