// Under the calls that give a step: the image of an accepted set under an accepted step, rounded and finished; the tests of a step's own
// numbers; the work slices cleared.
#![tactic(auto)]

ghost use Rattle.std.specs.Prelude.{◌≡◌, ℕ, ◌≤◌, pos, length, get_or};
ghost use Rattle.model.specs.Limits.{standard_weights};
ghost use Rattle.model.specs.Ranged.{gaining_step};
ghost use Rattle.zonotope.specs.Record.{view};
ghost use Rattle.raw.specs.Append.{KeptFrom};
ghost use Rattle.image.specs.StepAccepted.{StepAccepted, step_of};
ghost use Rattle.image.specs.Gaining.{Gaining};
ghost use Rattle.answers.specs.Answer.{settled};
ghost use Rattle.answers.specs.Accepted.{AcceptedRecord};
ghost use Rattle.stepping.specs.Work.{work_numbers, work_exponents};

use finish::Unfinished;
use zonotope::{Cause, PolyZonotope};

pub mod arguments;
pub mod work;

// How many places of its work slices a step needs.
pub const WORK_NUMBERS: usize = 5160;

pub const WORK_EXPONENTS: usize = 10320;

// The image of s where S of each coordinate gains a number, finished with the limits of a set. It is made in the first places of w and e.
pub fn image_finished(
    s: PolyZonotope,
    m: usize,
    n: usize,
    c: &[i32],
    a: &[i32],
    q: &[i32],
    gains: &[u64; 6],
    w: &mut [i64],
    e: &mut [u8],
) -> Result<PolyZonotope, Cause>
    requires { AcceptedRecord s × StepAccepted (step_of m n c.now a.now q.now) × Gaining m gains.now
        × (work_numbers ≤ length w.old) × (work_exponents ≤ length e.old) }
    ensures value { result ≡ settled (gaining_step standard_weights (λ (i : ℕ). get_or gains.now i 0)
        (step_of m n c.now a.now q.now) (view s)) }
    ensures numbers { KeptFrom (pos 0) work_numbers w.old w.new }
    ensures exponents { KeptFrom 0 work_exponents e.old e.new }
{
    let image = image::of_step(m, n, c, a, q, s, gains, w, e);
    let rows = image.rows;
    let identifiers = s.identifiers;
    let centre = image.centre;
    let u = Unfinished {
        dimension: m,
        factors: s.factors,
        identifiers,
        centre,
        radii: zonotope::parts::anew(image.carried, image.rounded),
    };
    let mut g = image.generators;
    answers::finishing::finish_rows(
        u,
        &e[0..rows * 12],
        &w[0..rows * 6],
        rows,
        &mut g,
        s.generators,
        zonotope::MAX_TERMS,
        zonotope::MAX_GENERATORS,
    )
}
