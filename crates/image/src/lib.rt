// The image of a set under a polynomial step, before it is finished: raw numbers, then each rounded, with what rounding and the independent
// part add to the radii.
#![tactic(auto)]

ghost use Rattle.std.specs.Prelude.{◌*◌, ◌≤◌, length};
ghost use Rattle.rows.specs.Rows.{Small};
ghost use Rattle.forms.specs.Numbers.{six};
ghost use Rattle.forms.specs.RowsTo.{RowsTo};
ghost use Rattle.raw.specs.Accepted.{InSpan};
ghost use Rattle.image.specs.StepAccepted.{StepAccepted, step_of};
ghost use Rattle.image.specs.Remainder.{Below};
ghost use Rattle.image.specs.Gaining.{gain_limit, Gaining};
ghost use Rattle.image.specs.Imaged.{Imaged};

pub mod remainder;
pub mod rounding;

use zonotope::PolyZonotope;

// An image: its terms stand in the first rows of the work slices, the rest here. Its radii are what is carried and what rounding added.
#[derive(Clone, Copy)]
pub struct Image {
    pub rows: usize,
    pub centre: [i64; 6],
    pub generators: [i64; 144],
    pub carried: [u64; 6],
    pub rounded: [u64; 6],
}

// The image of s under the step x' = c + Ax + Q(x, x) to m coordinates from n, where S of each coordinate gains a number.
pub fn of_step(
    m: usize,
    n: usize,
    c: &[i32],
    a: &[i32],
    q: &[i32],
    s: PolyZonotope,
    gains: &[u64; 6],
    w: &mut [i64],
    e: &mut [u8],
) -> Image
    requires { StepAccepted (step_of m n c.now a.now q.now) × InSpan s × Gaining m gains.now
        × (5160 ≤ length w.old) × (10320 ≤ length e.old) }
    ensures { Imaged (step_of m n c.now a.now q.now) gains.now s
        e.old w.old result e.new w.new }
{
    let constant = forms::wide_constant(c);
    let linear = forms::wide_linear(a, n);
    let quadratic = forms::wide_quadratic(q, n);
    of_wide_step(m, &constant, &linear, &quadratic, s, gains, w, e)
}

// The image under a step on six coordinates that has rows and forms for the first m only.
fn of_wide_step(
    m: usize,
    c: &[i32; 6],
    a: &[i64; 36],
    q: &[i32; 216],
    s: PolyZonotope,
    gains: &[u64; 6],
    w: &mut [i64],
    e: &mut [u8],
) -> Image
    requires { (m ≤ 6) × Small 1048576 c.now × Small 32768 a.now × Small 32768 q.now × RowsTo m a.now × RowsTo (m * 6) q.now
        × InSpan s × Below gain_limit gains.now × (5160 ≤ length w.old) × (10320 ≤ length e.old) }
    ensures { Imaged (six c.now a.now q.now) gains.now s
        e.old w.old result e.new w.new }
{
    let k = s.centre;
    let both = forms::both_ways(q);
    let lines = forms::lines(a, &both, &k);
    let rows = raw::terms::all_rows(w, e, &lines, &both, s, m);
    let mut centre = raw::parts::centre(c, a, &lines, s);
    let mut generators = raw::parts::generators(&lines, s, m);
    let g = s.generators;
    let counts = rounding::counts(w, rows, &centre, &generators, g);
    let rounded = rounding::halves(&counts);
    let carried = remainder::carried(&lines, q, s, gains);
    rounding::round_first(w, rows * 6);
    rounding::round_first(&mut centre, 6);
    rounding::round_first(&mut generators, 144);
    Image {
        rows,
        centre,
        generators,
        carried,
        rounded,
    }
}
