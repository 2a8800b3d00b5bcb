// The spans of a set: no point of it is further from 0 in a coordinate.
ghost use Rattle.std.specs.Prelude.{◌≡◌, ◌<◌};
ghost use Rattle.whole.specs.Tab.{tab};
ghost use Rattle.model.specs.Set.{span};
ghost use Rattle.zonotope.specs.Record.{view};
ghost use Rattle.raw.specs.Accepted.{InSpan};
ghost use Rattle.image.specs.Remainder.{Below};
ghost use Rattle.widths.specs.Spanning.{span_sum};

use core::array;
use zonotope::{PolyZonotope, parts};

// Of each coordinate: the sizes of the centre, of the terms and of the generators, and the radius.
pub fn of_set(s: PolyZonotope) -> [u64; 6]
    requires { InSpan s }
    ensures { (result ≡ tab 6 (span (view s))) × Below 1048576 result }
{
    let centre = s.centre;
    let coefficients = s.coefficients;
    let vectors = s.vectors;
    let h = s.terms;
    let g = s.generators;
    let radii = parts::totals(s.radii);
    let none = [0u64; 6];
    let d = image::remainder::spreads(&coefficients, h, &none);
    let r = image::remainder::spreads(&vectors, g, &radii);
    array::from_fn(|j| span_at(&centre, &d, &r, j))
}

// Of coordinate j, from the sizes of the terms in d, and of the generators with the radii in r.
fn span_at(centre: &[i32; 6], d: &[u64; 6], r: &[u64; 6], j: usize) -> u64
    requires { (j < 6) × Below 1048576 d.now × Below 1048576 r.now }
    ensures { result ≡ span_sum centre.now d.now r.now j }
{
    u64::from(centre[j].unsigned_abs()) + d[j] + r[j]
}
