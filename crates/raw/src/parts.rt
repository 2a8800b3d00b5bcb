// The raw numbers of the image's centre and generators.
ghost use Rattle.std.specs.Prelude.{◌≡◌, ◌<◌};
ghost use Rattle.rows.specs.Rows.{Small};
ghost use Rattle.forms.specs.Numbers.{table_limit};
ghost use Rattle.forms.specs.RowsTo.{RowsTo};
ghost use Rattle.raw.specs.Accepted.{InSpan};
ghost use Rattle.raw.specs.Parts.{centre_number, RawCentre, RawGenerators};

use crate::terms;
use core::array;
use zonotope::PolyZonotope;

// The raw centre of the image of s.
pub fn centre(c: &[i32; 6], a: &[i64; 36], lines: &[i64; 36], s: PolyZonotope) -> [i64; 6]
    requires { Small 1048576 c.now × Small 32768 a.now × Small table_limit lines.now × InSpan s }
    ensures { RawCentre c.now a.now lines.now s result }
{
    let k = s.centre;
    array::from_fn(|i| centre_number(c, a, lines, &k, i))
}

// The raw generators of the image of s under a step to m coordinates, in rows of six.
pub fn generators(lines: &[i64; 36], s: PolyZonotope, m: usize) -> [i64; 144]
    requires { Small table_limit lines.now × RowsTo m lines.now × InSpan s }
    ensures { RawGenerators lines.now s result }
{
    let vectors = s.vectors;
    let g = s.generators;
    let mut out = [0i64; 144];
    terms::linear_numbers(&mut out, lines, &vectors, g, m);
    out
}

// The centre's number at coordinate i: half of what its line and A make of it, and the constant.
fn centre_number(c: &[i32; 6], a: &[i64; 36], lines: &[i64; 36], k: &[i32; 6], i: usize) -> i64
    requires { (i < 6) × Small 1048576 c.now × Small 32768 a.now × Small table_limit lines.now × Small 1048576 k.now }
    ensures { result ≡ centre_number c.now a.now lines.now k.now i }
{
    let x = forms::dot_rows(k, 0, lines, i);
    let y = forms::dot_rows(k, 0, a, i);
    let n = whole::half(whole::multiply_add(x, 4096, y));
    whole::multiply_add(n, 16777216, i64::from(c[i]))
}
