// The rows of a hull, from the rows of the sum of both sets: halved, with and without the blending factor.
ghost use Rattle.std.specs.Prelude.{◌≡◌, ◌+◌, ◌*◌, ◌≤◌, ◌<◌, length, replicate, nat_abs};
ghost use Rattle.whole.specs.Write.{write};
ghost use Rattle.rows.specs.Rows.{Small};
ghost use Rattle.hulling.specs.Blending.{power_at, times_at, exponent_runs, number_runs};

// What a number is multiplied by for its half in raw units, of which 16,777,216 are a unit; and for half of its opposite.
pub const HALF: i64 = 8388608;

const TURNED_HALF: i64 = -8388608;

// The exponents of a hull, from the rows of the sum: a row for the blending factor alone, in column n; each row; each row with that factor.
pub fn blend_exponents(e: &[u8], rows: usize, n: usize, f: &mut [u8])
    requires { (rows ≤ 80) × (960 ≤ length e.now) × (1932 ≤ length f.old) }
    ensures { f.new ≡ exponent_runs (replicate 12 0) e.now f.old n rows }
{
    let none = [0u8; 12];
    put_exponents(&none, 1, n, 1, f, 0);
    put_exponents(e, rows, n, 0, f, 1);
    put_exponents(e, rows, n, 1, f, rows + 1);
}

// The numbers of a hull, from the rows of the sum, `own` of the first set and `rest` of the second: half the difference of the centres;
// each row halved; and again, the second set's turned round.
pub fn blend_numbers(difference: &[i64], c: &[i64], own: usize, rest: usize, w: &mut [i64])
    requires { (own ≤ 40) × (rest ≤ 40) × (6 ≤ length difference.now) × (480 ≤ length c.now) × (966 ≤ length w.old)
        × Small 2097152 difference.now × Small 2097152 c.now }
    ensures { w.new ≡ number_runs difference.now c.now w.old own rest }
{
    let rows = own + rest;
    put_halves(difference, 0, 1, HALF, w, 0);
    put_halves(c, 0, rows, HALF, w, 1);
    put_halves(c, 0, own, HALF, w, rows + 1);
    put_halves(c, own, rest, TURNED_HALF, w, rows + 1 + own);
}

// From row `to` of w on the numbers of so many rows of c from row `from` on, each times `half`.
pub fn put_halves(c: &[i64], from: usize, rows: usize, half: i64, w: &mut [i64], to: usize)
    requires { (rows ≤ 80) × (from ≤ 80) × (to ≤ 200) × (from * 6 + rows * 6 ≤ length c.now) × (to * 6 + rows * 6 ≤ length w.old)
        × Small 2097152 c.now × (nat_abs half ≤ 8388608) }
    ensures { w.new ≡ write w.old (to * 6) (times_at half c.now from) (rows * 6) }
{
    for x in 0..rows * 6 {
        let v = c[from * 6 + x];
        let y = whole::multiply_add(0, half, v);
        w[to * 6 + x] = y;
    }
}

// From row `to` of f on the exponents of the first rows of e, with p in column n.
fn put_exponents(e: &[u8], rows: usize, n: usize, p: u8, f: &mut [u8], to: usize)
    requires { (rows ≤ 80) × (to ≤ 100) × (rows * 12 ≤ length e.now) × (to * 12 + rows * 12 ≤ length f.old) }
    ensures { f.new ≡ write f.old (to * 12) (power_at e.now n p) (rows * 12) }
{
    for x in 0..rows * 12 {
        let v = power_at(e, x, n, p);
        f[to * 12 + x] = v;
    }
}

// Place x of the exponents, with p in column n.
fn power_at(e: &[u8], x: usize, n: usize, p: u8) -> u8
    requires { x < length e.now }
    ensures { result ≡ power_at e.now n p x }
{
    if x % 12 == n {
        return p;
    }
    e[x]
}
