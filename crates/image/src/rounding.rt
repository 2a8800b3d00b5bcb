// Raw numbers rounded in place, and the inexact roundings counted.
ghost use Rattle.std.specs.Prelude.{◌≡◌, ℕ, ◌+◌, ◌*◌, ◌≤◌, ◌<◌, length, get_or};
ghost use Rattle.whole.specs.Round.{round, inexact};
ghost use Rattle.whole.specs.Tab.{tab};
ghost use Rattle.whole.specs.Write.{write};
ghost use Rattle.model.specs.Set.{at};
ghost use Rattle.forms.specs.Tables.{row_of};
ghost use Rattle.image.specs.Rounding.{inexact_in, inexact_of, half_up};
ghost use Rattle.image.specs.Remainder.{Below};
ghost use Rattle.image.specs.Counting.{grown};

use core::array;

// The inexact roundings at each coordinate of the centre, the terms' rows and the generators.
pub fn counts(
    w: &[i64],
    rows: usize,
    centre: &[i64; 6],
    vectors: &[i64; 144],
    generators: usize,
) -> [u64; 6]
    requires { (rows ≤ 860) × (generators ≤ 24) × (rows * 6 ≤ length w.now) }
    ensures { result ≡ tab 6 (inexact_of w.now rows centre.now vectors.now generators) }
{
    let mut out = [0u64; 6];
    add_rows(&mut out, centre, 1);
    add_rows(&mut out, w, rows);
    add_rows(&mut out, vectors, generators);
    out
}

// What rounding adds to each coordinate's radius: half of its count, rounded up.
pub fn halves(counts: &[u64; 6]) -> [u64; 6]
    ensures { result ≡ tab 6 (λ i. half_up (get_or counts.now i 0)) }
{
    array::from_fn(|i| counts[i].div_ceil(2))
}

// The first n numbers, rounded in place.
pub fn round_first(w: &mut [i64], n: usize)
    requires { n ≤ length w.old }
    ensures { w.new ≡ write w.old 0 (λ (x : ℕ). round (at w.old x)) n }
{
    for v in w[..n].iter_mut() {
        *v = whole::round_scale(*v);
    }
}

// The inexact roundings of the first rows, added coordinate by coordinate.
fn add_rows(out: &mut [u64; 6], w: &[i64], rows: usize)
    requires { (rows ≤ 860) × (rows * 6 ≤ length w.now) × Below 1000 out.old }
    ensures { out.new ≡ grown out.old (inexact_in w.now rows) }
{
    for t in 0..rows {
        add_row(out, w, t);
    }
}

// Those of row t.
fn add_row(out: &mut [u64; 6], w: &[i64], t: usize)
    requires { (t < 860) × (t * 6 + 6 ≤ length w.now) × Below 2000 out.old }
    ensures { out.new ≡ grown out.old (λ (x : ℕ). inexact (row_of w.now t x)) }
{
    for (i, count) in out.iter_mut().enumerate() {
        *count += whole::count_inexact(w[t * 6 + i]);
    }
}
