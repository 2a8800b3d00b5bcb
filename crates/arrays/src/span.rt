// How far a record's arrays reach: the sizes of their columns, and the span of each coordinate.
ghost use Rattle.std.specs.Prelude.{◌≡◌, ℕ, ◌+◌, ◌*◌, ◌≤◌, ◌<◌, ltb, pos, nat_abs, length, get_or};
ghost use Rattle.whole.specs.Tab.{tab};
ghost use Rattle.whole.specs.Tests.{some_below};
ghost use Rattle.arrays.specs.Rows.{column_sizes, most_radius, span_at};

// Whether the span of one of the first n coordinates exceeds the limit: no point of the set is further from 0 than its span.
pub fn too_wide<'a>(
    centre: &'a [i32; 6],
    coefficients: &'a [i32; 240],
    vectors: &'a [i32; 144],
    radii: &'a [u64; 6],
    n: usize,
    h: usize,
    q: usize,
    limit: u64,
) -> bool
    requires { (n ≤ 6) × (h ≤ 40) × (q ≤ 24) × ((i : ℕ) → get_or radii.now i 0 ≤ most_radius) }
    ensures { result ≡ some_below n (λ i. ltb limit
        (span_at centre.now coefficients.now vectors.now radii.now h q i)) }
{
    let terms = column_sizes(coefficients, h);
    let generators = column_sizes(vectors, q);
    (0..n).any(|i| {
        let span = u64::from(centre[i].unsigned_abs()) + terms[i] + generators[i] + radii[i];
        limit < span
    })
}

// The sizes at each place of the first rows of 6, added up.
pub fn column_sizes(xs: &[i32], rows: usize) -> [u64; 6]
    requires { (rows ≤ 40) × (rows * 6 ≤ length xs.now) }
    ensures { (result ≡ tab 6 (λ i. column_sizes xs.now i rows)) × ((i : ℕ) → get_or result i 0 ≤ 40 * 2147483648) }
{
    let mut sums = [0u64; 6];
    for t in 0..rows {
        add_sizes(&mut sums, &xs[t * 6..t * 6 + 6]);
    }
    sums
}

// The sizes of a row are added to the sums.
fn add_sizes(sums: &mut [u64; 6], row: &[i32])
    requires { (length row.now ≡ 6) × ((i : ℕ) → get_or sums.old i 0 ≤ 40 * 2147483648) }
    ensures { (sums.new ≡ tab 6 (λ i. get_or sums.old i 0 + nat_abs (get_or row.now i (pos 0))))
        × ((i : ℕ) → get_or sums.new i 0 ≤ get_or sums.old i 0 + 2147483648) }
{
    for (i, sum) in sums.iter_mut().enumerate() {
        *sum += u64::from(row[i].unsigned_abs());
    }
}
