// The raw terms of the image in rows of the work slices: own terms first, then the pairs of terms.
ghost use Rattle.std.specs.Prelude.{◌≡◌, ℕ, ◌+◌, ◌*◌, ◌/◌, ◌%◌, ◌≤◌, ◌<◌, length};
ghost use Rattle.whole.specs.Tab.{tab};
ghost use Rattle.whole.specs.Write.{write};
ghost use Rattle.rows.specs.Rows.{Small};
ghost use Rattle.model.specs.Pairs.{pair_codes};
ghost use Rattle.model.specs.Step.{dot};
ghost use Rattle.forms.specs.Tables.{row_of};
ghost use Rattle.forms.specs.Numbers.{both_limit, table_limit, raw_limit, column_table};
ghost use Rattle.forms.specs.RowsTo.{RowsTo};
ghost use Rattle.raw.specs.Accepted.{InSpan};
ghost use Rattle.raw.specs.Limits.{Low};
ghost use Rattle.raw.specs.Append.{Bounded};
ghost use Rattle.raw.specs.PairRows.{pair_number, pair_exponent, Added};
ghost use Rattle.raw.specs.Terms.{RawTerms};

use crate::pairs;
use core::array;
use zonotope::PolyZonotope;

// The numbers of the first rows of v, each a dot product with the line of its coordinate. Only the first m coordinates have lines.
pub fn linear_numbers(w: &mut [i64], lines: &[i64; 36], v: &[i32], rows: usize, m: usize)
    requires { (rows ≤ 40) × (rows * 6 ≤ length w.old) × (rows * 6 ≤ length v.now)
        × Small table_limit lines.now × Small 1048576 v.now × RowsTo m lines.now }
    ensures { w.new
        ≡ write w.old 0 (λ (x : ℕ). dot 6 (row_of v.now (x / 6)) (row_of lines.now (x % 6))) (rows * 6) }
{
    for t in 0..rows {
        let row = products(lines, v, t, m);
        w[t * 6..t * 6 + 6].copy_from_slice(&row);
    }
}

// The raw terms of the image of s under a step to m coordinates, from Q + Qᵀ and the lines: own terms, then pairs. How many rows they fill.
pub fn all_rows(
    w: &mut [i64],
    e: &mut [u8],
    lines: &[i64; 36],
    both: &[i64; 216],
    s: PolyZonotope,
    m: usize,
) -> usize
    requires { (5160 ≤ length w.old) × (10320 ≤ length e.old) × (m ≤ 6) × Small table_limit lines.now × Small both_limit both.now
        × RowsTo m lines.now × RowsTo (m * 6) both.now × InSpan s }
    ensures { RawTerms lines.now both.now s e.old w.old result e.new w.new }
{
    let coefficients = s.coefficients;
    let exponents = s.exponents;
    let h = s.terms;
    let table = pairs::pairs();
    linear_numbers(w, lines, &coefficients, h, m);
    e[..h * 12].copy_from_slice(&exponents[..h * 12]);
    pair_rows(w, e, &table, both, &coefficients, &exponents, h, m)
}

// The dot products of row t of v with the rows of a table, of which only the first m aren't 0.
fn products(table: &[i64; 36], v: &[i32], t: usize, m: usize) -> [i64; 6]
    requires { (t < 40) × (t * 6 + 6 ≤ length v.now)
        × Small table_limit table.now × Small 1048576 v.now × RowsTo m table.now }
    ensures { result ≡ tab 6 (λ (i : ℕ). dot 6 (row_of v.now t) (row_of table.now i)) }
{
    array::from_fn(|i| forms::dot_rows_to(v, t, table, i, m))
}

// The numbers of terms s and t, from the column of s, halved for a term with itself.
fn pair_numbers(
    column: &[i64; 36],
    coefficients: &[i32; 240],
    s: usize,
    t: usize,
    m: usize,
) -> [i64; 6]
    requires { (t < 40) × Small table_limit column.now × Small 1048576 coefficients.now × RowsTo m column.now }
    ensures { result ≡ tab 6 (pair_number column.now coefficients.now s t) }
{
    let numbers = products(column, coefficients, t, m);
    if s == t {
        array::from_fn(|i| whole::half(numbers[i]))
    } else {
        numbers
    }
}

// The exponents of terms s and t, added.
fn pair_exponents(exponents: &[u8; 480], s: usize, t: usize) -> [u8; 12]
    requires { (s < 40) × (t < 40) × Low exponents.now }
    ensures { result ≡ tab 12 (pair_exponent exponents.now s t) }
{
    array::from_fn(|k| exponents[s * 12 + k] + exponents[t * 12 + k])
}

// The column of term s, where that of term `last` stands: the pairs of a term follow one another and share it.
fn column_of(
    column: &mut [i64; 36],
    last: usize,
    both: &[i64; 216],
    coefficients: &[i32; 240],
    s: usize,
    m: usize,
)
    requires { (m ≤ 6) × (s < 40) × (column.old ≡ column_table both.now coefficients.now last)
        × Small both_limit both.now × Small 1048576 coefficients.now × RowsTo (m * 6) both.now }
    ensures { column.new ≡ column_table both.now coefficients.now s }
{
    if s != last {
        *column = forms::column(both, coefficients, s, m);
    }
}

// The rows of the pairs of the first h terms, after h rows; how many rows there are then. Where there are no forms all pairs are 0, and none
// is made. From a place of the table whose second term isn't used the loop goes on with the next row of the table.
fn pair_rows(
    w: &mut [i64],
    e: &mut [u8],
    table: &[u16; 820],
    both: &[i64; 216],
    coefficients: &[i32; 240],
    exponents: &[u8; 480],
    h: usize,
    m: usize,
) -> usize
    requires { (h ≤ 40) × (m ≤ 6) × (5160 ≤ length w.old) × (10320 ≤ length e.old) × (table.now ≡ pair_codes 40)
        × Small both_limit both.now × Small 1048576 coefficients.now × Low exponents.now × Bounded raw_limit (h * 6) w.old
        × RowsTo (m * 6) both.now }
    ensures { Added both.now coefficients.now exponents.now h e.old w.old result
        e.new w.new }
{
    if forms::no_forms(both) {
        return h;
    }
    let mut column = forms::column(both, coefficients, 0, m);
    let mut last = 0;
    let mut r = h;
    let mut k = 0;
    while k < 820 {
        let code = usize::from(table[k]);
        let first = code / 40;
        let second = code % 40;
        if second < h {
            column_of(&mut column, last, both, coefficients, first, m);
            last = first;
            let numbers = pair_numbers(&column, coefficients, first, second, m);
            w[r * 6..r * 6 + 6].copy_from_slice(&numbers);
            let added = pair_exponents(exponents, first, second);
            e[r * 12..r * 12 + 12].copy_from_slice(&added);
            r += 1;
            k += 1;
        } else {
            k += 40 - second;
        }
    }
    r
}
