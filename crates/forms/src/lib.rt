// Linear and quadratic forms on rows of six. A step's entries are brought to rows of six once, with 0 where it has none, so that every loop
// is six long.
#![tactic(auto)]

ghost use Rattle.std.specs.Prelude.{◌≡◌, ◌+◌, ◌*◌, ◌≤◌, ◌<◌, pos, ◌+ℤ◌, ◌*ℤ◌, length};
ghost use Rattle.whole.specs.Tab.{tab};
ghost use Rattle.rows.specs.Rows.{Small};
ghost use Rattle.model.specs.Set.{at};
ghost use Rattle.model.specs.Step.{dot};
ghost use Rattle.model.specs.Valid.{zeros};
ghost use Rattle.forms.specs.Tables.{row_of, form_of};
ghost use Rattle.forms.specs.Numbers.{both_limit, table_limit, both_table, line_table, column_table};
ghost use Rattle.forms.specs.RowsTo.{RowsTo};
ghost use Rattle.forms.specs.Wide.{entry, form_entry, wide_constant, wide_linear, wide_quadratic};

use core::array;

// ---- a step's entries in rows of six
// The constant of a step.
pub fn wide_constant(c: &[i32]) -> [i32; 6]
    ensures { result ≡ wide_constant c.now }
{
    array::from_fn(|x| number_at(c, x))
}

// The rows of A.
pub fn wide_linear(a: &[i32], n: usize) -> [i64; 36]
    requires { n ≤ 6 }
    ensures { result ≡ wide_linear n a.now }
{
    array::from_fn(|x| i64::from(entry_at(a, n, x / 6, x % 6)))
}

// The forms of Q.
pub fn wide_quadratic(q: &[i32], n: usize) -> [i32; 216]
    requires { n ≤ 6 }
    ensures { result ≡ wide_quadratic n q.now }
{
    let mut out = [0; 216];
    for x in 0..36 {
        let row = form_row(q, n, x / 6, x % 6);
        out[x * 6..x * 6 + 6].copy_from_slice(&row);
    }
    out
}

// Row j of form i.
fn form_row(q: &[i32], n: usize, i: usize, j: usize) -> [i32; 6]
    requires { (n ≤ 6) × (i < 6) × (j < 6) }
    ensures { result ≡ tab 6 (form_entry q.now n i j) }
{
    array::from_fn(|l| form_entry_at(q, n, i, j, l))
}

// The number at place i, 0 past the end.
fn number_at(xs: &[i32], i: usize) -> i32
    ensures { result ≡ at xs.now i }
{
    xs.get(i).copied().unwrap_or(0)
}

// Entry j of row i of rows of n, 0 past them.
fn entry_at(xs: &[i32], n: usize, i: usize, j: usize) -> i32
    requires { (n ≤ 6) × (i ≤ 36) × (j ≤ 6) }
    ensures { result ≡ entry xs.now n i j }
{
    if j < n { number_at(xs, i * n + j) } else { 0 }
}

// Entry l of row j of form i, in forms of n rows of n.
fn form_entry_at(q: &[i32], n: usize, i: usize, j: usize, l: usize) -> i32
    requires { (n ≤ 6) × (i < 6) × (j < 6) × (l < 6) }
    ensures { result ≡ form_entry q.now n i j l }
{
    if j < n {
        entry_at(q, n, i * n + j, l)
    } else {
        0
    }
}

// ---- products
// Row s of u times row t of v.
pub fn dot_rows(u: &[i32], s: usize, v: &[i64], t: usize) -> i64
    requires { (s ≤ 1000) × (t ≤ 1000) × (s * 6 + 6 ≤ length u.now) × (t * 6 + 6 ≤ length v.now)
        × Small 1048576 u.now × Small table_limit v.now }
    ensures { result ≡ dot 6 (row_of u.now s) (row_of v.now t) }
{
    let mut sum: i64 = 0;
    for (x, y) in u[s * 6..s * 6 + 6].iter().zip(&v[t * 6..t * 6 + 6]) {
        sum = whole::multiply_add(sum, i64::from(*x), *y);
    }
    sum
}

// The same, where v has 0 from row n on.
pub fn dot_rows_to(u: &[i32], s: usize, v: &[i64], t: usize, n: usize) -> i64
    requires { (s ≤ 1000) × (t ≤ 1000) × (s * 6 + 6 ≤ length u.now) × (t * 6 + 6 ≤ length v.now)
        × Small 1048576 u.now × Small table_limit v.now × RowsTo n v.now }
    ensures { result ≡ dot 6 (row_of u.now s) (row_of v.now t) }
{
    if t < n { dot_rows(u, s, v, t) } else { 0 }
}

// ---- what a step's raw numbers are made from
// Q + Qᵀ of each form.
pub fn both_ways(q: &[i32; 216]) -> [i64; 216]
    ensures { result ≡ both_table q.now }
{
    let mut out = [0; 216];
    for x in 0..36 {
        let row = both_row(q, x / 6, x % 6);
        out[x * 6..x * 6 + 6].copy_from_slice(&row);
    }
    out
}

// Row j of Q + Qᵀ, with form i of Q.
fn both_row(q: &[i32; 216], i: usize, j: usize) -> [i64; 6]
    requires { (i < 6) × (j < 6) }
    ensures { result ≡ tab 6 (λ l. form_of q.now i j l +ℤ form_of q.now i l j) }
{
    array::from_fn(|l| both_at(q, i, j, l))
}

// Q_jl + Q_lj of form i.
fn both_at(q: &[i32; 216], i: usize, j: usize, l: usize) -> i64
    requires { (i < 6) × (j < 6) × (l < 6) }
    ensures { result ≡ form_of q.now i j l +ℤ form_of q.now i l j }
{
    i64::from(q[(i * 6 + j) * 6 + l]) + i64::from(q[(i * 6 + l) * 6 + j])
}

// Whether there are no forms: whether all of Q + Qᵀ is 0.
pub fn no_forms(both: &[i64; 216]) -> bool
    ensures { result ≡ zeros (tab 216 (at both.now)) }
{
    both.iter().all(|g| *g == 0)
}

// The line of each coordinate, in row i: 4096·A_j + sum over l of (Q_jl + Q_lj)·k_l.
pub fn lines(a: &[i64; 36], both: &[i64; 216], k: &[i32; 6]) -> [i64; 36]
    requires { Small 32768 a.now × Small both_limit both.now × Small 1048576 k.now }
    ensures { result ≡ line_table a.now both.now k.now }
{
    array::from_fn(|x| line_at(a, both, k, x))
}

// Place x of the lines.
fn line_at(a: &[i64; 36], both: &[i64; 216], k: &[i32; 6], x: usize) -> i64
    requires { (x < 36) × Small 32768 a.now × Small both_limit both.now × Small 1048576 k.now }
    ensures { result ≡ dot 6 (row_of k.now 0) (row_of both.now x) +ℤ pos 4096 *ℤ at a.now x }
{
    whole::multiply_add(dot_rows(k, 0, both, x), 4096, a[x])
}

// (Q + Qᵀ)v for each coordinate and row t of v, in row i. Only the first m coordinates have forms; the rows of the others are 0.
pub fn column(both: &[i64; 216], v: &[i32], t: usize, m: usize) -> [i64; 36]
    requires { (m ≤ 6) × (t ≤ 100) × (t * 6 + 6 ≤ length v.now) × Small both_limit both.now × Small 1048576 v.now
        × RowsTo (m * 6) both.now }
    ensures { result ≡ column_table both.now v.now t }
{
    array::from_fn(|x| dot_rows_to(v, t, both, x, m * 6))
}
