// Places that the counts leave unused. A run of them is looked through to its end, since nearly all are 0.
ghost use Rattle.std.specs.Prelude.{◌≡◌, Bool, List, not, eqb, ◌+◌, ◌*◌, ◌≤◌, ◌<◌, ltb, ◌||◌, length, get_or};
ghost use Rattle.std.specs.Fn.{FnReturnsAt};
ghost use Rattle.whole.specs.Tab.{tab, any};
ghost use Rattle.model.specs.Valid.{is_zero};
ghost use Rattle.arrays.specs.Spare.{in_rows, spare_ℕ, spare_ℤ};

// Whether one of the numbers after the first k isn't 0.
pub fn after_first(xs: &[u32], k: usize) -> bool
    requires { k ≤ length xs.now }
    ensures { result ≡ spare_ℕ xs.now (length xs.now) (λ i. ltb i k) }
{
    xs[k..].iter().any(|x| *x != 0)
}

// Whether an exponent outside the first k of the first t rows of 12 isn't 0.
pub fn outside_exponents(e: &[u8], t: usize, k: usize) -> bool
    requires { (t * 12 ≤ length e.now) × (k ≤ 12) }
    ensures { result ≡ spare_ℕ e.now (length e.now) (in_rows 12 t k) }
{
    any_outside(e, 12, t, k, any_exponent)
}

// Whether a number outside the first k of the first t rows of 6 isn't 0.
pub fn outside_numbers(xs: &[i32], t: usize, k: usize) -> bool
    requires { (t * 6 ≤ length xs.now) × (k ≤ 6) }
    ensures { result ≡ spare_ℤ xs.now (length xs.now) (in_rows 6 t k) }
{
    any_outside(xs, 6, t, k, any_number)
}

// Whether a run of places outside the first k entries of the first t rows of w passes the test of some entry.
fn any_outside<T, F: Fn(&[T]) -> bool>(xs: &[T], w: usize, t: usize, k: usize, test: F) -> bool
    requires { (0 < w) × (t * w ≤ length xs.now) × (k ≤ w) × F.IsAlwaysCallable test }
    ensures { (zero : T → Bool) (d : T) → ((r : List T) (b : Bool) → FnReturnsAt F.Fn test r b → b ≡ any (λ x. not (zero x)) r)
        → result ≡ any (λ x. not (in_rows w t k x || zero (get_or xs.now x d))) (tab (length xs.now) (λ x. x)) }
{
    test(&xs[t * w..]) | (0..t).any(|r| test(&xs[r * w + k..r * w + w]))
}

// Whether an exponent of the run isn't 0.
fn any_exponent(run: &[u8]) -> bool
    ensures { result ≡ any (λ x. not (eqb x 0)) run.now }
{
    run.iter().fold(false, |found, x| found | (*x != 0))
}

// Whether a number of the run isn't 0.
fn any_number(run: &[i32]) -> bool
    ensures { result ≡ any (λ x. not (is_zero x)) run.now }
{
    run.iter().fold(false, |found, x| found | (*x != 0))
}
