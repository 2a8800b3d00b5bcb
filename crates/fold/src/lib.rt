// Folding rows of numbers into a centre and radii: tests on a row of exponents, the size of a row, the fold of a row, and the passes that
// fold some rows and keep the others.
#![tactic(auto)]

ghost use Rattle.std.specs.Prelude.{◌≡◌, List, map, Bool, ℕ, ◌+◌, ◌*◌, ◌^◌, ◌≤◌, ◌<◌, length, get_or, drop, ltb};
ghost use Rattle.model.specs.Limits.{max_exponent};
ghost use Rattle.model.specs.Set.{plus_ℤ, plus_ℕ};
ghost use Rattle.model.specs.Finish.{all_even, shift, growth, size};
ghost use Rattle.whole.specs.Tab.{tab, any};
ghost use Rattle.rows.specs.WorkSpace.{LeftOpen};
ghost use Rattle.rows.specs.Rows.{exponent_row, number_row, Places, Small};
ghost use Rattle.fold.specs.Chosen.{chosen};
ghost use Rattle.fold.specs.Marks.{unmarked};
ghost use Rattle.fold.specs.Folding.{Under, core_of, folded, Bounded};

// A centre and radii.
#[derive(Clone, Copy)]
pub struct Core {
    pub centre: [i64; 6],
    pub radii: [u64; 6],
}

// The core after those of the first rows that `gone` marks are folded, as even ones where `even` says so of their place.
pub fn fold_rows<F: Fn(usize) -> bool>(s: &[i64], gone: &[bool], even: F, core: Core) -> Core
    requires rows { (length gone.now ≤ 860) × (length gone.now * 6 ≤ length s.now) × Small (2 ^ 50) s.now
        × Small (2 ^ 61) core.centre × Under (2 ^ 61) core.radii }
    requires places { (k : ℕ) → k < length gone.now → F.pre even k }
    ensures folds { (b : ℕ → Bool) → ((k : ℕ) (r : Bool) → k < length gone.now → F.post even k r → r ≡ b k)
        → core_of result.centre result.radii
        ≡ folded s.now gone.now b (length gone.now) (core_of core.centre core.radii) }
    ensures bounds { Bounded (length gone.now) core.centre result.centre core.radii result.radii }
{
    let mut folded = core;
    for (k, gone) in gone.iter().enumerate() {
        if !*gone {
            continue;
        }
        let row = rows::number_row(s, k);
        let halved = even(k);
        folded = Core {
            centre: shifted(folded.centre, row, halved),
            radii: grown(folded.radii, row, halved),
        };
    }
    folded
}

// Of the first rows those that `gone` doesn't mark, in their order. The answer is how many there are.
pub fn keep_rows(s: &mut [i64], gone: &[bool]) -> usize
    requires { length gone.now * 6 ≤ length s.old }
    ensures upper_bound { (result ≤ length gone.now)
        × (tab result (number_row s.new) ≡ map (number_row s.old) (chosen (unmarked gone.now) (length gone.now)))
        × ((b : ℕ) → Small b s.old → Small b s.new) }
    ensures later_rows { LeftOpen (drop (result * 6) s.old) (drop (result * 6) s.new) }
{
    let mut m = 0;
    for (k, gone) in gone.iter().enumerate() {
        if *gone {
            continue;
        }
        rows::move_row(s, m, k);
        m += 1;
    }
    m
}

// Of the first places those that `gone` doesn't mark, in their order. The answer is how many there are.
pub fn keep_places(heads: &mut [u16], gone: &[bool]) -> usize
    requires { length gone.now ≤ length heads.old }
    ensures upper_bound { (result ≤ length gone.now)
        × (tab result (λ k. get_or heads.new k 0)
        ≡ map (λ k. get_or heads.old k 0) (chosen (unmarked gone.now) (length gone.now)))
        × ((e : List ℕ) → Places e heads.old → Places e heads.new) }
    ensures later_places { LeftOpen (drop result heads.old) (drop result heads.new) }
{
    let mut m = 0;
    for (k, gone) in gone.iter().enumerate() {
        if *gone {
            continue;
        }
        heads[m] = heads[k];
        m += 1;
    }
    m
}

// Whether all exponents of row x are even.
pub fn all_even(e: &[u8], x: usize) -> bool
    requires { x * 12 + 12 ≤ length e.now }
    ensures { result ≡ all_even (exponent_row e.now x) }
{
    rows::clear_of(e, x, 1)
}

// Whether an exponent of row x is too large.
pub fn is_high(e: &[u8], x: usize) -> bool
    requires { x * 12 + 12 ≤ length e.now }
    ensures { result ≡ any (λ k. ltb max_exponent k) (exponent_row e.now x) }
{
    !rows::clear_of(e, x, 192)
}

// The size of a row: the sum of weight times |number|.
pub fn row_size(row: &[i64], weights: &[u64; 6]) -> u64
    requires { (length row.now ≡ 6) × Small (2 ^ 50) row.now × Under 1000 weights.now }
    ensures { (result ≡ size weights.now row.now) × (result ≤ 6000 * 2 ^ 50) }
{
    let mut sum = 0;
    for (weight, g) in weights.iter().zip(row) {
        sum += weight * g.unsigned_abs();
    }
    sum
}

// The centre after a row is folded.
pub fn shifted(centre: [i64; 6], row: &[i64], even: bool) -> [i64; 6]
    requires { (length row.now ≡ 6) × Small (2 ^ 62) centre × Small (2 ^ 50) row.now }
    ensures { result ≡ plus_ℤ centre (map (shift even) row.now) }
{
    let mut moved = centre;
    for (j, c) in moved.iter_mut().enumerate() {
        *c += shift_by(even, row[j]);
    }
    moved
}

// The radii after a row is folded.
pub fn grown(radii: [u64; 6], row: &[i64], even: bool) -> [u64; 6]
    requires { (length row.now ≡ 6) × Under (2 ^ 62) radii × Small (2 ^ 50) row.now }
    ensures { result ≡ plus_ℕ radii (map (growth even) row.now) }
{
    let mut wider = radii;
    for (j, r) in wider.iter_mut().enumerate() {
        *r += growth_by(even, row[j]);
    }
    wider
}

// How far folding a coefficient moves the centre.
fn shift_by(even: bool, g: i64) -> i64
    ensures { result ≡ shift even g }
{
    if even { whole::half(g) } else { 0 }
}

// How much folding it widens the radius.
fn growth_by(even: bool, g: i64) -> u64
    ensures { result ≡ growth even g }
{
    if even {
        whole::half_size_up(g)
    } else {
        g.unsigned_abs()
    }
}
