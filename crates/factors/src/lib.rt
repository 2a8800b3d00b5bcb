// Factors that occur in no term are dropped: their exponents and their identifiers are left out.
#![tactic(auto)]

ghost use Rattle.std.specs.Prelude.{◌≡◌, List, map, ◌+◌, ◌*◌, ◌≤◌, ◌<◌, length, get_or, take, ℤ};
ghost use Rattle.whole.specs.Tab.{tab};
ghost use Rattle.whole.specs.Write.{write};
ghost use Rattle.model.specs.Valid.{occurs};
ghost use Rattle.rows.specs.Rows.{terms, Places};
ghost use Rattle.fold.specs.Chosen.{chosen};
ghost use Rattle.fold.specs.Marks.{at};
ghost use Rattle.factors.specs.Squeeze.{FactorPlaces, rows_array};
ghost use Rattle.factors.specs.Unused.{twelve, WithoutUnused};

// The factors that are left, with the exponents of the terms in them: rows of 12, the other places 0.
#[derive(Drop)]
pub struct Factors {
    pub count: usize,
    pub identifiers: [u32; 12],
    pub exponents: [u8; 480],
}

// The factors that occur in none of the first n terms are dropped.
pub fn drop_unused(e: &[u8], heads: &[u16], n: usize, identifiers: [u32; 12]) -> Factors
    requires { (n ≤ 40) × (n ≤ length heads.now) × Places e.now heads.now }
    ensures { (s : List ℤ) → WithoutUnused (terms e.now heads.now s n) identifiers
        result.count result.identifiers result.exponents }
{
    let heads = &heads[..n];
    let used = mark_used(e, heads);
    let mut all = [0; 12];
    let count = list_used(&used, &mut all);
    let places = &all[..count];
    let kept = squeeze_identifiers(&identifiers, places);
    let exponents = squeeze_exponents(e, heads, places);
    Factors {
        count,
        identifiers: kept,
        exponents,
    }
}

// The marks of the factors that occur in one of the terms.
fn mark_used(e: &[u8], heads: &[u16]) -> [bool; 12]
    requires { Places e.now heads.now }
    ensures { (s : List ℤ) → result ≡ tab 12 (occurs (terms e.now heads.now s (length heads.now))) }
{
    let mut marks = [false; 12];
    for (j, used) in marks.iter_mut().enumerate() {
        *used = occurs_at(e, heads, j);
    }
    marks
}

// Whether the factor at place j occurs in one of the terms.
fn occurs_at(e: &[u8], heads: &[u16], j: usize) -> bool
    requires { (j < 12) × Places e.now heads.now }
    ensures { (s : List ℤ) → result ≡ occurs (terms e.now heads.now s (length heads.now)) j }
{
    for x in heads {
        if e[usize::from(*x) * 12 + j] > 0 {
            return true;
        }
    }
    false
}

// The places that are marked, from the first of `places` on. The answer is how many there are.
fn list_used(used: &[bool; 12], places: &mut [usize; 12]) -> usize
    ensures { (result ≤ 12) × (take result places.new ≡ chosen (at used.now) 12) }
{
    let mut m = 0;
    for (j, used) in used.iter().enumerate() {
        if !*used {
            continue;
        }
        places[m] = j;
        m += 1;
    }
    m
}

// The exponents of the terms that stand at these places, in rows of 12; the other places are 0.
fn squeeze_exponents(e: &[u8], heads: &[u16], places: &[usize]) -> [u8; 480]
    requires { (length heads.now ≤ 40) × Places e.now heads.now × FactorPlaces places.now }
    ensures { result ≡ rows_array (λ k. map (λ j. get_or e.now (get_or heads.now k 0 * 12 + j) 0) places.now)
        (length heads.now) }
{
    let mut out = [0; 480];
    for (k, x) in heads.iter().enumerate() {
        squeeze_row(e, usize::from(*x), places, &mut out, k);
    }
    out
}

// The exponents of row x that stand at these places go to row k.
fn squeeze_row(e: &[u8], x: usize, places: &[usize], out: &mut [u8; 480], k: usize)
    requires { (x * 12 + 12 ≤ length e.now) × (k < 40) × FactorPlaces places.now }
    ensures { out.new ≡ write out.old (k * 12)
        (λ i. get_or e.now (x * 12 + get_or places.now i 0) 0) (length places.now) }
{
    for (i, j) in places.iter().enumerate() {
        out[k * 12 + i] = e[x * 12 + *j];
    }
}

// The identifiers at these places; the other places are 0.
fn squeeze_identifiers(identifiers: &[u32; 12], places: &[usize]) -> [u32; 12]
    requires { FactorPlaces places.now }
    ensures { result ≡ twelve (map (λ j. get_or identifiers.now j 0) places.now) }
{
    let mut out = [0; 12];
    for (i, j) in places.iter().enumerate() {
        out[i] = identifiers[*j];
    }
    out
}
