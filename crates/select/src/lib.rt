// Which terms and generators are folded, and the stages of finishing that fold them: terms with an exponent that is too large, and the
// smallest terms and generators until a limit is met. Marks and sizes stand in local arrays: for 161 rows, a hull's, where there are no
// more, so that little is cleared, and else for 860.
#![tactic(auto)]

ghost use Rattle.std.specs.Prelude.{◌≡◌, false, ℕ, ◌+◌, ◌*◌, ◌^◌, ◌≤◌, ◌<◌, length, drop};
ghost use Rattle.whole.specs.Tab.{tab};
ghost use Rattle.model.specs.Finish.{size, fold_term, fold_generator, fold_until};
ghost use Rattle.model.proofs.FirstBySize.{term_size};
ghost use Rattle.rows.specs.WorkSpace.{LeftOpen};
ghost use Rattle.rows.specs.Rows.{number_row, terms, Small};
ghost use Rattle.fold.specs.Marks.{at};
ghost use Rattle.fold.specs.Folding.{Under, core_of};
ghost use Rattle.select.specs.Selected.{parted};
ghost use Rattle.select.specs.Stage.{term_at, without_high, Ready, Passed, GeneratorsPassed};

use fold::Core;

mod marks;
mod smallest;

// How many are kept, with the centre and radii that make up for the others.
#[derive(Drop)]
pub struct Kept {
    pub count: usize,
    pub centre: [i64; 6],
    pub radii: [u64; 6],
}

// Terms with an exponent that is too large are folded.
pub fn fold_high(
    e: &[u8],
    heads: &mut [u16],
    s: &mut [i64],
    n: usize,
    centre: [i64; 6],
    radii: [u64; 6],
) -> Kept
    requires { Ready e.now heads.old s.old n × Small (2 ^ 61) centre × Under (2 ^ 61) radii }
    ensures passed { Passed e.now heads.new s.new n result.count centre result.centre radii result.radii
        (without_high (core_of centre radii) (terms e.now heads.old s.old n)) }
    ensures later_places { LeftOpen (drop result.count heads.old) (drop result.count heads.new) }
    ensures later_rows { LeftOpen (drop (result.count * 6) s.old) (drop (result.count * 6) s.new) }
{
    if !marks::any_high(e, &heads[..n]) {
        return Kept {
            count: n,
            centre,
            radii,
        };
    }
    let core = Core { centre, radii };
    if n <= 161 {
        return fold_high_within::<161>(e, heads, s, n, core);
    }
    fold_high_within::<860>(e, heads, s, n, core)
}

// The smallest terms are folded until `limit` are left.
pub fn fold_terms(
    e: &[u8],
    heads: &mut [u16],
    s: &mut [i64],
    n: usize,
    limit: usize,
    weights: [u64; 6],
    centre: [i64; 6],
    radii: [u64; 6],
) -> Kept
    requires { Ready e.now heads.old s.old n × Under 1000 weights × Small (2 ^ 61) centre × Under (2 ^ 61) radii }
    ensures passed { Passed e.now heads.new s.new n result.count centre result.centre radii result.radii
        (fold_until (term_size weights) fold_term limit (core_of centre radii) (terms e.now heads.old s.old n))
        × (result.count ≤ limit) }
    ensures later_places { LeftOpen (drop result.count heads.old) (drop result.count heads.new) }
    ensures later_rows { LeftOpen (drop (result.count * 6) s.old) (drop (result.count * 6) s.new) }
{
    if n <= limit {
        return Kept {
            count: n,
            centre,
            radii,
        };
    }
    let core = Core { centre, radii };
    if n <= 161 {
        return fold_terms_within::<161>(e, heads, s, n, limit, &weights, core);
    }
    fold_terms_within::<860>(e, heads, s, n, limit, &weights, core)
}

// The smallest generators, rows of numbers without exponents, are folded until `limit` are left.
pub fn fold_generators(
    g: &mut [i64],
    n: usize,
    limit: usize,
    weights: [u64; 6],
    centre: [i64; 6],
    radii: [u64; 6],
) -> Kept
    requires { (n ≤ 860) × (n * 6 ≤ length g.old) × Small (2 ^ 50) g.old × Under 1000 weights
        × Small (2 ^ 61) centre × Under (2 ^ 61) radii }
    ensures generators_passed { GeneratorsPassed g.new n result.count centre result.centre radii result.radii
        (fold_until (size weights) fold_generator limit (core_of centre radii) (tab n (number_row g.old)))
        × (result.count ≤ limit) }
    ensures later_rows { LeftOpen (drop (result.count * 6) g.old) (drop (result.count * 6) g.new) }
{
    if n <= limit {
        return Kept {
            count: n,
            centre,
            radii,
        };
    }
    let core = Core { centre, radii };
    if n <= 161 {
        return fold_generators_within::<161>(g, n, limit, &weights, core);
    }
    fold_generators_within::<860>(g, n, limit, &weights, core)
}

// The terms with an exponent that is too large, where there are no more than N terms.
fn fold_high_within<const N: usize>(
    e: &[u8],
    heads: &mut [u16],
    s: &mut [i64],
    n: usize,
    core: Core,
) -> Kept
    requires { Ready e.now heads.old s.old n × Small (2 ^ 61) core.centre × Under (2 ^ 61) core.radii × (n ≤ N)
        × (N ≤ 860) }
    ensures passed { Passed e.now heads.new s.new n result.count core.centre result.centre core.radii result.radii
        (without_high (core_of core.centre core.radii) (terms e.now heads.old s.old n)) }
    ensures later_places { LeftOpen (drop result.count heads.old) (drop result.count heads.new) }
    ensures later_rows { LeftOpen (drop (result.count * 6) s.old) (drop (result.count * 6) s.new) }
{
    let mut marks = [false; N];
    let gone = &mut marks[..n];
    marks::mark_high(e, heads, gone);
    part_terms(e, heads, s, gone, core)
}

// The smallest terms, where there are no more than N.
fn fold_terms_within<const N: usize>(
    e: &[u8],
    heads: &mut [u16],
    s: &mut [i64],
    n: usize,
    limit: usize,
    weights: &[u64; 6],
    core: Core,
) -> Kept
    requires { Ready e.now heads.old s.old n × Under 1000 weights.now × Small (2 ^ 61) core.centre
        × Under (2 ^ 61) core.radii × (limit ≤ n) × (n ≤ N) × (N ≤ 860) }
    ensures passed { Passed e.now heads.new s.new n result.count core.centre result.centre core.radii result.radii
        (fold_until (term_size weights.now) fold_term limit (core_of core.centre core.radii)
        (terms e.now heads.old s.old n))
        × (result.count ≤ limit) }
    ensures later_places { LeftOpen (drop result.count heads.old) (drop result.count heads.new) }
    ensures later_rows { LeftOpen (drop (result.count * 6) s.old) (drop (result.count * 6) s.new) }
{
    let mut sizes = [0; N];
    let mut marks = [false; N];
    let gone = &mut marks[..n];
    smallest::mark_smallest(s, limit, weights, &mut sizes[..n], gone);
    part_terms(e, heads, s, gone, core)
}

// The smallest generators, where there are no more than N.
fn fold_generators_within<const N: usize>(
    g: &mut [i64],
    n: usize,
    limit: usize,
    weights: &[u64; 6],
    core: Core,
) -> Kept
    requires { (n ≤ 860) × (n * 6 ≤ length g.old) × Small (2 ^ 50) g.old × Under 1000 weights.now
        × Small (2 ^ 61) core.centre × Under (2 ^ 61) core.radii × (limit ≤ n) × (n ≤ N) × (N ≤ 860) }
    ensures generators_passed { GeneratorsPassed g.new n result.count core.centre result.centre core.radii result.radii
        (fold_until (size weights.now) fold_generator limit (core_of core.centre core.radii)
        (tab n (number_row g.old)))
        × (result.count ≤ limit) }
    ensures later_rows { LeftOpen (drop (result.count * 6) g.old) (drop (result.count * 6) g.new) }
{
    let mut sizes = [0; N];
    let mut marks = [false; N];
    let gone = &mut marks[..n];
    smallest::mark_smallest(g, limit, weights, &mut sizes[..n], gone);
    let Core { centre, radii } = fold::fold_rows(g, gone, |_| false, core);
    let count = fold::keep_rows(g, gone);
    Kept {
        count,
        centre,
        radii,
    }
}

// Those of the first terms that `gone` marks are folded, and the others kept, in their order.
fn part_terms(e: &[u8], heads: &mut [u16], s: &mut [i64], gone: &[bool], core: Core) -> Kept
    requires { Ready e.now heads.old s.old (length gone.now) × Small (2 ^ 61) core.centre × Under (2 ^ 61) core.radii }
    ensures { Passed e.now heads.new s.new (length gone.now) result.count core.centre result.centre core.radii result.radii
        (parted fold_term (term_at e.now heads.old s.old) (length gone.now) gone.now
        (core_of core.centre core.radii)) }
{
    let places = &heads[..];
    let even = |k| fold::all_even(e, usize::from(places[k]));
    let Core { centre, radii } = fold::fold_rows(s, gone, even, core);
    let count = fold::keep_rows(s, gone);
    fold::keep_places(heads, gone);
    Kept {
        count,
        centre,
        radii,
    }
}
