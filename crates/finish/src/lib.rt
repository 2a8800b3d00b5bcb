// Finishing a result that is held in rows of 12 exponents and of 6 numbers: the stages in their order, the span, and the record.
#![tactic(auto)]

ghost use Rattle.std.specs.Prelude.{◌≡◌, ◌*◌, ◌^◌, ◌≤◌, length};
ghost use Rattle.whole.specs.Tab.{tab};
ghost use Rattle.model.specs.Finish.{finish, fold_high, fold_terms, fold_generators};
ghost use Rattle.rows.specs.WorkSpace.{LeftOpen};
ghost use Rattle.rows.specs.Rows.{number_row, terms, rows_of, Small};
ghost use Rattle.fold.specs.Folding.{core_of};
ghost use Rattle.select.specs.Stage.{Ready};
ghost use Rattle.finish.specs.Held.{set_of, held, Reducible, Foldable, Holds, Widened, finished_as};
ghost use Rattle.finish.specs.Stages.{reduced};
ghost use Rattle.finish.specs.Reduce.{Gathered, nonzero};

mod record;
mod span;

// A result that isn't finished, without its terms and generators. Places that the counts leave unused hold 0.
#[derive(Clone, Copy)]
pub struct Unfinished {
    pub dimension: usize,
    pub factors: usize,
    pub identifiers: [u32; 12],
    pub centre: [i64; 6],
    pub radii: zonotope::WideRadii,
}

// How many terms and generators are left, with the centre and the folded parts of the radii that make up for the others.
#[derive(Clone, Copy)]
pub struct Reduced {
    pub terms: usize,
    pub generators: usize,
    pub centre: [i64; 6],
    pub folded: [u64; 6],
}

// How many terms and generators a finished set may have, and the weights by which the smallest ones are found.
#[derive(Clone, Copy)]
pub struct Limits {
    pub terms: usize,
    pub generators: usize,
    pub weights: [u64; 6],
}

// The record of the result with the first places.len() rows of e and c as its terms and the first rows of g as its generators, finished;
// none where its span is too wide. `places`, `heads` and s are work space, and g is worked in too.
pub fn finish(
    u: Unfinished,
    e: &[u8],
    c: &[i64],
    places: &mut [u16],
    heads: &mut [u16],
    s: &mut [i64],
    g: &mut [i64],
    generators: usize,
    limits: Limits,
) -> Option<zonotope::PolyZonotope>
    requires { Reducible u e.now c.now places.old heads.old s.old g.old generators limits
        × Widened (held u e.now c.now (length places.old) g.old generators) }
    ensures value { result ≡ finished_as (finish limits.weights limits.terms limits.generators
        (held u e.now c.now (length places.old) g.old generators)) }
    ensures places { LeftOpen places.old places.new }
    ensures heads { LeftOpen heads.old heads.new }
    ensures rows { LeftOpen s.old s.new }
    ensures generators { LeftOpen g.old g.new }
{
    let k = reduce(u, e, c, places, heads, s, g, generators, limits);
    if span::too_wide(u, k, s, g) {
        return None;
    }
    Some(record::pack(u, k, e, heads, s, g))
}

// All stages of finishing but the last.
fn reduce(
    u: Unfinished,
    e: &[u8],
    c: &[i64],
    places: &mut [u16],
    heads: &mut [u16],
    s: &mut [i64],
    g: &mut [i64],
    generators: usize,
    limits: Limits,
) -> Reduced
    requires { Reducible u e.now c.now places.old heads.old s.old g.old generators limits }
    ensures { Holds u result e.now heads.new s.new g.new
        (reduced limits.weights limits.terms limits.generators
        (held u e.now c.now (length places.old) g.old generators)) }
{
    let n = gather(e, c, places, heads, s);
    let m = rows::drop_zero_rows(g, generators);
    fold_rest(u, e, heads, s, n, g, m, limits)
}

// The rows of e and c as terms: sorted, equal ones added, all-zero ones dropped. Rows that are all zero from the start are left out before
// the sort. The answer is how many terms there are.
fn gather(e: &[u8], c: &[i64], places: &mut [u16], heads: &mut [u16], s: &mut [i64]) -> usize
    requires { (length places.old ≤ 860) × (length places.old * 12 ≤ length e.now) × (length e.now ≤ 10320)
        × (length places.old * 6 ≤ length c.now) × (length places.old * 6 ≤ length s.old)
        × (length heads.old ≡ length places.old) × Small (2 ^ 40) c.now × Small (2 ^ 40) s.old }
    ensures { Gathered e.now heads.new s.new result
        (nonzero (rows_of e.now c.now (length places.old))) }
{
    let m = collect::nonzero_places(c, places);
    collect::first_places(heads);
    let n = collect::collect(e, c, &mut places[..m], &mut heads[..m], s);
    rows::drop_zero(heads, s, n)
}

// Terms with an exponent that is too large are folded, then the smallest terms and the smallest generators until the limits are met.
fn fold_rest(
    u: Unfinished,
    e: &[u8],
    heads: &mut [u16],
    s: &mut [i64],
    n: usize,
    g: &mut [i64],
    m: usize,
    limits: Limits,
) -> Reduced
    requires { Ready e.now heads.old s.old n × Foldable u g.old m limits }
    ensures { Holds u result e.now heads.new s.new g.new
        (fold_generators limits.weights limits.generators (fold_terms limits.weights limits.terms (fold_high
        (set_of u (core_of u.centre u.radii.folded) (terms e.now heads.old s.old n)
        (tab m (number_row g.old)))))) }
{
    let low = select::fold_high(e, heads, s, n, u.centre, u.radii.folded);
    let few = select::fold_terms(
        e,
        heads,
        s,
        low.count,
        limits.terms,
        limits.weights,
        low.centre,
        low.radii,
    );
    let kept = select::fold_generators(
        g,
        m,
        limits.generators,
        limits.weights,
        few.centre,
        few.radii,
    );
    let centre = kept.centre;
    let folded = kept.radii;
    Reduced {
        terms: few.count,
        generators: kept.count,
        centre,
        folded,
    }
}
