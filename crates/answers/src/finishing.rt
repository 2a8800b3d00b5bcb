// Results in rows, finished with the standard weights in local arrays: for 80 rows, which is enough for sums, for the 161 of a hull, or for
// the 860 of a step.
ghost use Rattle.std.specs.Prelude.{◌≡◌, ◌≤◌, ◌*◌};
ghost use Rattle.model.specs.Limits.{standard_weights};
ghost use Rattle.model.specs.Finish.{finish};
ghost use Rattle.finish.specs.Held.{held};
ghost use Rattle.answers.specs.Answer.{settled};
ghost use Rattle.answers.specs.Finishing.{Finishable};

use finish::{Limits, Unfinished};
use zonotope::{Cause, PolyZonotope};

// The result with the first rows of e and c as its terms and the first rows of g as its generators, finished.
pub fn finish_rows(
    u: Unfinished,
    e: &[u8],
    c: &[i64],
    rows: usize,
    g: &mut [i64],
    generators: usize,
    term_limit: usize,
    generator_limit: usize,
) -> Result<PolyZonotope, Cause>
    requires { Finishable u e.now c.now rows g.old generators × (term_limit ≤ 40) × (generator_limit ≤ 24) }
    ensures { result ≡ settled (finish standard_weights term_limit generator_limit
        (held u e.now c.now rows g.old generators)) }
{
    let limits = Limits {
        terms: term_limit,
        generators: generator_limit,
        weights: [4, 1, 4, 1, 4, 1],
    };
    if rows <= 80 {
        return finish_within::<80, 480>(u, e, c, rows, g, generators, limits);
    }
    if rows <= 161 {
        return finish_within::<161, 966>(u, e, c, rows, g, generators, limits);
    }
    finish_within::<860, 5160>(u, e, c, rows, g, generators, limits)
}

// The same in arrays that have room for N rows, which hold M numbers.
fn finish_within<const N: usize, const M: usize>(
    u: Unfinished,
    e: &[u8],
    c: &[i64],
    rows: usize,
    g: &mut [i64],
    generators: usize,
    limits: Limits,
) -> Result<PolyZonotope, Cause>
    requires { Finishable u e.now c.now rows g.old generators × (limits.terms ≤ 40) × (limits.generators ≤ 24)
        × (limits.weights ≡ standard_weights) × (rows ≤ N) × (N ≤ 860) × (M ≡ N * 6) }
    ensures { result ≡ settled (finish standard_weights limits.terms limits.generators
        (held u e.now c.now rows g.old generators)) }
{
    let mut places = [0u16; N];
    let mut heads = [0u16; N];
    let mut sums = [0i64; M];
    let finished = finish::finish(
        u,
        e,
        c,
        &mut places[..rows],
        &mut heads[..rows],
        &mut sums,
        g,
        generators,
        limits,
    );
    finished.ok_or(Cause::ResultTooWide)
}
