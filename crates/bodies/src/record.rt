// The record of the set that a body says: rows of 12 exponents and of 6 numbers, the rest 0.
ghost use Rattle.std.specs.Prelude.{◌≡◌, [], map, ◌+◌, ◌*◌, ◌/◌, ◌%◌, ◌≤◌, length, get_or, nat_abs};
ghost use Rattle.whole.specs.Tab.{tab};
ghost use Rattle.model.specs.Set.{at};
ghost use Rattle.model.specs.Bytes.{number, words};
ghost use Rattle.zonotope.specs.Record.{pack};
ghost use Rattle.bodies.specs.Rows.{write_rows, RowsCallable, RowsGiven};
ghost use Rattle.bodies.specs.Set.{SetLaid, set_of, centre_from, radii_from};
ghost use Rattle.bodies.specs.Filled.{exponent_rows, coefficient_rows, generator_rows};

use crate::counts::SetCounts;
use zonotope::{PolyZonotope, Radii};

// The record of the set of a body with counts k.
pub fn filled(b: &[u8], k: SetCounts) -> PolyZonotope
    requires { SetLaid k (length b.now) }
    ensures { result ≡ pack (set_of b.now k) }
{
    let none = [0u32; 6];
    PolyZonotope {
        dimension: k.dimension,
        factors: k.factors,
        terms: k.terms,
        generators: k.generators,
        identifiers: identifiers(b, k),
        centre: centre(b, k),
        exponents: exponents(b, k),
        coefficients: coefficients(b, k),
        vectors: vectors(b, k),
        radii: Radii {
            carried: none,
            rounded: none,
            folded: none,
            given: given(b, k),
        },
    }
}

// ---- the arrays: what is there is written to zeros
fn identifiers(b: &[u8], k: SetCounts) -> [u32; 12]
    requires { SetLaid k (length b.now) }
    ensures { result ≡ tab 12 (λ i. get_or (tab k.factors (λ j. number 4 b.now (4 + 4 * j))) i 0) }
{
    let mut out = [0u32; 12];
    words::fill(&mut out[..k.factors], |i| words::unsigned_at(b, 4 + 4 * i));
    out
}

fn centre(b: &[u8], k: SetCounts) -> [i32; 6]
    requires { SetLaid k (length b.now) }
    ensures { result ≡ tab 6 (at (words b.now (centre_from k) k.dimension)) }
{
    let mut out = [0i32; 6];
    words::read_words(b, k.centre_from(), &mut out[..k.dimension]);
    out
}

// The radii that the set gives.
fn given(b: &[u8], k: SetCounts) -> [u32; 6]
    requires { SetLaid k (length b.now) }
    ensures { result ≡ tab 6 (λ j. get_or (map nat_abs (words b.now (radii_from k) k.dimension)) j 0) }
{
    let mut out = [0u32; 6];
    words::read_sizes(b, k.radii_from(), &mut out[..k.dimension]);
    out
}

fn exponents(b: &[u8], k: SetCounts) -> [u8; 480]
    requires { SetLaid k (length b.now) }
    ensures { result ≡ tab 480 (λ x. get_or (get_or (exponent_rows b.now k) (x / 12) []) (x % 12) 0) }
{
    let from = k.terms_from();
    let bytes = k.term_bytes();
    let mut out = [0u8; 480];
    fill_rows(
        &mut out,
        12,
        k.factors,
        k.terms,
        |t, j| b[from + t * bytes + j],
    );
    out
}

fn coefficients(b: &[u8], k: SetCounts) -> [i32; 240]
    requires { SetLaid k (length b.now) }
    ensures { result ≡ tab 240 (λ x. at (get_or (coefficient_rows b.now k) (x / 6) []) (x % 6)) }
{
    let from = k.terms_from() + k.factors;
    let bytes = k.term_bytes();
    let mut out = [0i32; 240];
    fill_rows(
        &mut out,
        6,
        k.dimension,
        k.terms,
        |t, j| words::word_at(b, from + t * bytes + 4 * j),
    );
    out
}

// The numbers of the generators.
fn vectors(b: &[u8], k: SetCounts) -> [i32; 144]
    requires { SetLaid k (length b.now) }
    ensures { result ≡ tab 144 (λ x. at (get_or (generator_rows b.now k) (x / 6) []) (x % 6)) }
{
    let from = k.generators_from();
    let bytes = 4 * k.dimension;
    let mut out = [0i32; 144];
    fill_rows(
        &mut out,
        6,
        k.dimension,
        k.generators,
        |t, j| words::word_at(b, from + t * bytes + 4 * j),
    );
    out
}

// Row t of `out`, whose rows have `width` places, holds in its first n places what `read` gives for t and the place.
fn fill_rows<T: Copy, F: Fn(usize, usize) -> T>(
    out: &mut [T],
    width: usize,
    n: usize,
    rows: usize,
    read: F,
)
    requires room { (n ≤ width) × (rows * width ≤ length out.old) }
    requires callable { RowsCallable (F.pre read) rows n }
    ensures { (f : _) → RowsGiven (F.post read) rows n f → out.new ≡ write_rows out.old width f n rows }
{
    for t in 0..rows {
        let from = t * width;
        // The closure asks what `read` asks of these places, since a closure's own rule asks it of every place.
        words::fill(
            &mut out[from..from + n],
            |j| -> T
                requires { F.pre read t j }
            { read(t, j) },
        );
    }
}
