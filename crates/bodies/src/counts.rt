// How many there are of each part of a set and of a step, and so where the parts stand in a body.
ghost use Rattle.std.specs.Prelude.{◌≡◌, ◌+◌, ◌*◌, ◌≤◌, ◌<◌, length};
ghost use Rattle.model.specs.Body.{step_rows, step_columns};
ghost use Rattle.bodies.specs.Set.{counts_of, counts_out, InLimits, centre_from, terms_from, term_bytes, generators_from, radii_from};

use zonotope::arguments;

// ---- a set
// How many coordinates, factors, terms and generators a set has.
#[derive(Clone, Copy)]
pub struct SetCounts {
    pub dimension: usize,
    pub factors: usize,
    pub terms: usize,
    pub generators: usize,
}

impl SetCounts {
    // The counts of a body.
    pub fn of(b: &[u8]) -> SetCounts
        requires { 4 ≤ length b.now }
        ensures { result ≡ counts_of b.now }
    {
        SetCounts {
            dimension: words::byte_at(b, 0),
            factors: words::byte_at(b, 1),
            terms: words::byte_at(b, 2),
            generators: words::byte_at(b, 3),
        }
    }

    // 4: whether a count is out of limits.
    pub fn out_of_limits(self) -> bool
        ensures { result ≡ counts_out self }
    {
        arguments::bad_dimension(self.dimension)
            || zonotope::MAX_FACTORS < self.factors
            || zonotope::MAX_TERMS < self.terms
            || zonotope::MAX_GENERATORS < self.generators
    }

    // Where the centre stands.
    pub fn centre_from(self) -> usize
        requires { InLimits self }
        ensures { result ≡ centre_from self }
    {
        4 + 4 * self.factors
    }

    // Where the terms stand.
    pub fn terms_from(self) -> usize
        requires { InLimits self }
        ensures { result ≡ terms_from self }
    {
        self.centre_from() + 4 * self.dimension
    }

    // How many bytes a term has: an exponent for each factor, and a coefficient for each coordinate.
    pub fn term_bytes(self) -> usize
        requires { InLimits self }
        ensures { result ≡ term_bytes self }
    {
        self.factors + 4 * self.dimension
    }

    // Where the generators stand.
    pub fn generators_from(self) -> usize
        requires { InLimits self }
        ensures { result ≡ generators_from self }
    {
        self.terms_from() + self.terms * self.term_bytes()
    }

    // Where the radii stand.
    pub fn radii_from(self) -> usize
        requires { InLimits self }
        ensures { result ≡ radii_from self }
    {
        self.generators_from() + self.generators * (4 * self.dimension)
    }
}

// ---- a step
// How many rows and columns a step has, each a byte.
#[derive(Clone, Copy)]
pub struct StepCounts {
    pub rows: usize,
    pub columns: usize,
    ghost bytes: { (rows < 256) × (columns < 256) },
}

impl StepCounts {
    // The counts of a body.
    pub fn of(b: &[u8]) -> StepCounts
        requires { 2 ≤ length b.now }
        ensures { (result.rows ≡ step_rows b.now) × (result.columns ≡ step_columns b.now) }
    {
        StepCounts {
            rows: words::byte_at(b, 0),
            columns: words::byte_at(b, 1),
        }
    }

    // How many entries A has.
    pub fn linear(self) -> usize
        ensures { (result ≡ self.rows * self.columns) × (result ≤ 65025) }
    {
        self.rows * self.columns
    }

    // How many entries Q has.
    pub fn quadratic(self) -> usize
        ensures { (result ≡ self.rows * self.columns * self.columns) × (result ≤ 16581375) }
    {
        self.linear() * self.columns
    }

    // How many bytes the entries of c, A and Q and the two counts take.
    pub fn length(self) -> usize
        ensures value { result ≡ 2 + 4 * self.rows + 4 * (self.rows * self.columns) + 4 * (self.rows * self.columns * self.columns) }
        ensures bound { result ≤ 66586622 }
    {
        2 + 4 * self.rows + 4 * self.linear() + 4 * self.quadratic()
    }
}
