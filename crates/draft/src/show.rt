// What the program prints.
ghost use Rattle.std.specs.Prelude.{◌+◌, ◌≤◌, ◌<◌, length};

use answers::Changed;
use std::fmt::Display;
use std::io;
use verdicts::Verdict;
use zonotope::{Cause, PolyZonotope, Radii};

// A number after a blank.
pub fn number<N: Display + Drop>(rt: &impl Print, n: N) -> io::Result<()> {
    print!(rt; " {n}")
}

// Numbers, each after a blank.
fn numbers<N: Display + Copy + Drop>(rt: &impl Print, xs: &[N]) -> io::Result<()> {
    for x in xs {
        number(rt, *x)?;
    }
    Ok(())
}

// A refusal and the number of its cause.
fn refusal(rt: &impl Print, cause: Cause) -> io::Result<()> {
    let number = cause.number();
    print!(rt; " refused {number}")
}

// The end of a line: a refusal.
fn refused(rt: &impl Print, cause: Cause) -> io::Result<()> {
    refusal(rt, cause)?;
    println!(rt)
}

// That a set was accepted, or its refusal.
pub fn outcome(rt: &impl Print, o: Result<(), Cause>) -> io::Result<()> {
    match o {
        Ok(()) => print!(rt; " accepted"),
        Err(cause) => refusal(rt, cause),
    }
}

// The end of a line: what examining a set said.
pub fn examined(rt: &impl Print, o: Result<(), Cause>) -> io::Result<()> {
    outcome(rt, o)?;
    println!(rt)
}

// The end of a line: what a check said.
pub fn judged(rt: &impl Print, v: Result<Verdict, Cause>) -> io::Result<()> {
    match v {
        Ok(Verdict::Safe) => println!(rt; " safe"),
        Ok(Verdict::Unknown) => println!(rt; " unknown"),
        Err(cause) => refused(rt, cause),
    }
}

// The end of a line: the ends of the first two coordinates, or the refusal of the set.
pub fn ends(rt: &impl Print, s: PolyZonotope) -> io::Result<()> {
    match bounds::box_of(s) {
        Ok(b) => {
            numbers(rt, &[b.low[0], b.high[0], b.low[1], b.high[1]])?;
            println!(rt)
        }
        Err(cause) => refused(rt, cause),
    }
}

// The end of a line: how many factors, terms and generators a changed set has, and its ends; or the refusal.
pub fn changed(rt: &impl Print, c: Changed) -> io::Result<()> {
    let s = c.set;
    match c.outcome {
        Ok(()) => {
            numbers(rt, &[s.factors, s.terms, s.generators])?;
            ends(rt, s)
        }
        Err(cause) => refused(rt, cause),
    }
}

// ---- a whole set, a line for each part

// A line for each part of the set; or the refusal.
pub fn whole_set(rt: &impl Print, c: Changed) -> io::Result<()> {
    match c.outcome {
        Ok(()) => {
            println!(rt)?;
            parts(rt, c.set)
        }
        Err(cause) => refused(rt, cause),
    }
}

// The lines of a set whose counts are within limits.
fn parts(rt: &impl Print, s: PolyZonotope) -> io::Result<()> {
    let n = s.dimension;
    let p = s.factors;
    let h = s.terms;
    let q = s.generators;
    if zonotope::MAX_DIMENSION < n {
        return Ok(());
    }
    if zonotope::MAX_FACTORS < p {
        return Ok(());
    }
    if zonotope::MAX_TERMS < h {
        return Ok(());
    }
    if zonotope::MAX_GENERATORS < q {
        return Ok(());
    }
    print!(rt; "  identifiers")?;
    numbers(rt, &s.identifiers[..p])?;
    print!(rt; "\n  centre")?;
    numbers(rt, &s.centre[..n])?;
    terms(rt, s, h, p, n)?;
    generators(rt, s, q, n)?;
    radii(rt, s.radii, n)?;
    println!(rt)
}

// A line for each part of the radii.
fn radii(rt: &impl Print, r: Radii, n: usize) -> io::Result<()>
    requires { n ≤ 6 }
{
    print!(rt; "\n  carried")?;
    numbers(rt, &r.carried[..n])?;
    print!(rt; "\n  rounded")?;
    numbers(rt, &r.rounded[..n])?;
    print!(rt; "\n  folded")?;
    numbers(rt, &r.folded[..n])?;
    print!(rt; "\n  given")?;
    numbers(rt, &r.given[..n])
}

// A line for each term.
fn terms(rt: &impl Print, s: PolyZonotope, h: usize, p: usize, n: usize) -> io::Result<()>
    requires { (h ≤ 40) × (p ≤ 12) × (n ≤ 6) }
{
    for t in 0..h {
        term(rt, s, t, p, n)?;
    }
    Ok(())
}

// Term t: its exponents, then its coefficients.
fn term(rt: &impl Print, s: PolyZonotope, t: usize, p: usize, n: usize) -> io::Result<()>
    requires { (t < 40) × (p ≤ 12) × (n ≤ 6) }
{
    print!(rt; "\n  term")?;
    numbers(rt, &s.exponents[t * 12..t * 12 + p])?;
    print!(rt; " :")?;
    numbers(rt, &s.coefficients[t * 6..t * 6 + n])
}

// A line for each generator.
fn generators(rt: &impl Print, s: PolyZonotope, q: usize, n: usize) -> io::Result<()>
    requires { (q ≤ 24) × (n ≤ 6) }
{
    for g in 0..q {
        generator(rt, s, g, n)?;
    }
    Ok(())
}

// Generator g.
fn generator(rt: &impl Print, s: PolyZonotope, g: usize, n: usize) -> io::Result<()>
    requires { (g < 24) × (n ≤ 6) }
{
    print!(rt; "\n  generator")?;
    numbers(rt, &s.vectors[g * 6..g * 6 + n])
}
