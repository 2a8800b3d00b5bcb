// What the program prints.
use states::{Answer, Outcome, Refusal};
use std::io;

// A number after a blank.
fn number(rt: &impl Print, v: i64) -> io::Result<()> {
    print!(rt; " {v}")
}

// A count after a blank.
fn count(rt: &impl Print, n: usize) -> io::Result<()> {
    print!(rt; " {n}")
}

// The field's number and tag, and what is answered.
pub fn answer(rt: &impl Print, a: Answer, tag: u8) -> io::Result<()> {
    let field = a.field;
    print!(rt; "{field} {tag}")?;
    outcome(rt, a)
}

// How many fields were accepted.
pub fn accepted(rt: &impl Print, n: usize) -> io::Result<()> {
    print!(rt; "accepted {n}")
}

// What folding added to each coordinate's radius.
pub fn folded(rt: &impl Print, totals: [u64; 6]) -> io::Result<()> {
    print!(rt; "folded")?;
    for total in &totals {
        print!(rt; " {total}")?;
    }
    println!(rt)
}

// The ends of each coordinate, the verdict, or the refusal.
pub fn outcome(rt: &impl Print, a: Answer) -> io::Result<()> {
    match a.outcome {
        Outcome::Inside => ends(rt, a.sides, &a.low, &a.high)?,
        Outcome::Safe => print!(rt; " safe")?,
        Outcome::Unknown => print!(rt; " unknown")?,
        Outcome::Refused(r) => refusal(rt, r)?,
        Outcome::Skipped => print!(rt; " skipped")?,
        Outcome::Unfit(cause) => {
            let number = cause.number();
            print!(rt; " unfit {number}")?
        }
    }
    println!(rt)
}

fn refusal(rt: &impl Print, r: Refusal) -> io::Result<()> {
    print!(rt; " refused")?;
    count(rt, usize::from(r.cause.number()))?;
    count(rt, r.place)
}

// The ends of the first n coordinates.
fn ends(rt: &impl Print, n: usize, low: &[i64; 6], high: &[i64; 6]) -> io::Result<()> {
    for i in 0..n.min(6) {
        number(rt, low[i])?;
        number(rt, high[i])?;
    }
    Ok(())
}
