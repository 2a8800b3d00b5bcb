// Examples of the polynomial step.
use crate::{sets, show};
use answers::Changed;
use std::io;
use zonotope::PolyZonotope;

// The examples that are worked out whole, then refusals with what they leave in the work slices.
pub fn examples(rt: &impl Print) -> io::Result<()> {
    print!(rt; "step: a half")?;
    show::whole_set(rt, along_a_line(sets::line(1), 2048, 0))?;
    print!(rt; "step: exponents 32 + 32")?;
    show::whole_set(rt, along_a_line(sets::high_power(), 0, 4096))?;
    print!(rt; "step: the listing")?;
    show::whole_set(rt, along_a_line(sets::line(4096), -4096, 4096))?;
    print!(rt; "step: halves")?;
    show::whole_set(rt, along_a_line(sets::halves(), 2048, 0))?;
    print!(rt; "step: two coordinates")?;
    show::whole_set(rt, in_the_plane(sets::plane()))?;
    twelve_factors(rt)?;
    refusals(rt)
}

// The sum of twelve factors, 512 times as large; then x + x² twice. The first of these steps has 90 terms to fold to 40, the second all 860
// rows.
fn twelve_factors(rt: &impl Print) -> io::Result<()> {
    let sum = sums::tied_sum(sets::first_six(), sets::next_six());
    let s = sum.set;
    let large = eight_times(eight_times(eight_times(s)));
    let once = along_a_line(large, 4096, 4096);
    print!(rt; "step: twelve factors")?;
    show::changed(rt, once)?;
    print!(rt; "step: 860 rows")?;
    let s = once.set;
    show::changed(rt, along_a_line(s, 4096, 4096))
}

// 8x.
fn eight_times(s: PolyZonotope) -> PolyZonotope {
    let r = along_a_line(s, 32768, 0);
    r.set
}

// From one coordinate to one, with fresh work slices.
pub fn along_a_line(s: PolyZonotope, a: i32, q: i32) -> Changed {
    let constant = [0i32; 1];
    let linear = [a];
    let quadratic = [q];
    let mut w = [0i64; 5160];
    let mut e = [0u8; 10320];
    step::step(s, 1, 1, &constant, &linear, &quadratic, &mut w, &mut e)
}

// x' = 100 + x/2 + y/4 + xy, y' = -100 + y + x².
fn in_the_plane(s: PolyZonotope) -> Changed {
    let constant = [100i32, -100];
    let linear = [2048i32, 1024, 0, 4096];
    let quadratic = [0i32, 4096, 0, 0, 4096, 0, 0, 0];
    let mut w = [0i64; 5160];
    let mut e = [0u8; 10320];
    step::step(s, 2, 2, &constant, &linear, &quadratic, &mut w, &mut e)
}

fn refusals(rt: &impl Print) -> io::Result<()> {
    print!(rt; "step: short work")?;
    in_work(rt, sets::line(1), 5159, 1, 1, 0, 4096)?;
    print!(rt; "step: to no coordinate")?;
    in_work(rt, sets::line(1), 5161, 0, 1, 0, 4096)?;
    print!(rt; "step: from two coordinates")?;
    in_work(rt, sets::line(1), 5161, 1, 2, 0, 4096)?;
    print!(rt; "step: of two coordinates")?;
    in_work(rt, sets::plane(), 5161, 1, 1, 0, 4096)?;
    print!(rt; "step: entry 32768")?;
    in_work(rt, sets::line(1), 5161, 1, 1, 0, 32768)?;
    print!(rt; "step: entry 32769")?;
    in_work(rt, sets::line(1), 5161, 1, 1, 0, 32769)?;
    print!(rt; "step: to 1048575 and 1")?;
    in_work(rt, sets::line(1), 5161, 1, 1, 1048575, 4096)?;
    print!(rt; "step: to 1048576 and 1")?;
    in_work(rt, sets::line(1), 5161, 1, 1, 1048576, 4096)
}

// The answer of the step c + ax in work slices that are filled with 7, and what their first, last needed and later places then hold.
fn in_work(
    rt: &impl Print,
    s: PolyZonotope,
    numbers: usize,
    m: usize,
    n: usize,
    c: i32,
    a: i32,
) -> io::Result<()> {
    let constant = [c];
    let linear = [a];
    let quadratic = [0i32; 1];
    let mut w = [7i64; 5161];
    let mut e = [7u8; 10321];
    if 5161 < numbers {
        return Ok(());
    }
    let r = step::step(
        s,
        m,
        n,
        &constant,
        &linear,
        &quadratic,
        &mut w[0..numbers],
        &mut e,
    );
    let o = r.outcome;
    show::outcome(rt, o)?;
    show::number(rt, w[0])?;
    show::number(rt, w[5159])?;
    show::number(rt, w[5160])?;
    show::number(rt, e[0])?;
    show::number(rt, e[10319])?;
    show::number(rt, e[10320])?;
    println!(rt)
}
