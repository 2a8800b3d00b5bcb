// Examples of the ranged step.
use crate::{sets, show};
use answers::Changed;
use std::io;
use zonotope::PolyZonotope;

// The examples that are worked out whole, then refusals with what they leave in the work slices.
pub fn examples(rt: &impl Print) -> io::Result<()> {
    print!(rt; "ranged step: 5 per cent")?;
    show::whole_set(rt, five_per_cent(sets::line(4096)))?;
    let none = [0u32; 4];
    let no_forms = [0u32; 8];
    print!(rt; "ranged step: no half-widths")?;
    show::whole_set(rt, in_the_plane(sets::plane(), &none, &no_forms))?;
    let linear = [41u32, 0, 0, 205];
    let quadratic = [0u32, 41, 0, 0, 3, 0, 0, 0];
    print!(rt; "ranged step: two coordinates")?;
    show::whole_set(rt, in_the_plane(sets::plane(), &linear, &quadratic))?;
    refusals(rt)
}

// x, with a coefficient that is known within 5 per cent.
fn five_per_cent(s: PolyZonotope) -> Changed {
    let constant = [0i32; 1];
    let linear = [4096i32];
    let quadratic = [0i32; 1];
    let da = [205u32];
    let dq = [0u32; 1];
    let mut w = [0i64; 5160];
    let mut e = [0u8; 10320];
    step::ranged_step(
        s, 1, 1, &constant, &linear, &quadratic, &da, &dq, &mut w, &mut e,
    )
}

// x' = 100 + x/2 + y/4 + xy, y' = -100 + y + x², with half-widths.
fn in_the_plane(s: PolyZonotope, da: &[u32], dq: &[u32]) -> Changed {
    let constant = [100i32, -100];
    let linear = [2048i32, 1024, 0, 4096];
    let quadratic = [0i32, 4096, 0, 0, 4096, 0, 0, 0];
    let mut w = [0i64; 5160];
    let mut e = [0u8; 10320];
    step::ranged_step(
        s, 2, 2, &constant, &linear, &quadratic, da, dq, &mut w, &mut e,
    )
}

fn refusals(rt: &impl Print) -> io::Result<()> {
    print!(rt; "ranged step: short work")?;
    in_work(rt, sets::line(1), 5159, 0, 4096, 0, 1)?;
    print!(rt; "ranged step: no half-width of Q")?;
    in_work(rt, sets::line(1), 5161, 0, 4096, 0, 0)?;
    print!(rt; "ranged step: of two coordinates")?;
    in_work(rt, sets::plane(), 5161, 0, 4096, 0, 1)?;
    print!(rt; "ranged step: 32767 and 1")?;
    in_work(rt, sets::line(1), 5161, 0, 32767, 1, 1)?;
    print!(rt; "ranged step: 32767 and 2")?;
    in_work(rt, sets::line(1), 5161, 0, 32767, 2, 1)?;
    print!(rt; "ranged step: to 1048575 and 1")?;
    in_work(rt, sets::line(1), 5161, 1048575, 4096, 0, 1)?;
    print!(rt; "ranged step: to 1048575 and 1 with a half-width")?;
    in_work(rt, sets::line(1), 5161, 1048575, 4096, 1, 1)
}

// The answer of the step c + ax, with the half-width d of a and so many half-widths of Q, in work slices that are filled with 7, and what
// their first, last needed and later places then hold.
fn in_work(
    rt: &impl Print,
    s: PolyZonotope,
    numbers: usize,
    c: i32,
    a: i32,
    d: u32,
    forms: usize,
) -> io::Result<()> {
    let constant = [c];
    let linear = [a];
    let quadratic = [0i32; 1];
    let da = [d];
    let dq = [0u32; 1];
    let mut w = [7i64; 5161];
    let mut e = [7u8; 10321];
    if 5161 < numbers {
        return Ok(());
    }
    if 1 < forms {
        return Ok(());
    }
    let r = step::ranged_step(
        s,
        1,
        1,
        &constant,
        &linear,
        &quadratic,
        &da,
        &dq[0..forms],
        &mut w[0..numbers],
        &mut e,
    );
    let o = r.outcome;
    show::outcome(rt, o)?;
    show::number(rt, w[0])?;
    show::number(rt, w[5159])?;
    show::number(rt, w[5160])?;
    show::number(rt, e[0])?;
    show::number(rt, e[10319])?;
    show::number(rt, e[10320])?;
    println!(rt)
}
