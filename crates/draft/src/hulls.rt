// Examples of the hull.
use crate::{sets, show};
use std::io;

// Two outcomes in one set; then the next identifier and the number of factors, each from both sides of its limit.
pub fn examples(rt: &impl Print) -> io::Result<()> {
    print!(rt; "hull: a latch")?;
    let latch = hull::hull(sets::line(4), sets::lower_line(), 65536);
    show::whole_set(rt, latch)?;
    print!(rt; "hull: odd halves")?;
    show::whole_set(rt, hull::hull(sets::line(1), sets::line(3), 65536))?;
    print!(rt; "hull: independent parts 5 and 4")?;
    show::changed(
        rt,
        hull::hull(sets::around(2, 3, 2), sets::around(0, 1, 3), 65536),
    )?;
    print!(rt; "hull: mark 65536 again")?;
    let s = latch.set;
    show::changed(rt, hull::hull(sets::line(4), s, 65536))?;
    print!(rt; "hull: mark 65537")?;
    show::changed(rt, hull::hull(sets::line(4), s, 65537))?;
    factors(rt)
}

fn factors(rt: &impl Print) -> io::Result<()> {
    let twelve = sums::tied_sum(sets::first_six(), sets::next_six());
    let s = twelve.set;
    let eleven = sums::reduce(s, 11, 0);
    let s = eleven.set;
    print!(rt; "hull: 11 factors")?;
    show::changed(rt, hull::hull(s, s, 65536))?;
    print!(rt; "hull: 12 factors")?;
    show::changed(rt, hull::hull(sets::first_six(), sets::next_six(), 65536))
}
