// Where a radius comes from: what each operation does to its four parts.
use crate::{sets, show, steps};
use std::io;

pub fn examples(rt: &impl Print) -> io::Result<()> {
    print!(rt; "parts: a tied sum")?;
    show::whole_set(rt, sums::tied_sum(sets::parted(), sets::parted()))?;
    print!(rt; "parts: an independent sum")?;
    show::whole_set(
        rt,
        sums::independent_sum(sets::parted(), sets::around(1, 2, 5), 65536),
    )?;
    print!(rt; "parts: a disturbance")?;
    let radii = [5u32];
    show::whole_set(rt, sums::disturb(sets::parted(), 1, &radii))?;
    print!(rt; "parts: a fold")?;
    show::whole_set(rt, sums::reduce(sets::parted(), 0, 0))?;
    print!(rt; "parts: a step")?;
    show::whole_set(rt, steps::along_a_line(sets::parted(), 2048, 0))?;
    print!(rt; "parts: a hull")?;
    show::whole_set(
        rt,
        hull::hull(sets::parted(), sets::around(10, 3, 2), 65536),
    )
}
