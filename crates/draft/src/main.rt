// One example of each call, and document 01's run-only cases of single operations. Its `stdout` was worked out by other means:
// docs/EXAMPLES.md.
#![tactic(auto)]

mod hulls;
mod origins;
mod ranges;
mod sets;
mod show;
mod steps;

use std::io;

fn examples_of_one_set(rt: &impl Print) -> io::Result<()> {
    print!(rt; "exponent 63")?;
    show::examined(rt, zonotope::examine(sets::power(63)))?;
    print!(rt; "exponent 64")?;
    show::examined(rt, zonotope::examine(sets::power(64)))?;
    print!(rt; "box")?;
    show::ends(rt, sets::curved())?;
    print!(rt; "disturb")?;
    let radii = [1u32, 4u32];
    show::changed(rt, sums::disturb(sets::curved(), 2, &radii))?;
    print!(rt; "disturb by 0 and 4")?;
    let second = [0u32, 4u32];
    show::changed(rt, sums::disturb(sets::curved(), 2, &second))?;
    print!(rt; "disturb by 0 and 0")?;
    let zeros = [0u32, 0u32];
    show::changed(rt, sums::disturb(sets::curved(), 2, &zeros))?;
    print!(rt; "disturb by 0 and 1048577")?;
    let wide = [0u32, 1048577u32];
    show::changed(rt, sums::disturb(sets::curved(), 2, &wide))?;
    print!(rt; "disturb by 0 alone")?;
    let one = [0u32];
    show::changed(rt, sums::disturb(sets::curved(), 1, &one))?;
    print!(rt; "reduce to 1 term")?;
    show::changed(rt, sums::reduce(sets::curved(), 1, 0))?;
    print!(rt; "reduce to 0 terms")?;
    show::changed(rt, sums::reduce(sets::curved(), 0, 0))?;
    print!(rt; "reduce to 41 terms")?;
    show::changed(rt, sums::reduce(sets::curved(), 41, 0))?;
    print!(rt; "fold 3")?;
    show::changed(rt, sums::reduce(sets::square(0, 3), 0, 0))?;
    print!(rt; "fold -3")?;
    show::changed(rt, sums::reduce(sets::square(0, -3), 0, 0))?;
    print!(rt; "fold -3 at the widest")?;
    show::changed(rt, sums::reduce(sets::square(-1048573, -3), 0, 0))
}

fn examples_of_checks(rt: &impl Print) -> io::Result<()> {
    let normal = [1i32, 0i32];
    let mut bound = [0i64; 1];
    print!(rt; "check 0")?;
    show::judged(rt, bounds::check(sets::curved(), 2, 1, &normal, &bound))?;
    bound[0] = 1;
    print!(rt; "check 1")?;
    show::judged(rt, bounds::check(sets::curved(), 2, 1, &normal, &bound))?;
    print!(rt; "check no halfspace")?;
    show::judged(rt, bounds::check(sets::curved(), 2, 0, &normal, &bound))
}

fn examples_of_sums(rt: &impl Print) -> io::Result<()> {
    print!(rt; "tied sum")?;
    show::changed(rt, sums::tied_sum(sets::line(1), sets::line(-1)))?;
    print!(rt; "independent sum")?;
    show::changed(
        rt,
        sums::independent_sum(sets::line(1), sets::line(-1), 65536),
    )?;
    print!(rt; "mark too low")?;
    show::changed(
        rt,
        sums::independent_sum(sets::line(1), sets::line(-1), 65535),
    )?;
    print!(rt; "12 factors")?;
    let twelve = sums::tied_sum(sets::first_six(), sets::next_six());
    show::changed(rt, twelve)?;
    print!(rt; "13 factors")?;
    let s = twelve.set;
    show::changed(rt, sums::tied_sum(s, sets::thirteenth()))
}

fn main(rt: HostRuntime) -> io::Result<()> {
    examples_of_one_set(&rt)?;
    examples_of_checks(&rt)?;
    examples_of_sums(&rt)?;
    steps::examples(&rt)?;
    ranges::examples(&rt)?;
    hulls::examples(&rt)?;
    origins::examples(&rt)
}
