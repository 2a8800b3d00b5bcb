// The totals of what folding added to the radii in the accepted fields.
ghost use Rattle.std.specs.Prelude.{◌≡◌};
ghost use Rattle.advance.specs.Totals.{folded_from, grown, Rising, Few, Leavable};

use core::array;
use states::State;
use zonotope::PolyZonotope;

// After a field that leaves this set, whose folded parts were made anew or go on from those of the set before.
pub fn after(st: State, set: PolyZonotope, anew: bool) -> [u64; 6]
    requires { Leavable st anew set }
    ensures { result ≡ grown st.folded (folded_from anew st) set.radii.folded }
{
    more_folded(st.folded, before(st, anew), set.radii.folded)
}

// The folded parts from which they go on.
#[tactic(auto, unfolding(whole::specs::Tab::tab))]
fn before(st: State, anew: bool) -> [u32; 6]
    ensures { result ≡ folded_from anew st }
{
    if anew { [0; 6] } else { st.set.radii.folded }
}

// After folded parts grew from these to those.
fn more_folded(totals: [u64; 6], from: [u32; 6], to: [u32; 6]) -> [u64; 6]
    requires { Rising from to × Few totals }
    ensures { result ≡ grown totals from to }
{
    array::from_fn(|i| totals[i] + u64::from(to[i] - from[i]))
}
