// The operations under the calls that change a set: on sets, radii, limits and a next identifier that were examined and accepted. And the
// tests of two sets, which the sums and the hull share.

#![tactic(auto)]

pub mod arguments;
pub mod disturbance;
pub mod reduction;
pub mod sum;
