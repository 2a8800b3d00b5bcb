// The raw numbers of the image of a set under a step on six coordinates, in 1/16,777,216 of a unit in the last place.
#![tactic(auto)]

mod pairs;
pub mod parts;
pub mod terms;
