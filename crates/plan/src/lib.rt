// What a plan is, and the links of a floor's turning points: starts and neighbours, found and written into two lent lists.
#![tactic(auto)]

mod inserting;
mod linking;

pub use inserting::listed;
pub use linking::{link, link_one};

pub const MAX_CORNERS: usize = 2048;

pub const MAX_ARCS: usize = 32768;

// The four lists of a plan, or those that are lent for one: clearances, turning points, starts and neighbours.
#[derive(Clone, Copy)]
pub struct Plan<'a> {
    pub clear: &'a [u8],
    pub corners: &'a [u16],
    pub starts: &'a [u16],
    pub neighbours: &'a [u16],
}
