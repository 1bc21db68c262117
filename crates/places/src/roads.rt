// What a search goes over, as it is lent.
ghost use Rattle.std.specs.Prelude.{[]};
ghost use Rattle.places.specs.Places.{Indexed};
ghost use Rattle.places.specs.Chart.{chart, Fair};

use crate::Trip;

// The roads of a trip: the corners' cells; where the neighbours of each begin in the list of neighbours, which are cells; the table
// that tells the index of a corner by its cell; and the trip.
#[derive(Clone, Copy)]
pub struct Roads<'a> {
    pub corners: &'a [u16],
    pub starts: &'a [u16],
    pub neighbours: &'a [u16],
    pub table: &'a [u16],
    pub trip: Trip,
    // the chart of these is fair, before any corner is linked to start or goal
    pub ghost fair: { Fair (chart corners.now starts.now neighbours.now trip []) },
    pub ghost indexed: { Indexed corners.now table.now },
}
