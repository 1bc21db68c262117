// The two ends of a trip: the work space is made ready for the search, start and goal have their places, and the corners
// linked to them their flags.
#![tactic(auto)]

ghost use Rattle.floor.specs.Lent.{on};
ghost use Rattle.std.specs.Prelude.{ℕ, ◌+◌, ◌<◌, ◌≤◌, length};
ghost use Rattle.places.specs.Places.{Ascending};
ghost use Rattle.plan.specs.Lent.{lists_of};
ghost use Rattle.ends.specs.Flags.{Flaggable};
ghost use Rattle.ends.specs.Prepared.{Searchable, Empty, EndFlags, Prepared};
ghost use Rattle.ends.specs.Trips.{TripOf};

use floor::Floor;
use places::{BY_GOAL, BY_START, Trip};
use plan::Plan;

mod flags;

// The trip from start to goal, with the places that stand for them: a corner's own, or one of the two behind the corners.
fn trip_of(w: usize, corners: &[u16], start: usize, goal: usize) -> Trip
    requires { Ascending corners.now × (length corners.now ≤ 2048) }
    ensures { TripOf w corners.now start goal result }
{
    let k = corners.len();
    let from = places::find(corners, start).unwrap_or(k);
    let to = places::find(corners, goal).unwrap_or(k + 1);
    Trip {
        w,
        k,
        start,
        goal,
        from,
        to,
    }
}

// Sets the flags of the corners that a cell is linked to, where it is none itself.
fn flag_end(floor: &Floor, plan: &Plan, work: &mut [u32], column: usize, cell: usize)
    requires ready { on Flaggable floor.now.grid plan.now.clear.now plan.now.corners.now cell (length plan.now.corners.now + 2) column work.old }
    requires empty { Empty (length plan.now.corners.now + 2) column work.old }
    ensures { on EndFlags floor.now.grid plan.now.corners.now cell (length plan.now.corners.now + 2) column work.old work.new }
{
    if !corners::corner_cell(floor, cell) {
        flags::flag_links(floor, plan, work, column, cell);
    }
}

// Makes an empty work space ready for the search from start to goal.
pub fn prepare(floor: &Floor, plan: &Plan, start: usize, goal: usize, work: &mut [u32]) -> Trip
    requires able { on Searchable floor.now.grid (lists_of plan.now) start goal work.old }
    requires empty { (c : ℕ) → c < 6 → Empty (length plan.now.corners.now + 2) c work.old }
    ensures { on Prepared floor.now.grid (lists_of plan.now) start goal result work.old work.new }
{
    flag_end(floor, plan, work, BY_START, start);
    flag_end(floor, plan, work, BY_GOAL, goal);
    trip_of(floor.grid.w, plan.corners, start, goal)
}
