// The refusals 1 to 11 of a query.
ghost use Rattle.floor.specs.Refusals.{FirstOf, Tells};
ghost use Rattle.floor.specs.Lent.{on, IsLent};
ghost use Rattle.floor.specs.Codes.{code_of};
ghost use Rattle.plan.specs.Lent.{lists_of};
ghost use Rattle.query.specs.Query.{Shut};
ghost use Rattle.query.specs.Refusing.{Judged, end_rows};
ghost use Rattle.std.specs.Prelude.{◌≤◌, IfOk};

use floor::{Cell, Floor, Refusal};
use plan::Plan;

// The floor, or the first of the refusals 1, 2, 3 and 8 that applies. It takes words, w and h, which are not a floor yet.
pub fn check_plan<'a>(
    words: &'a [u64],
    w: usize,
    h: usize,
    plan: &Plan,
) -> Result<Floor<'a>, Refusal>
    ensures code { Judged w h words.now (lists_of plan.now) (code_of result) }
    ensures same { IfOk result (λ floor. IsLent w h words.now floor.grid) }
{
    let floor = floor::check_floor(words, w, h)?;
    if matching::matches(&floor, plan) {
        Ok(floor)
    } else {
        Err(Refusal::Plan)
    }
}

// Whether a cell is outside or blocked.
pub fn shut(floor: &Floor, cell: Cell) -> bool
    ensures { Tells (on Shut floor.now.grid cell.x cell.y) result }
{
    floor.grid.w <= cell.x || floor.grid.h <= cell.y || !floor.grid.free_at(cell.x + 1, cell.y + 1)
}

// The first of the refusals 9, 10 and 11 that applies, where `room` work entries are lent.
pub fn check_ends(
    floor: &Floor,
    start: Cell,
    goal: Cell,
    corners: usize,
    room: usize,
) -> Result<(), Refusal>
    requires { corners ≤ 2048 }
    ensures { FirstOf (on end_rows floor.now.grid start.x start.y goal.x goal.y corners room) (code_of result) }
{
    if shut(floor, start) {
        return Err(Refusal::Start);
    }
    if shut(floor, goal) {
        return Err(Refusal::Goal);
    }
    if room < 6 * (corners + 2) {
        return Err(Refusal::Work);
    }
    Ok(())
}
