// The plan of a floor: recognised. The neighbours of each turning point are found anew, looked up among those that the list has, and counted:
// each is shown once, so no memory is needed for them.
#![tactic(auto)]

ghost use Rattle.std.specs.Prelude.{IfSome, true, ◌≡◌, ◌*◌, ◌<◌, ◌≤◌, length};
ghost use Rattle.floor.specs.Refusals.{Tells};
ghost use Rattle.floor.specs.Lent.{of, on};
ghost use Rattle.ground.specs.Kind.{walkers};
ghost use Rattle.corners.specs.Lists.{part, Picked};
ghost use Rattle.corners.specs.Corners.{corner_cell, corner_cells};
ghost use Rattle.marks.specs.Marks.{Cleared};
ghost use Rattle.plan.specs.Lent.{lists_of};
ghost use Rattle.plan.specs.Plan.{LinkedCells, Links, Fits};
ghost use Rattle.plan.specs.Rising.{Rising};
ghost use Rattle.fields.specs.Fields.{Sweepable};
ghost use Rattle.matching.specs.Matching.{Started, RowsMatch, TallyShown, Tallied, FieldTallied};

use floor::Floor;
use plan::Plan;

// Whether the entries ascend.
fn rises(row: &[u16]) -> bool
    ensures { Tells (Rising row.now) result }
{
    row.is_sorted_by(|a, b| *a < *b)
}

// Counts what a row shows, if it shows a cell and the cell is listed; None where it is not listed.
fn tally_shown(neighbours: &[u16], shown: Option<usize>, count: usize) -> Option<usize>
    requires rising { Rising neighbours.now }
    requires small { IfSome shown (λ cell. cell < 65536) × (count ≤ length neighbours.now) }
    ensures { TallyShown neighbours.now shown count result }
{
    match shown {
        Some(cell) => plan::listed(neighbours, cell as u16).then_some(count + 1),
        None => Some(count),
    }
}

// Counts on, for the turning points that a field from `cell` shows.
fn tally_field(
    floor: &Floor,
    clear: &[u8],
    neighbours: &[u16],
    cell: usize,
    field: usize,
    count: usize,
) -> Option<usize>
    requires ready { on Sweepable floor.now.grid cell clear.now × (field < 8) }
    requires rising { Rising neighbours.now }
    requires before { on Tallied floor.now.grid cell neighbours.now field 0 count }
    ensures { on FieldTallied floor.now.grid cell neighbours.now field result }
{
    let mut sum = count;
    for shown in fields::rows(floor, clear, cell, field) {
        sum = tally_shown(neighbours, shown, sum)?;
    }
    Some(sum)
}

// Whether these are the neighbours of the turning point `cell`, ascending: each that is shown is listed, and no more are.
fn row_matches(floor: &Floor, clear: &[u8], neighbours: &[u16], cell: usize) -> bool
    requires ready { on Sweepable floor.now.grid cell clear.now × (of corner_cell floor.now.grid cell ≡ true) }
    ensures { Tells (Picked (on (LinkedCells walkers) floor.now.grid cell) (of corner_cells floor.now.grid) neighbours.now) result }
{
    if !rises(neighbours) {
        return false;
    }
    let mut count = 0;
    for field in 0..8 {
        let Some(more) = tally_field(floor, clear, neighbours, cell, field, count) else {
            return false;
        };
        count = more;
    }
    count == neighbours.len()
}

// Whether the list begins at 0, has n + 1 entries none of which is below the one before it, and ends at m.
fn starts_match(starts: &[u16], n: usize, m: usize) -> bool
    requires { n ≤ 2048 }
    ensures { Tells (Started n m starts.now) result }
{
    if starts.len() != n + 1 {
        return false;
    }
    if starts[0] != 0 {
        return false;
    }
    if usize::from(starts[n]) != m {
        return false;
    }
    starts.is_sorted()
}

// Whether the list has the neighbours of each turning point, where the starts say.
fn rows_match(floor: &Floor, plan: &Plan) -> bool
    requires clear { (4 * (floor.now.grid.w * floor.now.grid.h) ≤ length plan.now.clear.now) × on Cleared floor.now.grid plan.now.clear.now }
    requires corners { (plan.now.corners.now ≡ of corner_cells floor.now.grid) × (length plan.now.corners.now ≤ 2048) }
    requires starts { Started (length plan.now.corners.now) (length plan.now.neighbours.now) plan.now.starts.now }
    ensures { Tells (on RowsMatch floor.now.grid plan.now.corners.now plan.now.starts.now plan.now.neighbours.now) result }
{
    for (k, cell) in plan.corners.iter().enumerate() {
        let from = usize::from(plan.starts[k]);
        let to = usize::from(plan.starts[k + 1]);
        let row = &plan.neighbours[from..to];
        if !row_matches(floor, plan.clear, row, usize::from(*cell)) {
            return false;
        }
    }
    true
}

// Whether starts and neighbours are those of the turning points.
fn links_match(floor: &Floor, plan: &Plan) -> bool
    requires clear { (4 * (floor.now.grid.w * floor.now.grid.h) ≤ length plan.now.clear.now) × on Cleared floor.now.grid plan.now.clear.now }
    requires corners { (plan.now.corners.now ≡ of corner_cells floor.now.grid) × (length plan.now.corners.now ≤ 2048) }
    ensures { Tells (on (Links walkers) floor.now.grid plan.now.corners.now plan.now.starts.now plan.now.neighbours.now) result }
{
    starts_match(plan.starts, plan.corners.len(), plan.neighbours.len()) && rows_match(floor, plan)
}

// Whether four lists are the plan of a floor, within the limits of a plan.
pub fn matches(floor: &Floor, plan: &Plan) -> bool
    ensures { Tells (on Fits floor.now.grid (lists_of plan.now)) result }
{
    if plan::MAX_CORNERS < plan.corners.len() {
        return false;
    }
    if plan::MAX_ARCS < plan.neighbours.len() {
        return false;
    }
    if plan.clear.len() != 4 * (floor.grid.w * floor.grid.h) {
        return false;
    }
    if !marks::clearances_match(floor, plan.clear) {
        return false;
    }
    if !corners::corners_match(floor, plan.corners) {
        return false;
    }
    links_match(floor, plan)
}
