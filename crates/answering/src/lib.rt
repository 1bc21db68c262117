// The answer to a question that is not refused: by the direct line, or by the search.
#![tactic(auto)]

ghost use Rattle.floor.specs.Lent.{on};
ghost use Rattle.std.specs.Prelude.{◌+◌, ◌*◌, length};
ghost use Rattle.plan.specs.Lent.{lists_of};
ghost use Rattle.answering.specs.Lent.{asked};
ghost use Rattle.ends.specs.Prepared.{Searchable};
ghost use Rattle.answering.specs.Steps.{Unrefused, LateOutcome};
ghost use Rattle.answering.specs.Answers.{SearchAnswer, Beyond};

use floor::{Cell, Floor};
use places::Roads;
use plan::Plan;
use telling::Answer;

// The answer where the direct line is barred.
fn search_answer(
    floor: &Floor,
    plan: &Plan,
    start: usize,
    goal: usize,
    route: &mut [u16],
    work: &mut [u32],
) -> Answer
    requires { on Searchable floor.now.grid (lists_of plan.now) start goal work.old }
    ensures answer { on SearchAnswer floor.now.grid (lists_of plan.now) start goal result route.old route.new }
    ensures beyond { Beyond (6 * (length plan.now.corners.now + 2)) work.old work.new }
{
    telling::zero_first(work, 6 * (plan.corners.len() + 2));
    let trip = ends::prepare(floor, plan, start, goal, work);
    let mut table = [0u16; 16384];
    places::index_corners(plan.corners, &mut table);
    let roads = Roads {
        corners: plan.corners,
        starts: plan.starts,
        neighbours: plan.neighbours,
        table: &table,
        trip,
    };
    let n = trip.k + 2;
    let effort = search::run(&roads, work, n);
    let settled = places::get(work, n, places::SETTLED, trip.to) > 0;
    if settled {
        telling::retrace(&roads, effort, route, work)
    } else {
        telling::tell_none(effort)
    }
}

// The answer to a question that none of the refusals 1 to 11 stops.
pub fn answer(
    floor: &Floor,
    plan: &Plan,
    start: Cell,
    goal: Cell,
    route: &mut [u16],
    work: &mut [u32],
) -> Answer
    requires { Unrefused (asked floor.now.grid (lists_of plan.now) start goal route.old work.old) }
    ensures { LateOutcome (asked floor.now.grid (lists_of plan.now) start goal route.old work.old) result route.new work.new }
{
    let w = floor.grid.w;
    let r = if line::line_legal(floor, start, goal) {
        telling::take_line(w, start, goal, route)
    } else {
        let from = start.y * w + start.x;
        let to = goal.y * w + goal.x;
        search_answer(floor, plan, from, to, route, work)
    };
    telling::zero_first(work, 6 * (plan.corners.len() + 2));
    r
}
