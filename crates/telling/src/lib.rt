// What is told: of the direct line, of a route that is walked back from the goal, or that there is none.
#![tactic(auto)]

ghost use Rattle.std.specs.Prelude.{◌≡◌, ◌+◌, ◌<◌, ◌≤◌, length, replicate};
ghost use Rattle.lengths.specs.Lengths.{len_of};
ghost use Rattle.floor.specs.Board.{at};
ghost use Rattle.floor.specs.Words.{number_of};
ghost use Rattle.corners.specs.Lists.{written};
ghost use Rattle.places.specs.Columns.{Next, Only};
ghost use Rattle.places.specs.Roads.{on};
ghost use Rattle.line.specs.Cells.{Cell as IsCell};
ghost use Rattle.chain.specs.Chain.{Journey, Walked};
ghost use Rattle.telling.specs.Told.{Told, ToldNone, LineAnswer, Retraced};

use floor::Cell;
use lengths::Length;
use places::Roads;

// What a query returns: the number of document 01's table; where it is 0 or 13 the length, the cells of the route and the effort; where
// it is 12 the effort. C programs get this record; 13 has a length too, so it is no Err.
#[repr(C)]
#[derive(Clone, Copy)]
pub struct Answer {
    pub code: u32,
    pub straight: u32,
    pub diagonal: u32,
    pub cells: u32,
    pub effort: u32,
}

// Sets the first `count` entries to 0. The work space that is lent may be longer than what a query uses.
pub fn zero_first(work: &mut [u32], count: usize)
    requires { count ≤ length work.old }
    ensures { work.new ≡ written (replicate count 0) work.old }
{
    work[..count].fill(0);
}

// What is told of a walk of this length, where the route has room for `room` cells.
fn tell(walk: Length, effort: usize, room: usize) -> Answer
    requires { effort < 65536 }
    ensures { Told (len_of walk) effort room result }
{
    let cells = usize::from(walk.straight) + usize::from(walk.diagonal) + 1;
    let code = if cells <= room { 0 } else { 13 };
    Answer {
        code,
        straight: u32::from(walk.straight),
        diagonal: u32::from(walk.diagonal),
        cells: cells as u32,
        effort: effort as u32,
    }
}

// The answer where the direct line from one cell to another is legal: its length, no effort, and its cells as the route.
pub fn take_line(w: usize, from: Cell, to: Cell, route: &mut [u16]) -> Answer
    requires cells { IsCell w from.x from.y × IsCell w to.x to.y }
    requires small { (from.x ≤ 255) × (from.y ≤ 255) × (to.x ≤ 255) × (to.y ≤ 255) }
    ensures { LineAnswer w (number_of w from.x from.y) (at from.x from.y) (at to.x to.y) result route.old route.new }
{
    let r = tell(line::line_length(from, to), 0, route.len());
    if r.code == 0 {
        route[0] = (from.y * w + from.x) as u16;
        line::write_line(w, from, to, route, 1);
    }
    r
}

// The answer where the search has settled the goal: walks back from it, and writes the route where there is room.
pub fn retrace(roads: &Roads, effort: usize, route: &mut [u16], work: &mut [u32]) -> Answer
    requires walked { (a : Journey) × on (Walked a) roads.now work.old }
    requires effort { effort < 65536 }
    ensures told { (a : Journey) → on (Walked a) roads.now work.old → Retraced a effort result route.old route.new }
    ensures only { Only (roads.now.trip.k + 2) work.old Next work.new }
{
    let walk = chain::link_back(roads, work);
    let told = tell(walk, effort, route.len());
    if told.code == 0 {
        chain::write_route(roads, work, route);
    }
    told
}

// What is told where no walk leads to the goal.
pub fn tell_none(effort: usize) -> Answer
    requires { effort < 65536 }
    ensures { ToldNone effort result }
{
    Answer {
        code: 12,
        straight: 0,
        diagonal: 0,
        cells: 0,
        effort: effort as u32,
    }
}
