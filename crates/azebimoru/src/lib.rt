// The exported face: what C and Rust programs call. Each function only hands on to the layer that answers.
#![tactic(auto)]

ghost use Rattle.std.specs.Prelude.{◌≡◌};
ghost use Rattle.lengths.specs.Lengths.{compare_of, pair};
ghost use Rattle.floor.specs.Refusals.{Tells};
ghost use Rattle.survey.specs.Survey.{lists, SurveyOutcome};
ghost use Rattle.query.specs.Query.{QueryOutcome};
ghost use Rattle.azebimoru.specs.Matches.{OwnPlan};

use floor::Cell;
use lengths::Length;
use plan::Plan;
use survey::Surveyed;
use telling::Answer;

// -1, 0 or 1, as the length of a straight and b diagonal steps is less than that of c and d, the same or more.
#[unsafe(no_mangle)]
pub extern "C" fn azebimoru_compare(a: u16, b: u16, c: u16, d: u16) -> i32
    ensures { result ≡ compare_of (pair a b) (pair c d) }
{
    let x = Length {
        straight: a,
        diagonal: b,
    };
    let y = Length {
        straight: c,
        diagonal: d,
    };
    // By its number and not by `cmp`: told as an Ordering and turned back, it takes about twice as long where signs differ (measured).
    lengths::compare(x, y)
}

// Writes the plan of a floor into the four lists, or refuses by number.
#[unsafe(no_mangle)]
pub extern "C" fn azebimoru_survey(
    w: usize,
    h: usize,
    words: &[u64],
    clearances: &mut [u8],
    corners: &mut [u16],
    starts: &mut [u16],
    neighbours: &mut [u16],
) -> Surveyed
    ensures { SurveyOutcome w h words.now (lists clearances.old corners.old starts.old neighbours.old) result (lists clearances.new corners.new starts.new neighbours.new) }
{
    survey::survey(words, w, h, clearances, corners, starts, neighbours)
}

// Whether the four lists are exactly the plan of this floor, which is accepted, and the plan is within its limits.
#[unsafe(no_mangle)]
pub extern "C" fn azebimoru_matches(
    w: usize,
    h: usize,
    words: &[u64],
    clearances: &[u8],
    corners: &[u16],
    starts: &[u16],
    neighbours: &[u16],
) -> bool
    ensures { Tells (OwnPlan w h words.now (lists clearances.now corners.now starts.now neighbours.now)) result }
{
    let plan = Plan {
        clear: clearances,
        corners,
        starts,
        neighbours,
    };
    match floor::check_floor(words, w, h) {
        Ok(floor) => matching::matches(&floor, &plan),
        Err(_) => false,
    }
}

// The shortest walk from (sx, sy) to (gx, gy), its route and its effort, or a refusal by number.
#[unsafe(no_mangle)]
pub extern "C" fn azebimoru_query(
    w: usize,
    h: usize,
    words: &[u64],
    clearances: &[u8],
    corners: &[u16],
    starts: &[u16],
    neighbours: &[u16],
    sx: usize,
    sy: usize,
    gx: usize,
    gy: usize,
    route: &mut [u16],
    work: &mut [u32],
) -> Answer
    ensures { QueryOutcome (record { w = w; h = h; words = words.now; plan = record { clear = clearances.now; corners = corners.now; starts = starts.now; neighbours = neighbours.now }; sx = sx; sy = sy; gx = gx; gy = gy; route = route.old; work = work.old }) result route.new work.new }
{
    let plan = Plan {
        clear: clearances,
        corners,
        starts,
        neighbours,
    };
    let start = Cell { x: sx, y: sy };
    let goal = Cell { x: gx, y: gy };
    query::query(words, w, h, &plan, start, goal, route, work)
}
