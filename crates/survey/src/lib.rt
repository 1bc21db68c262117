// The survey of a floor: its plan, which is clearances, turning points, starts and neighbours, written into four lent lists; or a refusal.
#![tactic(auto)]

ghost use Rattle.std.specs.Prelude.{◌≡◌, length, IfOk};
ghost use Rattle.floor.specs.Refusals.{FirstOf};
ghost use Rattle.floor.specs.Lent.{of, on};
ghost use Rattle.floor.specs.Codes.{number, code_of};
ghost use Rattle.corners.specs.Corners.{corner_cells};
ghost use Rattle.survey.specs.Survey.{lent_rows, lists, wiped_all, refusal, SurveyTold, SurveyOutcome};

use floor::{Floor, Refusal};

// What a survey returns: the number of document 01's table, and where it is 0 the free cells, the turning points and the arcs.
// The C interface has this record.
#[repr(C)]
#[derive(Clone, Copy)]
pub struct Surveyed {
    pub code: u32,
    pub free: u32,
    pub corners: u32,
    pub arcs: u32,
}

// The answer that gives a refusal's number: all numbers but the code are 0.
fn refused(cause: Refusal) -> Surveyed
    ensures { result ≡ refusal (number cause) }
{
    Surveyed {
        code: cause as u32,
        free: 0,
        corners: 0,
        arcs: 0,
    }
}

// Sets every entry of the four lists to 0. They come one by one, as C and the survey have them.
fn wipe(clear: &mut [u8], corners: &mut [u16], starts: &mut [u16], neighbours: &mut [u16])
    ensures { lists clear.new corners.new starts.new neighbours.new ≡ wiped_all (lists clear.old corners.old starts.old neighbours.old) }
{
    clear.fill(0);
    corners.fill(0);
    starts.fill(0);
    neighbours.fill(0);
}

// How many turning points the floor has, or the first of the refusals 4 to 6 that applies.
fn corners_with_room(
    floor: &Floor,
    clear: &[u8],
    corners: &[u16],
    starts: &[u16],
) -> Result<usize, Refusal>
    ensures code { FirstOf (on lent_rows floor.now.grid (length clear.now) (length corners.now) (length starts.now)) (code_of result) }
    ensures count { IfOk result (λ k. k ≡ length (of corner_cells floor.now.grid)) }
{
    if clear.len() < 4 * (floor.grid.w * floor.grid.h) {
        return Err(Refusal::Clearances);
    }
    let k = corners::count_corners(floor);
    if corners.len() < k {
        return Err(Refusal::Corners);
    }
    if plan::MAX_CORNERS < k {
        return Err(Refusal::Corners);
    }
    if starts.len() < k + 1 {
        return Err(Refusal::Starts);
    }
    Ok(k)
}

// Writes the floor's plan into the first entries of the four lists, or refuses: the numbers of an answer whose code is 0, or the refusal.
fn survey_floor(
    words: &[u64],
    w: usize,
    h: usize,
    clear: &mut [u8],
    corners: &mut [u16],
    starts: &mut [u16],
    neighbours: &mut [u16],
) -> Result<Surveyed, Refusal>
    ensures { SurveyTold w h words.now (lists clear.old corners.old starts.old neighbours.old) result (lists clear.new corners.new starts.new neighbours.new) }
{
    let floor = floor::check_floor(words, w, h)?;
    let k = corners_with_room(&floor, clear, corners, starts)?;
    marks::mark_clearances(&floor, clear);
    corners::mark_corners(&floor, corners);
    let Some(m) = plan::link(&floor, clear, &corners[..k], starts, neighbours) else {
        wipe(clear, corners, starts, neighbours);
        return Err(Refusal::Neighbours);
    };
    Ok(Surveyed {
        code: 0,
        free: floor::count_free(floor.grid.words),
        corners: k as u32,
        arcs: m as u32,
    })
}

// Writes the floor's plan into the first entries of the four lists, or refuses by number. It takes them one by one, as the C interface has them.
pub fn survey(
    words: &[u64],
    w: usize,
    h: usize,
    clear: &mut [u8],
    corners: &mut [u16],
    starts: &mut [u16],
    neighbours: &mut [u16],
) -> Surveyed
    ensures { SurveyOutcome w h words.now (lists clear.old corners.old starts.old neighbours.old) result (lists clear.new corners.new starts.new neighbours.new) }
{
    match survey_floor(words, w, h, clear, corners, starts, neighbours) {
        Ok(told) => told,
        Err(cause) => refused(cause),
    }
}
