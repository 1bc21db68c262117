// Clearances: written, and recognised. A row is taken 64 cells at a time, by masks.
#![tactic(auto)]

ghost use Rattle.std.specs.Prelude.{◌≡◌, ◌+◌, ◌-◌, ◌*◌, ◌%◌, ◌<◌, ◌≤◌, true, cond, length, get_or, set};
ghost use Rattle.floor.specs.Refusals.{Tells};
ghost use Rattle.floor.specs.Words.{board, place_of, number_of};
ghost use Rattle.floor.specs.Lent.{of, on};
ghost use Rattle.corners.specs.Chunks.{Chunk as IsChunk};
ghost use Rattle.marks.specs.Marks.{Cleared};
ghost use Rattle.marks.specs.Marking.{by_bits, ahead_of, back_of, NextIn, AreSteps, IsStep, rank, first_met, FromFirst, Met, Right};
ghost use Rattle.marks.specs.Marking.{Marking, MarkedAll, ChunkAgrees, WayAgrees};

use floor::{Cell, Floor};

// A chunk: neighbouring cells of a row from a cell on, which are the first bits of a mask.
#[derive(Clone, Copy)]
struct Chunk {
    cell: usize,
    count: usize,
}

// The steps from a chunk's cells in one direction, a bit for each: it is legal, and it leads to a turning point.
#[derive(Clone, Copy)]
struct Steps {
    legal: u64,
    turns: u64,
}

// The same of one step.
#[derive(Clone, Copy)]
struct Step {
    legal: bool,
    turns: bool,
}

// The steps in direction dir from the cells of a chunk that begins with a cell.
fn steps_of(floor: &Floor, cell: usize, dir: usize) -> Steps
    requires inside { cell < floor.now.grid.w * floor.now.grid.h }
    requires begins { cell % floor.now.grid.w % 64 ≡ 0 }
    requires dir_in { dir < 4 }
    ensures { on AreSteps floor.now.grid dir cell result }
{
    let y = cell / floor.grid.w + 1;
    let j = cell % floor.grid.w / 64;
    Steps {
        legal: masks::step_mask(floor, y, j, dir),
        turns: masks::turn_mask(floor, y, j, dir),
    }
}

// The step from cell i of a chunk.
fn step_from(steps: Steps, i: usize) -> Step
    requires { i < 64 }
    ensures { IsStep steps i result }
{
    Step {
        legal: corners::bit(steps.legal, i),
        turns: corners::bit(steps.turns, i),
    }
}

// The clearance of a cell, by its number, in direction dir, 0 to 3. Whoever reads a clearance reads it here.
fn entry(clear: &[u8], cell: usize, dir: usize) -> usize
    requires { 4 * cell + dir < length clear.now }
    ensures same { result ≡ get_or clear.now (4 * cell + dir) 0 }
    ensures byte { result < 256 }
{
    usize::from(clear[4 * cell + dir])
}

// The clearance of a cell in direction dir.
pub fn clearance(clear: &[u8], w: usize, cell: Cell, dir: usize) -> usize
    requires { 4 * number_of w cell.x cell.y + dir < length clear.now }
    ensures { result ≡ get_or clear.now (4 * number_of w cell.x cell.y + dir) 0 }
{
    entry(clear, cell.y * w + cell.x, dir)
}

// A number, or 0. A product, and no branch: the processor would guess it wrong too often.
fn times(b: bool, x: usize) -> usize
    ensures { result ≡ cond b x 0 }
{
    usize::from(b) * x
}

// How far ahead the number of the next cell in direction dir lies. This and `back` are two unsigned halves of one signed step, so that `times`
// needs no branch.
fn ahead(w: usize, dir: usize) -> usize
    ensures { result ≡ ahead_of w dir }
{
    match dir {
        1 => 1,
        2 => w,
        _ => 0,
    }
}

// How far back the number of the next cell in direction dir lies.
fn back(w: usize, dir: usize) -> usize
    ensures { result ≡ back_of w dir }
{
    match dir {
        0 => w,
        3 => 1,
        _ => 0,
    }
}

// The clearance of a cell by the step from it and the clearance of the next cell.
fn by_bits(clear: &[u8], w: usize, cell: usize, dir: usize, step: Step) -> usize
    requires ready { (cell < 16384) × ((w < 256) × (4 * cell + dir < length clear.now)) }
    requires next { step.legal ≡ true → NextIn w (length clear.now) cell dir }
    ensures { result ≡ by_bits step.legal step.turns w clear.now (place_of w cell) dir }
{
    let a = times(step.legal, ahead(w, dir));
    let b = times(step.legal, back(w, dir));
    let v = entry(clear, cell + a - b, dir);
    times(step.legal, 1 + times(!step.turns, v))
}

// Writes the clearance of one cell in one direction by the step from it. The cast keeps it: it fits a byte, as the clause says.
fn mark_bit(clear: &mut [u8], w: usize, cell: usize, dir: usize, step: Step)
    requires ready { (cell < 16384) × ((w < 256) × (4 * cell + dir < length clear.old)) }
    requires next { step.legal ≡ true → NextIn w (length clear.old) cell dir }
    requires byte { by_bits step.legal step.turns w clear.old (place_of w cell) dir ≤ 255 }
    ensures { clear.new ≡ set clear.old (4 * cell + dir) (by_bits step.legal step.turns w clear.old (place_of w cell) dir) }
{
    let m = by_bits(clear, w, cell, dir, step);
    clear[4 * cell + dir] = m as u8;
}

// Whether the pass in direction dir goes from the first cell on, as it does for north, 0, and west, 3.
fn from_first(dir: usize) -> bool
    ensures { Tells (FromFirst dir) result }
{
    dir % 3 == 0
}

// Which of n cells the pass in direction dir meets after k others. North and west go from the first cell on, since the next cell is an
// earlier one there; east and south go from the last.
fn in_turn(n: usize, dir: usize, k: usize) -> usize
    requires { (k < n) × (dir < 4) }
    ensures { result ≡ rank n dir k }
{
    if from_first(dir) { k } else { n - 1 - k }
}

// Writes a chunk's clearances in direction dir, in the order of the pass. That the list is long enough stays a clause here and below, since
// a struct cannot hold a list that is written beside a ghost field. Put into the pass that calls it, as the pass itself is.
#[inline(always)]
fn mark_chunk(floor: &Floor, clear: &mut [u8], chunk: Chunk, dir: usize)
    requires long { 4 * (floor.now.grid.w * floor.now.grid.h) ≤ length clear.old }
    requires chunk { IsChunk floor.now.grid.w floor.now.grid.h chunk.cell chunk.count × (dir < 4) }
    requires before { on Right floor.now.grid clear.old dir (first_met (floor.now.grid.w * floor.now.grid.h) dir chunk.cell chunk.count) }
    ensures { on Marking floor.now.grid dir (first_met (floor.now.grid.w * floor.now.grid.h) dir chunk.cell chunk.count + chunk.count) clear.old clear.new }
{
    let steps = steps_of(floor, chunk.cell, dir);
    for k in 0..chunk.count {
        let i = in_turn(chunk.count, dir, k);
        mark_bit(
            clear,
            floor.grid.w,
            chunk.cell + i,
            dir,
            step_from(steps, i),
        );
    }
}

// The chunk that the pass in direction dir meets after the first `met` cells. A pass from the first cell on has met whole chunks.
fn next_chunk(floor: &Floor, dir: usize, met: usize) -> Chunk
    requires some { (met < floor.now.grid.w * floor.now.grid.h) × (dir < 4) }
    requires whole { FromFirst dir → met % floor.now.grid.w % 64 ≡ 0 }
    ensures { Met floor.now.grid.w floor.now.grid.h dir met result }
{
    let w = floor.grid.w;
    let h = floor.grid.h;
    if from_first(dir) {
        return Chunk {
            cell: met,
            count: corners::span(w, h, met),
        };
    }
    let count = corners::last_span(w, h, w * h - met);
    Chunk {
        cell: w * h - met - count,
        count,
    }
}

// Writes the clearances of all cells in direction dir, chunk after chunk; these differ in size, so no range counts them. Put into each of its
// four calls, where the direction is a constant: one loop over all directions, with the direction a variable, took more than twice as long.
#[inline(always)]
fn mark_way(floor: &Floor, clear: &mut [u8], dir: usize)
    requires long { 4 * (floor.now.grid.w * floor.now.grid.h) ≤ length clear.old }
    requires dir_in { dir < 4 }
    ensures { on Marking floor.now.grid dir (floor.now.grid.w * floor.now.grid.h) clear.old clear.new }
{
    let mut met = 0;
    while met < floor.grid.w * floor.grid.h {
        let chunk = next_chunk(floor, dir, met);
        mark_chunk(floor, clear, chunk, dir);
        met += chunk.count;
    }
}

// Writes the clearances of all cells.
pub fn mark_clearances(floor: &Floor, clear: &mut [u8])
    requires { 4 * (floor.now.grid.w * floor.now.grid.h) ≤ length clear.old }
    ensures { on MarkedAll floor.now.grid clear.old clear.new }
{
    mark_way(floor, clear, 0);
    mark_way(floor, clear, 1);
    mark_way(floor, clear, 2);
    mark_way(floor, clear, 3);
}

// Whether a chunk's clearances in direction dir are what the next cells' make them.
fn chunk_matches(floor: &Floor, clear: &[u8], chunk: Chunk, dir: usize) -> bool
    requires long { 4 * (floor.now.grid.w * floor.now.grid.h) ≤ length clear.now }
    requires chunk { IsChunk floor.now.grid.w floor.now.grid.h chunk.cell chunk.count × (dir < 4) }
    ensures { Tells (on ChunkAgrees floor.now.grid clear.now dir chunk.cell chunk.count) result }
{
    let steps = steps_of(floor, chunk.cell, dir);
    for i in 0..chunk.count {
        let cell = chunk.cell + i;
        let m = by_bits(clear, floor.grid.w, cell, dir, step_from(steps, i));
        if entry(clear, cell, dir) != m {
            return false;
        }
    }
    true
}

// Whether all clearances in direction dir are what the next cells' make them, chunk after chunk.
fn way_matches(floor: &Floor, clear: &[u8], dir: usize) -> bool
    requires long { 4 * (floor.now.grid.w * floor.now.grid.h) ≤ length clear.now }
    requires dir_in { dir < 4 }
    ensures { Tells (on WayAgrees floor.now.grid clear.now dir (floor.now.grid.w * floor.now.grid.h)) result }
{
    for (cell, count) in corners::all_chunks(floor) {
        if !chunk_matches(floor, clear, Chunk { cell, count }, dir) {
            return false;
        }
    }
    true
}

// Whether the list holds the clearances of all cells. It has four entries to a cell.
pub fn clearances_match(floor: &Floor, clear: &[u8]) -> bool
    requires { length clear.now ≡ 4 * (floor.now.grid.w * floor.now.grid.h) }
    ensures { Tells (on Cleared floor.now.grid clear.now) result }
{
    (0..4).all(|dir| way_matches(floor, clear, dir))
}
