// Turning points: counted, written, and recognised. A row is taken 64 cells at a time, a chunk, by masks.
#![tactic(auto)]

ghost use Rattle.std.specs.Prelude.{◌≡◌, ◌+◌, ◌*◌, ◌%◌, ◌<◌, ◌≤◌, ◌&&◌, eqb, ltb, length, get_or};
ghost use Rattle.floor.specs.Refusals.{Tells};
ghost use Rattle.masks.specs.Masks.{bit_set, Mask};
ghost use Rattle.floor.specs.Lent.{of};
ghost use Rattle.corners.specs.Lists.{written};
ghost use Rattle.corners.specs.Listing.{Written, Read, Told};
ghost use Rattle.corners.specs.Corners.{corner_cell, corner_cells};
ghost use Rattle.corners.specs.Chunks.{Chunk, Span, LastSpan, in_row};

use bits::bits;
use floor::{Cell, Floor};

mod bits;
mod walk;

pub use walk::{ChunkWalk, all_chunks};

// Whether a cell is a turning point.
pub fn corner_cell(floor: &Floor, cell: usize) -> bool
    requires { (cell < floor.now.grid.w * floor.now.grid.h) }
    ensures { result ≡ of corner_cell floor.now.grid cell }
{
    windows::corner_at(&floor.grid, Cell::numbered(floor.grid.w, cell))
}

// Bit i of a mask.
pub fn bit(mask: u64, i: usize) -> bool
    requires { i < 64 }
    ensures { result ≡ bit_set mask i }
{
    (mask >> i) % 2 == 1
}

// How many cells the chunk from a cell on has: 64, or those to the row's end. Here and in `last_span`, h is there for the clauses alone.
pub fn span(w: usize, h: usize, cell: usize) -> usize
    requires { (cell < w * h) × (cell % w % 64 ≡ 0) }
    ensures { Span w h cell result }
{
    (w - cell % w).min(64)
}

// How many cells the last chunk of the cells below e has.
pub fn last_span(w: usize, h: usize, e: usize) -> usize
    requires { (0 < e) × (e ≤ w * h) }
    ensures { LastSpan w h e result }
{
    (e - 1) % w % 64 + 1
}

// The turning points of the chunk from a cell on. There is none past the row's end. Inlined: one division then serves the chunk's span too.
#[inline(always)]
fn corner_bits(floor: &Floor, cell: usize) -> u64
    requires { ((cell < floor.now.grid.w * floor.now.grid.h) × (cell % floor.now.grid.w % 64 ≡ 0)) }
    ensures { Mask (in_row floor.now.grid.w (of corner_cell floor.now.grid) cell) result }
{
    masks::corner_mask(floor, cell / floor.grid.w + 1, cell % floor.grid.w / 64)
}

// How many cells are turning points.
pub fn count_corners(floor: &Floor) -> usize
    ensures { result ≡ length (of corner_cells floor.now.grid) }
{
    let mut count = 0;
    for (cell, _) in all_chunks(floor) {
        count += corner_bits(floor, cell).count_ones() as usize;
    }
    count
}

// Writes the turning points of a chunk from entry k on, and tells how many are written then. The list is lent whole, since what is promised is
// of the entries before too. This writes and `chunk_listed` compares; what they share is `bits`.
fn mark_chunk(floor: &Floor, corners: &mut [u16], cell: usize, count: usize, k: usize) -> usize
    requires ready { (Chunk floor.now.grid.w floor.now.grid.h cell count × (length (of corner_cells floor.now.grid) ≤ length corners.old)) }
    requires before { Written (of corner_cell floor.now.grid) corners.old cell corners.old k }
    ensures { Written (of corner_cell floor.now.grid) corners.old (cell + count) corners.new result }
{
    let mut to = k;
    for i in bits(corner_bits(floor, cell), count) {
        corners[to] = (cell + i) as u16;
        to += 1;
    }
    to
}

// Writes the turning points, ascending.
pub fn mark_corners(floor: &Floor, corners: &mut [u16])
    requires { (length (of corner_cells floor.now.grid) ≤ length corners.old) }
    ensures { corners.new ≡ written (of corner_cells floor.now.grid) corners.old }
{
    let mut k = 0;
    for (cell, count) in all_chunks(floor) {
        k = mark_chunk(floor, corners, cell, count, k);
    }
}

// Whether entry k of the list is there and is this cell.
fn is_entry(list: &[u16], k: usize, cell: usize) -> bool
    ensures { result ≡ (ltb k (length list.now) && eqb (get_or list.now k 0) cell) }
{
    list.get(k).is_some_and(|c| usize::from(*c) == cell)
}

// How many turning points are listed once those of a chunk are looked for from entry k on, if all are there.
fn chunk_listed(
    floor: &Floor,
    corners: &[u16],
    cell: usize,
    count: usize,
    k: usize,
) -> Option<usize>
    requires ready { Chunk floor.now.grid.w floor.now.grid.h cell count }
    requires before { Read (of corner_cell floor.now.grid) corners.now cell k }
    ensures { Told (of corner_cell floor.now.grid) corners.now (cell + count) result }
{
    let mut to = k;
    for i in bits(corner_bits(floor, cell), count) {
        if !is_entry(corners, to, cell + i) {
            return None;
        }
        to += 1;
    }
    Some(to)
}

// Whether the list is exactly the turning points, ascending.
pub fn corners_match(floor: &Floor, corners: &[u16]) -> bool
    ensures { Tells (corners.now ≡ of corner_cells floor.now.grid) result }
{
    let mut k = 0;
    for (cell, count) in all_chunks(floor) {
        let Some(listed) = chunk_listed(floor, corners, cell, count, k) else {
            return false;
        };
        k = listed;
    }
    k == corners.len()
}
