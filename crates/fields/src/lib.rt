// The sweep of the fields round a place: which turning points it is linked to.
#![tactic(auto)]

ghost use Rattle.std.specs.Prelude.{false, ◌&&◌, ◌≡◌, ◌⊎◌, suc, ◌+◌, ◌-◌, ◌*◌, ◌%◌, ◌<◌, ◌≤◌, ltb};
ghost use Rattle.floor.specs.Board.{at, Free, corner, dir_at};
ghost use Rattle.floor.specs.Words.{board, number_of};
ghost use Rattle.floor.specs.Lent.{of, on};
ghost use Rattle.floor.specs.Refusals.{Tells};
ghost use Rattle.ground.specs.Clearance.{ahead};
ghost use Rattle.fields.specs.Fields.{side, Goes, ShowsIn, NewRow, Plainly, Known, OnSome, StepTold, NextTo, Ends, opens_out, row_clearance};
ghost use Rattle.fields.specs.Fields.{KeptIf, RowRead, Coming, PassedRow};

use floor::{Cell, Floor};

mod passing;

pub use passing::{FieldRows, rows};

// What passing a row tells: the cell of the turning point that the row shows, if it shows one; and how many steps are open in it and all rows
// before, if another row follows.
#[derive(Clone, Copy)]
pub struct RowEnd {
    pub shown: Option<usize>,
    pub reach: Option<usize>,
}

// The sweep of a field from a cell: row `row` begins at cell `at`, and `reach` steps are open in all rows before it. A field is a number, 0 to
// 7, since its directions are: the diagonal one is 4 + field / 2, and `side_of` tells the straight one.
#[derive(Clone, Copy)]
struct Sweep {
    start: Cell,
    field: usize,
    row: usize,
    at: Cell,
    reach: usize,
}

// A column or row k steps further by an offset that is 0, 1 or 2, for -1, 0 and 1: so no signed numbers are needed.
fn moved(a: usize, offset: usize, k: usize) -> usize
    requires { (a < 255) × (k < 255) × (offset < 3) × (k ≤ a + offset * k) }
    ensures { result ≡ a + offset * k - k }
{
    a + offset * k - k
}

// The cell k steps ahead of a cell in direction dir.
fn ahead_of(from: Cell, dir: usize, k: usize) -> Cell
    requires { Goes from.x from.y dir k }
    ensures { at result.x result.y ≡ ahead (dir_at dir) k (at from.x from.y) }
{
    let [dx, dy] = windows::in_window(dir);
    Cell {
        x: moved(from.x, dx, k),
        y: moved(from.y, dy, k),
    }
}

// A step in direction side leads on from a cell, and none does from the one before. What is known of floor and clearances stays a clause. As a
// ghost field of a struct of both it must be truncated (∥ .. ∥₁): all goals prove from that too, but each proof has to undo it first.
fn opens_out(floor: &Floor, clear: &[u8], before: Cell, cell: Cell, side: usize) -> bool
    requires known { on Known floor.now.grid clear.now }
    requires cells { (side < 4) × (Free (of board floor.now.grid) (at before.x before.y) × Free (of board floor.now.grid) (at cell.x cell.y)) }
    ensures { result ≡ opens_out (of board floor.now.grid) (dir_at side) (at before.x before.y) (at cell.x cell.y) }
{
    marks::clearance(clear, floor.grid.w, before, side) == 0
        && 0 < marks::clearance(clear, floor.grid.w, cell, side)
}

// A cell, next to the one before in direction dir and the end of a clearance, is a turning point: a step leads on, or a side opens out.
fn ends_on_corner(floor: &Floor, clear: &[u8], before: Cell, cell: Cell, dir: usize) -> bool
    requires known { on Known floor.now.grid clear.now }
    requires cells { on NextTo floor.now.grid before.x before.y cell.x cell.y dir × on Ends floor.now.grid cell.x cell.y dir }
    ensures { result ≡ corner (of board floor.now.grid) (at cell.x cell.y) }
{
    0 < marks::clearance(clear, floor.grid.w, cell, dir)
        || opens_out(floor, clear, before, cell, (dir + 1) % 4)
        || opens_out(floor, clear, before, cell, (dir + 3) % 4)
}

// A cell, the next one of the one before in direction dir, is a turning point. A clearance that goes on beyond it says that it is none.
fn corner_next(floor: &Floor, clear: &[u8], before: Cell, cell: Cell, dir: usize) -> bool
    requires known { on Known floor.now.grid clear.now }
    requires cells { on NextTo floor.now.grid before.x before.y cell.x cell.y dir }
    ensures { result ≡ corner (of board floor.now.grid) (at cell.x cell.y) }
{
    if 1 < marks::clearance(clear, floor.grid.w, before, dir) {
        false
    } else {
        ends_on_corner(floor, clear, before, cell, dir)
    }
}

// The row begins at a turning point, and is not the first. A legal diagonal step led there, so the cell behind it across is free.
fn turns(floor: &Floor, clear: &[u8], s: Sweep) -> bool
    requires { on NewRow floor.now.grid clear.now s }
    ensures { result ≡ (ltb 0 s.row && corner (of board floor.now.grid) (at s.at.x s.at.y)) }
{
    if 0 < s.row {
        let west = 2 * (s.field / 4);
        let before = Cell {
            x: s.at.x + west - 1,
            y: s.at.y,
        };
        corner_next(floor, clear, before, s.at, 1 + west)
    } else {
        false
    }
}

// The field's diagonal step from a free cell is legal: a step leads across, one along, and from there one across.
fn slants(clear: &[u8], w: usize, cell: Cell, field: usize) -> bool
    requires { OnSome w clear.now cell.x cell.y × (field < 8) }
    ensures { StepTold w clear.now cell.x cell.y field result }
{
    let across = 1 + 2 * (field / 4);
    if marks::clearance(clear, w, cell, across) == 0 {
        return false;
    }
    let along = 2 * ((field / 2 + 1) / 2 % 2);
    if marks::clearance(clear, w, cell, along) == 0 {
        return false;
    }
    let beside = Cell {
        x: cell.x,
        y: cell.y + along - 1,
    };
    0 < marks::clearance(clear, w, beside, across)
}

// The direction of a field's rows, the straight one of its two.
fn side_of(field: usize) -> usize
    ensures { result ≡ side field }
{
    (field / 2 + field % 2) % 4
}

// Whether the cell m steps on in the row, where the row's clearance ends, is a turning point linked to the cell that the sweep goes out
// from. It is not where it lies beyond the reach, or where the row does not lead on.
fn linked(floor: &Floor, clear: &[u8], s: Sweep, m: usize) -> bool
    requires row { on NewRow floor.now.grid clear.now s × on Plainly floor.now.grid s }
    requires end { m ≡ row_clearance floor.now.grid.w clear.now s }
    ensures { Tells (on ShowsIn floor.now.grid s.start.x s.start.y s.field s.row (ahead (dir_at (side s.field)) m (at s.at.x s.at.y))) result }
{
    let dir = side_of(s.field);
    if s.reach < m {
        return false;
    }
    if m == 0 {
        return false;
    }
    let end = ahead_of(s.at, dir, m);
    let before = ahead_of(s.at, dir, m - 1);
    ends_on_corner(floor, clear, before, end, dir)
}

// What a row tells that begins at no turning point, or is the first. Only where the clearance of its beginning ends can it show one; a
// clearance beyond the reach leaves that as it is.
fn row_end(floor: &Floor, clear: &[u8], s: Sweep) -> RowEnd
    requires { on NewRow floor.now.grid clear.now s × on Plainly floor.now.grid s }
    ensures { on RowRead floor.now.grid s result }
{
    let dir = side_of(s.field);
    let m = marks::clearance(clear, floor.grid.w, s.at, dir);
    if linked(floor, clear, s, m) {
        let end = ahead_of(s.at, dir, m);
        return RowEnd {
            shown: Some(end.y * floor.grid.w + end.x),
            reach: Some(m - 1),
        };
    }
    RowEnd {
        shown: None,
        reach: Some(m.min(s.reach)),
    }
}

// What lies on a field's edge is shown by the even fields only, since each edge belongs to an even field and an odd one.
fn edge(field: usize, shown: Option<usize>) -> Option<usize>
    ensures { KeptIf (field % 2 ≡ 0) shown result }
{
    if field % 2 == 0 { shown } else { None }
}

// What a row shows some steps on: in the first row it lies on the field's edge.
fn beyond(field: usize, row: usize, shown: Option<usize>) -> Option<usize>
    ensures { KeptIf ((field % 2 ≡ 0) ⊎ (0 < row)) shown result }
{
    if row == 0 { edge(field, shown) } else { shown }
}

// Passes row `row` of a field from a cell: what it shows, and how far the next may reach if there is one. Clearances tell it all: of the floor
// its width alone is read, and the rest is there for the promise. Put into each caller: a RowEnd that is handed back goes through memory (measured).
#[inline(always)]
pub fn pass_row(
    floor: &Floor,
    clear: &[u8],
    start: Cell,
    field: usize,
    row: usize,
    reach: usize,
) -> RowEnd
    requires { on Coming floor.now.grid clear.now start.x start.y field row reach }
    ensures { on PassedRow floor.now.grid start.x start.y field row result }
{
    let at = ahead_of(start, 4 + field / 2, row);
    let s = Sweep {
        start,
        field,
        row,
        at,
        reach,
    };
    if turns(floor, clear, s) {
        return RowEnd {
            shown: edge(field, Some(at.y * floor.grid.w + at.x)),
            reach: None,
        };
    }
    let e = row_end(floor, clear, s);
    let on = slants(clear, floor.grid.w, at, field);
    RowEnd {
        shown: beyond(field, row, e.shown),
        reach: if on { e.reach } else { None },
    }
}
