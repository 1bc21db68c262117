// The direct line: all its diagonal steps first, then its straight ones.
#![tactic(auto)]

ghost use Rattle.std.specs.Prelude.{◌≡◌, suc, ◌+◌, ◌<◌, ◌≤◌, length};
ghost use Rattle.lengths.specs.Lengths.{len_of};
ghost use Rattle.floor.specs.Board.{at, Free, dir_at, shift};
ghost use Rattle.floor.specs.Refusals.{Tells};
ghost use Rattle.floor.specs.Words.{board};
ghost use Rattle.floor.specs.Lent.{of, on};
ghost use Rattle.floor.specs.Cells.{Within};
ghost use Rattle.ground.specs.Kind.{octile, walkers};
ghost use Rattle.ground.specs.Walk.{Legal};
ghost use Rattle.ground.specs.Line.{toward, diagonal_way, line};
ghost use Rattle.line.specs.Cells.{steps, Nearer, Cell as IsCell, LineWritten};

use floor::{Cell, Floor};
use lengths::Length;
use std::cmp::Ordering;

// The directions by their offsets of column and row, each 0, 1 or 2 for -1, 0 and 1. The one that stands still is of no account.
const HEADINGS: [usize; 9] = [7, 3, 6, 0, 0, 2, 4, 1, 5];

// On which side of a the number b lies: 0, 1 or 2, as it is less, the same or more. It indexes HEADINGS; nine arms would be no plainer.
fn side(a: usize, b: usize) -> usize
    ensures { (result ≡ shift (toward (suc a) (suc b)) 1) × (result < 3) }
{
    match a.cmp(&b) {
        Ordering::Less => 2,
        Ordering::Equal => 1,
        Ordering::Greater => 0,
    }
}

// The direction of the direct line's first step from one cell to another, if they are two.
fn heading(from: Cell, to: Cell) -> usize
    ensures { (result < 8) × (dir_at result ≡ diagonal_way (at from.x from.y) (at to.x to.y)) }
{
    HEADINGS[3 * side(from.x, to.x) + side(from.y, to.y)]
}

// The column or row a, one step nearer to b.
fn nearer(a: usize, b: usize) -> usize
    requires { a < 65536 }
    ensures { Nearer a b result }
{
    a + side(a, b) - 1
}

// The cell one step of the direct line nearer to another.
fn step_toward(from: Cell, to: Cell) -> Cell
    requires { (from.x < 65536) × (from.y < 65536) }
    ensures { Nearer from.x to.x result.x × Nearer from.y to.y result.y }
{
    Cell {
        x: nearer(from.x, to.x),
        y: nearer(from.y, to.y),
    }
}

// How many steps the direct line has: the greater offset. Here and below the two cells are no struct, since each function asks something else
// of them.
fn line_steps(from: Cell, to: Cell) -> usize
    ensures { result ≡ steps (at from.x from.y) (at to.x to.y) }
{
    let dx = lengths::apart(from.x, to.x);
    let dy = lengths::apart(from.y, to.y);
    dx.max(dy)
}

// The length of the direct line.
pub fn line_length(from: Cell, to: Cell) -> Length
    requires { (from.x ≤ 255) × (from.y ≤ 255) × (to.x ≤ 255) × (to.y ≤ 255) }
    ensures { len_of result ≡ octile (at from.x from.y) (at to.x to.y) }
{
    let dx = lengths::apart(from.x, to.x) as u16;
    let dy = lengths::apart(from.y, to.y) as u16;
    lengths::octile(dx, dy)
}

// The direct line from one free cell to another is legal.
pub fn line_legal(floor: &Floor, from: Cell, to: Cell) -> bool
    requires { on Within floor.now.grid from × on Within floor.now.grid to × Free (of board floor.now.grid) (at from.x from.y) }
    ensures { Tells (Legal walkers (of board floor.now.grid) (at from.x from.y) (line (at from.x from.y) (at to.x to.y))) result }
{
    let mut here = from;
    for _ in 0..line_steps(from, to) {
        if !windows::step_at(&floor.grid, here, heading(here, to)) {
            return false;
        }
        here = step_toward(here, to);
    }
    true
}

// Writes the cells of the direct line after the first, the last of which is `to`, from entry `first` on, and says which entry is next.
// The whole route is lent and not its rest, since what is promised is of the whole: what stands before `first` is kept.
pub fn write_line(w: usize, from: Cell, to: Cell, route: &mut [u16], first: usize) -> usize
    requires { IsCell w from.x from.y × IsCell w to.x to.y × (first + steps (at from.x from.y) (at to.x to.y) ≤ length route.old) }
    ensures { LineWritten w (at from.x from.y) (at to.x to.y) route.old first result route.new }
{
    let n = line_steps(from, to);
    let mut here = from;
    for entry in &mut route[first..first + n] {
        here = step_toward(here, to);
        *entry = (here.y * w + here.x) as u16;
    }
    first + n
}
