// The eight directions, the window round a cell, and the corner and step rules on it.
#![tactic(auto)]

ghost use Rattle.std.specs.Prelude.{◌≡◌, ◌*◌, ◌<◌, ◌≤◌, length};
ghost use Rattle.floor.specs.Board.{at, step, nook, corner, dir_at};
ghost use Rattle.floor.specs.Refusals.{Tells};
ghost use Rattle.floor.specs.Words.{bit_clear, free_in, board};
ghost use Rattle.floor.specs.Lent.{of, on};
ghost use Rattle.floor.specs.Cells.{Within};
ghost use Rattle.windows.specs.Window.{cells, triple, window_of, OneWord, InWindow};

use floor::{Cell, Grid};

// The eight directions N, E, S, W, NE, SE, SW, NW, each as its offsets of column and row. North is smaller y. Directions are numbers: a
// clearance stands at 4 * cell + dir in the list that C programs read.
pub const DIRECTIONS: [[i32; 2]; 8] = [
    [0, -1],
    [1, 0],
    [0, 1],
    [-1, 0],
    [1, -1],
    [1, 1],
    [-1, 1],
    [-1, -1],
];

// The three rows of three cells round a cell, north first. It is an array of arrays, as document 01 has it.
pub type Window = [[bool; 3]; 3];

// A cell of a window by column and row.
pub fn cell(win: Window, i: usize, j: usize) -> bool
    requires { (i < 3) × (j < 3) }
    ensures { result ≡ cells win i j }
{
    win[j][i]
}

// The neighbour's column and row in a window: the direction's offsets from the middle, which stands at 1, 1.
pub fn in_window(dir: usize) -> [usize; 2]
    requires { dir < 8 }
    ensures { InWindow (dir_at dir) result }
{
    [
        (1 + DIRECTIONS[dir][0]) as usize,
        (1 + DIRECTIONS[dir][1]) as usize,
    ]
}

// A step from the middle of a window, which is free, is legal: the target is free, and so are both sides of a diagonal step.
pub fn step_legal(win: Window, dir: usize) -> bool
    requires { dir < 8 }
    ensures { result ≡ step (cells win) (dir_at dir) (at 0 0) }
{
    let [i, j] = in_window(dir);
    cell(win, i, j) && (i == 1 || j == 1 || cell(win, i, 1) && cell(win, 1, j))
}

// The diagonal neighbour is blocked between two free straight ones.
fn in_nook(win: Window, dir: usize) -> bool
    requires { dir < 8 }
    ensures { result ≡ nook (cells win) (dir_at dir) (at 0 0) }
{
    let [i, j] = in_window(dir);
    !cell(win, i, j) && cell(win, i, 1) && cell(win, 1, j)
}

// The middle of a window is a turning point: one of the four diagonal directions, 4 to 7, is a nook.
pub fn is_corner(win: Window) -> bool
    ensures { result ≡ corner (cells win) (at 0 0) }
{
    cell(win, 1, 1) && (4..8).any(|dir| in_nook(win, dir))
}

// Three neighbouring bits of a word, from bit s on, are 0.
fn three_bits(word: u64, s: usize) -> [bool; 3]
    requires { s < 62 }
    ensures { result ≡ triple (bit_clear word) s }
{
    [
        (word >> s) % 2 == 0,
        (word >> (s + 1)) % 2 == 0,
        (word >> (s + 2)) % 2 == 0,
    ]
}

// The cells a, a + 1 and a + 2 of a row of w cells are three bits of one word.
fn in_one_word(w: usize, a: usize) -> bool
    requires { a ≤ 255 }
    ensures { Tells (OneWord w a) result }
{
    a + 2 < w && a % 64 < 62
}

// Three places of a row from padded column x on. Most are bits of one word, which is read once.
fn three_in(row: &[u64], w: usize, x: usize) -> [bool; 3]
    requires { (w ≤ 64 * length row.now) × (x ≤ 255) }
    ensures { result ≡ triple (free_in w row.now) x }
{
    if 0 < x {
        let a = x - 1;
        if in_one_word(w, a) {
            return three_bits(row[a / 64], a % 64);
        }
    }
    [
        floor::free_in(row, w, x),
        floor::free_in(row, w, x + 1),
        floor::free_in(row, w, x + 2),
    ]
}

// Three places of the floor from column x on, in row y, both padded.
fn three_at(grid: &Grid, x: usize, y: usize) -> [bool; 3]
    requires { x ≤ 255 }
    ensures { result ≡ triple (λ i. of board grid.now i y) x }
{
    if y == 0 || grid.h < y {
        return [false; 3];
    }
    three_in(grid.row_of(y - 1), grid.w, x)
}

// The window round a cell.
pub fn window(grid: &Grid, cell: Cell) -> Window
    requires { (cell.x ≤ 255) × (cell.y ≤ 255) }
    ensures { result ≡ window_of (of board grid.now) cell.x cell.y }
{
    [
        three_at(grid, cell.x, cell.y),
        three_at(grid, cell.x, cell.y + 1),
        three_at(grid, cell.x, cell.y + 2),
    ]
}

// A cell is a turning point.
pub fn corner_at(grid: &Grid, cell: Cell) -> bool
    requires { on Within grid.now cell }
    ensures { result ≡ corner (of board grid.now) (at cell.x cell.y) }
{
    is_corner(window(grid, cell))
}

// A step from a cell is legal.
pub fn step_at(grid: &Grid, cell: Cell, dir: usize) -> bool
    requires { on Within grid.now cell × (dir < 8) }
    ensures { result ≡ step (of board grid.now) (dir_at dir) (at cell.x cell.y) }
{
    step_legal(window(grid, cell), dir)
}
