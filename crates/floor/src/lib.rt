// The floor's words, its cells, and the refusals 1 to 3.
#![tactic(auto)]

ghost use Rattle.std.specs.Prelude.{◌≡◌, ◌*◌, ◌<◌, ◌≤◌, length, IfOk};
ghost use Rattle.floor.specs.Refusals.{FirstOf, Tells};
ghost use Rattle.floor.specs.Words.{bit_free, free_in, row_words, SizeRefused, RestClear, UnusedClear, floor_rows, clear_bits};
ghost use Rattle.floor.specs.Lent.{on, IsLent};
ghost use Rattle.floor.specs.Codes.{code_of};

mod lent;
mod refusal;

pub use lent::{Cell, Floor, Grid};
pub use refusal::Refusal;

// Cell x of a row is free: bit x % 64 of word x / 64 is 0.
pub fn cell_free(row: &[u64], x: usize) -> bool
    requires { x < 64 * length row.now }
    ensures { result ≡ bit_free row.now x }
{
    (row[x / 64] >> (x % 64)) % 2 == 0
}

// How many words a row takes. Each mask asks for it: this is an addition and a shift, while `div_ceil` would test the remainder too.
pub fn row_words(w: usize) -> usize
    requires { w ≤ 255 }
    ensures { result ≡ row_words w }
{
    (w + 63) / 64
}

// The place at padded column x of a row of w cells is free.
pub fn free_in(row: &[u64], w: usize, x: usize) -> bool
    requires { w ≤ 64 * length row.now }
    ensures { result ≡ free_in w row.now x }
{
    x != 0 && x <= w && cell_free(row, x - 1)
}

// The longest side that a floor may have.
const MAX_SIDE: usize = 255;

// The most cells that a floor may have.
const MAX_CELLS: usize = 16384;

// A side is 0 or above 255, or the cells are more than 16,384.
pub fn size_refused(w: usize, h: usize) -> bool
    ensures { Tells (SizeRefused w h) result }
{
    w == 0 || h == 0 || MAX_SIDE < w || MAX_SIDE < h || MAX_CELLS < w * h
}

// A bit of a row past its w cells is 0.
fn rest_clear(row: &[u64], w: usize) -> bool
    requires { length row.now ≤ 4 }
    ensures { Tells (RestClear w row.now) result }
{
    (w..64 * row.len()).any(|x| cell_free(row, x))
}

// An unused bit of the floor is 0.
fn unused_clear(grid: &Grid) -> bool
    ensures { Tells (on UnusedClear grid.now) result }
{
    (0..grid.h).any(|y| rest_clear(grid.row_of(y), grid.w))
}

// The floor as it is lent, or the first of the refusals 1 to 3 that applies.
pub fn check_floor(words: &[u64], w: usize, h: usize) -> Result<Floor, Refusal>
    ensures code { FirstOf (floor_rows w h words.now) (code_of result) }
    ensures same { IfOk result (λ floor. IsLent w h words.now floor.grid) }
{
    if size_refused(w, h) {
        return Err(Refusal::Size);
    }
    if words.len() != h * row_words(w) {
        return Err(Refusal::Words);
    }
    let grid = Grid { words, w, h };
    if unused_clear(&grid) {
        return Err(Refusal::Unused);
    }
    Ok(Floor { grid })
}

// How many bits of a floor's words are 0. On an accepted floor these are its free cells (the law `free_cells_are`).
pub fn count_free(words: &[u64]) -> u32
    requires { length words.now ≤ 1020 }
    ensures { result ≡ clear_bits words.now (length words.now) }
{
    words.iter().map(|word| 64 - word.count_ones()).sum()
}
