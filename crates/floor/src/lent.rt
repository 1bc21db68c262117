// A floor as it is lent: its sides and its words.
ghost use Rattle.floor.specs.Words.{Sized, Floor as Good};

// A cell by its column and row.
#[derive(Clone, Copy, PartialEq, Eq)]
pub struct Cell {
    pub x: usize,
    pub y: usize,
}

// Words that are as many as w columns and h rows take, each side at most 255.
#[derive(Clone, Copy)]
pub struct Grid<'a> {
    pub words: &'a [u64],
    pub w: usize,
    pub h: usize,
    pub ghost sized: { Sized w h words.now },
}

// A floor that none of the refusals 1 to 3 applies to.
#[derive(Clone, Copy)]
pub struct Floor<'a> {
    pub grid: Grid<'a>,
    pub ghost good: { Good grid.w grid.h grid.words.now },
}

impl Cell {
    ghost use Rattle.std.specs.Prelude.{◌≡◌, ◌<◌, ◌%◌, ◌/◌};

    // The cell with a number, on a floor of w columns. The way back, y * w + x, is written out where it is needed: a method would be no shorter,
    // and would have to ask that it fits.
    pub fn numbered(w: usize, number: usize) -> Cell
        requires { 0 < w }
        ensures { (result.x ≡ number % w) × (result.y ≡ number / w) }
    {
        Cell {
            x: number % w,
            y: number / w,
        }
    }
}

impl<'a> Grid<'a> {
    ghost use Rattle.std.specs.Prelude.{◌≡◌, ◌<◌};
    ghost use Rattle.floor.specs.Words.{IsRow, board};
    ghost use Rattle.floor.specs.Lent.{of};

    // The words of row y, a part of the grid's words.
    pub fn row_of(&self, y: usize) -> &'a [u64]
        requires { y < self.now.h }
        ensures { IsRow self.now.w self.now.words.now y result.now }
    {
        let n = super::row_words(self.w);
        &self.words[y * n..(y + 1) * n]
    }

    // The place at column x and row y, both padded, is free.
    pub fn free_at(&self, x: usize, y: usize) -> bool
        ensures { result ≡ of board self.now x y }
    {
        y != 0 && y <= self.h && super::free_in(self.row_of(y - 1), self.w, x)
    }
}
