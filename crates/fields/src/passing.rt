// The rows of a field, one after another.
ghost use Rattle.std.specs.Prelude.{◌-◌, ◌<◌};
ghost use Rattle.std.specs.Iterator.{at_most};
ghost use Rattle.floor.specs.Lent.{on};
ghost use Rattle.fields.specs.Fields.{Sweepable};
ghost use Rattle.fields.specs.Passing.{Begun, Underway, RowGiven};

use floor::{Cell, Floor};

// As many steps as are open before the first row: more than a row can have.
const ALL_OPEN: usize = 255;

// The rows of a field from a cell that are to be passed, from row `row` on; `ahead` says how many steps are open in all rows before, and
// that no row follows where it is None. Each gives the cell that it shows, if it shows one.
#[derive(Drop)]
pub struct FieldRows<'a> {
    floor: &'a Floor<'a>,
    clear: &'a [u8],
    start: Cell,
    field: usize,
    row: usize,
    ahead: Option<usize>,
}

// All rows of a field from a cell.
pub fn rows<'a>(floor: &'a Floor<'a>, clear: &'a [u8], cell: usize, field: usize) -> FieldRows<'a>
    requires { on Sweepable floor.now.grid cell clear.now × (field < 8) }
    ensures same { on Begun floor.now.grid cell field result }
    ensures ready { Underway result }
{
    FieldRows {
        floor,
        clear,
        start: Cell::numbered(floor.grid.w, cell),
        field,
        row: 0,
        ahead: Some(ALL_OPEN),
    }
}

impl Iterator for FieldRows<'_> {
    type Item = Option<usize>;

    ghost can_next = { Underway };

    ghost next_gives = { RowGiven };

    ghost remaining = { λ s. at_most (256 - s.row) };

    #[inline(always)]
    fn next(&mut self) -> Option<Option<usize>> {
        let reach = self.ahead?;
        let e = super::pass_row(
            self.floor, self.clear, self.start, self.field, self.row, reach,
        );
        self.row += 1;
        self.ahead = e.reach;
        Some(e.shown)
    }
}
