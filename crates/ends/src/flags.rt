// The flags of the corners that a cell is linked to, found by sweeping the fields round it.
ghost use Rattle.floor.specs.Lent.{on};
ghost use Rattle.std.specs.Prelude.{ℕ, ◌+◌, ◌<◌, length};
ghost use Rattle.plan.specs.Rising.{In};
ghost use Rattle.fields.specs.Fields.{Seen};
ghost use Rattle.places.specs.Places.{index_of};
ghost use Rattle.ends.specs.Flags.{FlagRoom, Flaggable, Flagged};

use floor::Floor;
use plan::Plan;

// Sets the flags of the corners that are listed. The column is a number, as for all who read and write the work space.
fn flag_listed(corners: &[u16], work: &mut [u32], column: usize, found: &[u16])
    requires room { FlagRoom corners.now (length corners.now + 2) column work.old }
    requires listed { (t : ℕ) → In t found.now → index_of corners.now t < length corners.now }
    ensures { Flagged (λ t. In t found.now) corners.now column work.old work.new }
{
    let n = corners.len() + 2;
    for cell in found {
        if let Some(at) = places::find(corners, usize::from(*cell)) {
            places::put(work, n, column, at, 1);
        }
    }
}

// Sets the flags of the corners that `cell` is linked to.
pub fn flag_links(floor: &Floor, plan: &Plan, work: &mut [u32], column: usize, cell: usize)
    requires ready { on Flaggable floor.now.grid plan.now.clear.now plan.now.corners.now cell (length plan.now.corners.now + 2) column work.old }
    ensures { Flagged (on Seen floor.now.grid cell) plan.now.corners.now column work.old work.new }
{
    let mut found: [u16; 2048] = [0; 2048];
    if let Some(end) = plan::link_one(floor, plan.clear, &mut found, 0, cell) {
        flag_listed(plan.corners, work, column, &found[..end]);
    }
}
