// Starts and neighbours: written.
ghost use Rattle.std.specs.Prelude.{IfSome, ◌≡◌, ◌+◌, ◌*◌, ◌<◌, ◌≤◌, length};
ghost use Rattle.floor.specs.Lent.{of, on};
ghost use Rattle.corners.specs.Corners.{corner_cells};
ghost use Rattle.corners.specs.Lists.{part};
ghost use Rattle.marks.specs.Marks.{Cleared};
ghost use Rattle.plan.specs.Rising.{Rising};
ghost use Rattle.plan.specs.Linking.{PutShown, Finding, FieldSwept, OneLinked, LinkOutcome};
ghost use Rattle.fields.specs.Fields.{Sweepable};

use super::inserting;
use floor::Floor;

// Puts the cell that a row shows, if it shows one, in its place. It takes the whole list, `from` and `m`, as `insert`.
fn put_shown(list: &mut [u16], from: usize, m: usize, shown: Option<usize>) -> Option<usize>
    requires place { (from ≤ m) × (m ≤ length list.old) }
    requires rising { Rising (part list.old from m) }
    requires fits { IfSome shown (λ cell. cell < 65536) }
    ensures { PutShown list.old from m shown result list.new }
{
    match shown {
        Some(cell) => inserting::insert(list, from, m, cell as u16),
        None => Some(m),
    }
}

// Puts the turning points that a field from `cell` shows in their places among those from `from` up to m, and takes the list as `insert`.
fn link_field(
    floor: &Floor,
    clear: &[u8],
    list: &mut [u16],
    from: usize,
    m: usize,
    cell: usize,
    field: usize,
) -> Option<usize>
    requires { on Sweepable floor.now.grid cell clear.now × (on Finding floor.now.grid cell list.old from m × (field < 8)) }
    ensures { on FieldSwept floor.now.grid cell list.old from m field result list.new }
{
    let mut end = m;
    for shown in fields::rows(floor, clear, cell, field) {
        end = put_shown(list, from, end, shown)?;
    }
    Some(end)
}

// Writes the neighbours of `cell` from entry `from` on, ascending, and takes the list as `insert`.
pub fn link_one(
    floor: &Floor,
    clear: &[u8],
    list: &mut [u16],
    from: usize,
    cell: usize,
) -> Option<usize>
    requires { on Sweepable floor.now.grid cell clear.now × ((from ≤ length list.old) × (from ≤ 32768)) }
    ensures { on OneLinked floor.now.grid cell list.old from result list.new }
{
    // A copy, which no write to the list can reach: so the cell's column and row are reckoned once and not for each field (measured).
    let floor = *floor;
    let mut end = from;
    for field in 0..8 {
        end = link_field(&floor, clear, list, from, end, cell, field)?;
    }
    Some(end)
}

// Writes starts and neighbours of all turning points.
pub fn link(
    floor: &Floor,
    clear: &[u8],
    corners: &[u16],
    starts: &mut [u16],
    list: &mut [u16],
) -> Option<usize>
    requires clear { (4 * (floor.now.grid.w * floor.now.grid.h) ≤ length clear.now) × on Cleared floor.now.grid clear.now }
    requires corners { corners.now ≡ of corner_cells floor.now.grid }
    requires starts { length corners.now < length starts.old }
    ensures { on LinkOutcome floor.now.grid corners.now starts.old list.old result starts.new list.new }
{
    starts[0] = 0;
    let mut m = 0;
    for (i, cell) in corners.iter().enumerate() {
        m = link_one(floor, clear, list, m, usize::from(*cell))?;
        starts[i + 1] = m as u16;
    }
    Some(m)
}
