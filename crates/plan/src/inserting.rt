// Neighbours put in their place among those found so far, which stand ascending in a part of the list.
ghost use Rattle.std.specs.Prelude.{◌≤◌, length};
ghost use Rattle.floor.specs.Refusals.{Tells};
ghost use Rattle.corners.specs.Lists.{part};
ghost use Rattle.plan.specs.Rising.{In, Rising};
ghost use Rattle.plan.specs.Inserting.{Placed, Inserted};

use super::MAX_ARCS;

// Whether t stands among ascending entries.
pub fn listed(row: &[u16], t: u16) -> bool
    requires { Rising row.now }
    ensures { Tells (In t row.now) result }
{
    row.binary_search(&t).is_ok()
}

// Where t stands among ascending entries, or where it belongs. They are few while fields are swept, and what a field to the south shows goes to
// their end: so going back from the last, one by one, is quicker than halving (measured).
fn seek(row: &[u16], t: u16) -> Result<usize, usize>
    requires { Rising row.now }
    ensures { Placed row.now t result }
{
    for i in (0..row.len()).rev() {
        if row[i] <= t {
            return if row[i] == t { Ok(i) } else { Err(i + 1) };
        }
    }
    Err(0)
}

// Puts t in its place among the ascending entries from `from` up to m, if it is not there, and says where they end. It takes the whole list and
// not a part of it, since they grow into the room behind them, and `from`, since `MAX_ARCS` counts from the list's beginning.
pub fn insert(list: &mut [u16], from: usize, m: usize, t: u16) -> Option<usize>
    requires place { (from ≤ m) × (m ≤ length list.old) }
    requires rising { Rising (part list.old from m) }
    ensures { Inserted list.old from m t result list.new }
{
    let place = match seek(&list[from..m], t) {
        Ok(_) => return Some(m),
        Err(place) => place,
    };
    if list.len() <= m || MAX_ARCS <= m {
        return None;
    }
    let i = from + place;
    list.copy_within(i..m, i + 1);
    list[i] = t;
    Some(m + 1)
}
