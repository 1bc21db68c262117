// The chain of places back from a settled goal, and the route along it. The column NEXT holds one more than a place, and 0 for none, as
// it is a part of a work space of numbers that is cleared by zeros.
#![tactic(auto)]

ghost use Rattle.std.specs.Prelude.{◌≡◌, ◌≢◌, List, ℕ, ◌+◌, ◌*◌, ◌<◌, ◌≤◌, ◌%◌, ◌/◌, length};
ghost use Rattle.lengths.specs.Lengths.{len_of};
ghost use Rattle.floor.specs.Refusals.{Tells};
ghost use Rattle.ground.specs.Kind.{octile};
ghost use Rattle.corners.specs.Lists.{written};
ghost use Rattle.places.specs.Columns.{Next, Only};
ghost use Rattle.places.specs.Places.{cell_at};
ghost use Rattle.places.specs.Roads.{on, of_places, on_places};
ghost use Rattle.line.specs.Cells.{steps, LineWritten};
ghost use Rattle.chain.specs.Chain.{Journey, Walked, LeadsTo, Lesser, Reached, Prior, Linked, Paved};
ghost use Rattle.chain.specs.Lent.{place_at, AtCell, cells_along};

use floor::Cell;
use lengths::Length;
use places::Roads;

// Whether a link to place u leads to v on a shortest walk: u is settled, and its label and the leg make v's label.
fn leads_to(roads: &Roads, work: &[u32], v: usize, u: usize) -> bool
    requires room { 6 * (roads.now.trip.k + 2) ≤ length work.now }
    requires inside { (v < roads.now.trip.k + 2) × (u < roads.now.trip.k + 2) }
    ensures { Tells (on_places LeadsTo roads.now work.now v u) result }
{
    let n = roads.trip.k + 2;
    if places::get(work, n, places::SETTLED, u) == 0 {
        return false;
    }
    let near = places::get(work, n, places::LABEL, u);
    let far = places::get(work, n, places::LABEL, v);
    let a = places::cell_of(roads, u);
    let b = places::cell_of(roads, v);
    let leg = places::leg(roads.trip.w, a, b);
    u64::from(near) + u64::from(leg) == u64::from(far)
}

// The one of two places with the lesser cell number. The first may be none.
fn lesser(roads: &Roads, a: Option<usize>, b: usize) -> usize
    ensures { on_places Lesser roads.now a b result }
{
    let Some(a) = a else {
        return b;
    };
    let p = places::cell_of(roads, a);
    let q = places::cell_of(roads, b);
    if q < p { b } else { a }
}

// The place before v, which is settled, no further than the goal, and not the start: of those linked to v that lead to it, the one with
// the least cell number. A loop and no chain of iterators: what is asked of a link and its place is known where the loop has them.
fn place_before(roads: &Roads, work: &[u32], v: usize) -> usize
    requires walked { (a : Journey) × on (Walked a) roads.now work.now }
    requires reached { Reached roads.now.trip work.now v }
    requires other { v ≢ roads.now.trip.from }
    ensures { (a : Journey) → on (Walked a) roads.now work.now → on (Prior a) roads.now work.now v result }
{
    let count = places::link_count(roads, v);
    let mut best = None;
    for j in 0..count {
        if let Some(u) = places::link_at(roads, work, v, j) {
            if leads_to(roads, work, v, u) {
                best = Some(lesser(roads, best, u));
            }
        }
    }
    best.unwrap()
}

// Where place i stands, as the end of a leg.
fn end_of(roads: &Roads, i: usize) -> Cell
    requires { 0 < roads.now.trip.w }
    ensures { (result.x ≡ of_places cell_at roads.now i % roads.now.trip.w) × (result.y ≡ of_places cell_at roads.now i / roads.now.trip.w) }
{
    Cell::numbered(roads.trip.w, places::cell_of(roads, i))
}

// The length of the leg from place u to place v.
fn leg_length(roads: &Roads, u: usize, v: usize) -> Length
    requires { (u < roads.now.trip.k + 2) × (v < roads.now.trip.k + 2) }
    ensures { len_of result ≡ octile (place_at roads.now u) (place_at roads.now v) }
{
    line::line_length(end_of(roads, u), end_of(roads, v))
}

// Puts into the column NEXT, at each place of the chain but the goal, one more than the place after it, and says the chain's length.
// Which place comes before is found at each turn, so no range has them.
pub fn link_back(roads: &Roads, work: &mut [u32]) -> Length
    requires { (a : Journey) × on (Walked a) roads.now work.old }
    ensures only { Only (roads.now.trip.k + 2) work.old Next work.new }
    ensures linked { (a : Journey) → on (Walked a) roads.now work.old → on_places (Linked a) roads.now work.new result }
{
    let mut v = roads.trip.to;
    let mut straight = 0;
    let mut diagonal = 0;
    while v != roads.trip.from {
        let u = place_before(roads, work, v);
        let leg = leg_length(roads, u, v);
        straight += leg.straight;
        diagonal += leg.diagonal;
        places::put(work, roads.trip.k + 2, places::NEXT, u, v as u32 + 1);
        v = u;
    }
    Length { straight, diagonal }
}

// Writes the leg from place v to place u from entry `from` on, and says which entry is next. The whole route is lent, as
// `line::write_line` promises what it is as a whole.
fn write_leg(roads: &Roads, v: usize, u: usize, route: &mut [u16], from: usize) -> usize
    requires first { AtCell roads.now v }
    requires second { AtCell roads.now u }
    requires room { from + steps (place_at roads.now v) (place_at roads.now u) ≤ length route.old }
    ensures { LineWritten roads.now.trip.w (place_at roads.now v) (place_at roads.now u) route.old from result route.new }
{
    let a = end_of(roads, v);
    let b = end_of(roads, u);
    line::write_line(roads.trip.w, a, b, route, from)
}

// Writes the cells of the route, leg by leg, along the column NEXT. The next place is read from the list, so no range has them.
pub fn write_route(roads: &Roads, work: &[u32], route: &mut [u16])
    requires { (ps : List ℕ) × on_places Paved roads.now work.now (length route.old) ps }
    ensures { (ps : List ℕ) → on_places Paved roads.now work.now (length route.old) ps → route.new ≡ written (cells_along roads.now ps) route.old }
{
    route[0] = roads.trip.start as u16;
    let mut next = 1;
    let mut v = roads.trip.from;
    while v != roads.trip.to {
        let u = places::get(work, roads.trip.k + 2, places::NEXT, v) as usize - 1;
        next = write_leg(roads, v, u, route, next);
        v = u;
    }
}
