// Offers: a place offers each place that it is linked to the way by itself. An offer may lower a label in the work space
// that the caller lends; the tree of keys, which the caller lends too, is kept right for the places that wait.
// Roads, work and tree stay three parameters, each with its clauses: what is known of the work space changes with each offer, and a
// struct that holds lists which are written can't promise it.
#![tactic(auto)]

ghost use Rattle.std.specs.Prelude.{◌≡◌, ◌+◌, ◌*◌, ◌<◌, ◌≤◌, length};
ghost use Rattle.places.specs.Chart.{chart, link_count, Ready};
ghost use Rattle.places.specs.Flagging.{first_told, FlagsOf};
ghost use Rattle.places.specs.Roads.{of, on, on_places};
ghost use Rattle.offers.specs.Tree.{Right};
ghost use Rattle.offers.specs.Offers.{limit, lowered as loweredOf, Offer, Follow, Followed};

use places::{Flags, Roads};

// The entry after an offer: the less of the two, where there was one.
fn lowered(old: u32, new: u32) -> u32
    ensures { result ≡ loweredOf old new }
{
    if old == 0 { new } else { old.min(new) }
}

// Place v may be reached at a length that is one less than `new`. Where that is news, and v is not settled, its key
// climbs in the tree.
pub fn offer(roads: &Roads, work: &mut [u32], tree: &mut [u64], v: usize, new: u32)
    requires room { 6 * (roads.now.trip.k + 2) ≤ length work.old }
    requires right { on_places Right roads.now work.old tree.old }
    requires inside { v < roads.now.trip.k + 2 }
    requires some { 0 < new }
    ensures { on_places Offer roads.now work.old tree.old v new work.new tree.new }
{
    let n = roads.trip.k + 2;
    let old = places::get(work, n, places::LABEL, v);
    let best = lowered(old, new);
    if best != old {
        places::put(work, n, places::LABEL, v, best);
        let settled = places::get(work, n, places::SETTLED, v);
        if settled == 0 {
            let cell = places::cell_of(roads, v);
            let key = tree::key(best, cell, v);
            tree::climb(tree, n, v, key);
        }
    }
}

// Offers the place that flag i of u tells of, if it is set, the way by u, whose entry is d.
fn follow_flag(
    roads: &Roads,
    work: &mut [u32],
    tree: &mut [u64],
    f: Flags,
    u: usize,
    d: u32,
    i: usize,
)
    requires ready { on Ready roads.now work.old }
    requires right { on_places Right roads.now work.old tree.old }
    requires inside { u < roads.now.trip.k + 2 }
    requires flags { FlagsOf roads.now.trip u f }
    requires there { i < f.count }
    requires short { (0 < d) × (d ≤ limit + 1) }
    ensures { on Follow roads.now work.old tree.old u d (first_told roads.now.starts.now roads.now.trip.k u + i) work.new tree.new }
{
    let flag = work[f.at + f.apart * i];
    if flag > 0 {
        let v = f.to + i;
        let a = places::cell_of(roads, u);
        let b = places::cell_of(roads, v);
        let far = places::leg(roads.trip.w, a, b);
        offer(roads, work, tree, v, d + far);
    }
}

// Offers each neighbour of u the way by u, whose entry is d; only a corner has any.
fn follow_arcs(roads: &Roads, work: &mut [u32], tree: &mut [u64], u: usize, d: u32)
    requires ready { on Ready roads.now work.old }
    requires right { on_places Right roads.now work.old tree.old }
    requires inside { u < roads.now.trip.k + 2 }
    requires short { (0 < d) × (d ≤ limit + 1) }
    ensures { on Followed roads.now work.old tree.old u d (first_told roads.now.starts.now roads.now.trip.k u) work.new tree.new }
{
    if roads.trip.k <= u {
        return;
    }
    let a = places::cell_of(roads, u);
    let near = places::neighbours_of(roads, u);
    for c in near {
        let b = usize::from(*c);
        let v = usize::from(roads.table[b]);
        let far = places::leg(roads.trip.w, a, b);
        offer(roads, work, tree, v, d + far);
    }
}

// Follows each link of u: its neighbours by the table, then those that flags tell of.
pub fn follow_all(roads: &Roads, work: &mut [u32], tree: &mut [u64], u: usize, d: u32)
    requires ready { on Ready roads.now work.old }
    requires right { on_places Right roads.now work.old tree.old }
    requires inside { u < roads.now.trip.k + 2 }
    requires short { (0 < d) × (d ≤ limit + 1) }
    ensures { on Followed roads.now work.old tree.old u d (link_count (of chart roads.now work.old) u) work.new tree.new }
{
    follow_arcs(roads, work, tree, u, d);
    let f = places::flags_of(roads.trip, u);
    for i in 0..f.count {
        follow_flag(roads, work, tree, f, u, d, i);
    }
}
