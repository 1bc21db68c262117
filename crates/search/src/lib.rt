// The search over places, nearest first, of equally near ones the smaller cell number first. What it finds is in the work
// space that the caller lends. What it needs only while it runs is in an array of its own: a tree of keys, which tells the
// place that comes first, 33 KB of the call's stack.
// Roads, work and tree stay three parameters, each with its clauses: what is known of the work space changes with each offer, and a
// struct that holds lists which are written can't promise it.
#![tactic(auto)]

ghost use Rattle.std.specs.Prelude.{◌≡◌, ℕ, ◌+◌, ◌*◌, ◌<◌, ◌≤◌, true, List, length, get_or, nat_lt, count_by};
ghost use Rattle.settling.specs.Labels.{First as Begun};
ghost use Rattle.settling.specs.Counts.{Counts, below};
ghost use Rattle.tree.specs.Keys.{nobody, Keyed};
ghost use Rattle.places.specs.Chart.{chart, net, Ready};
ghost use Rattle.places.specs.Roads.{of, on, on_places};
ghost use Rattle.offers.specs.Tree.{Right};
ghost use Rattle.offers.specs.Offers.{Offer};
ghost use Rattle.search.specs.Search.{labels_of, Near, First, Marked, Settling, Blank, Bounded, Run};

use places::Roads;

// The place that waits foremost, or none where none waits: its key is at the top of the tree, whatever the work space that the
// tree is right for.
fn next(roads: &Roads, tree: &[u64]) -> Option<usize>
    requires { Keyed (roads.now.trip.k + 2) tree.now }
    ensures { (W : List ℕ) → 6 * (roads.now.trip.k + 2) ≤ length W → on_places Right roads.now W tree.now → First (of chart roads.now W) W result }
{
    let top = tree[1];
    if top == tree::NOBODY {
        None
    } else {
        Some((top % 4096) as usize)
    }
}

// Marks u as settled: it waits no longer, so its leaf is emptied.
fn mark(roads: &Roads, work: &mut [u32], tree: &mut [u64], u: usize)
    requires room { 6 * (roads.now.trip.k + 2) ≤ length work.old }
    requires keyed { Keyed (roads.now.trip.k + 2) tree.old }
    requires inside { u < roads.now.trip.k + 2 }
    ensures { Marked roads.now.trip work.old tree.old u work.new tree.new }
{
    let n = roads.trip.k + 2;
    places::put(work, n, places::SETTLED, u, 1);
    tree::empty(tree, n, u);
}

// Settles the place that waits foremost and says which it was, or none where none waits.
fn settle(roads: &Roads, work: &mut [u32], tree: &mut [u64]) -> Option<usize>
    requires ready { on Ready roads.now work.old }
    requires right { on_places Right roads.now work.old tree.old }
    requires near { Near (of chart roads.now work.old) (labels_of (roads.now.trip.k + 2) work.old) }
    ensures { on Settling roads.now work.old tree.old result work.new tree.new }
{
    let u = next(roads, tree)?;
    let d = places::get(work, roads.trip.k + 2, places::LABEL, u);
    mark(roads, work, tree, u);
    offers::follow_all(roads, work, tree, u, d);
    Some(u)
}

// The start is reached at the length 0.
fn begin(roads: &Roads, work: &mut [u32], tree: &mut [u64])
    requires room { 6 * (roads.now.trip.k + 2) ≤ length work.old }
    requires blank { Blank (roads.now.trip.k + 2) work.old }
    requires bare { (4100 ≤ length tree.old) × ((i : ℕ) → i < length tree.old → get_or tree.old i 0 ≡ nobody) }
    ensures { on_places Offer roads.now work.old tree.old roads.now.trip.from 1 work.new tree.new }
{
    offers::offer(roads, work, tree, roads.trip.from, 1);
}

// Settles places from the start on, until the goal is settled, none waits or `budget` of them are settled.
fn settle_up_to(roads: &Roads, work: &mut [u32], tree: &mut [u64], budget: usize)
    requires ready { on Ready roads.now work.old }
    requires right { on_places Right roads.now work.old tree.old }
    requires begun { Begun (net (of chart roads.now work.old)) (labels_of (roads.now.trip.k + 2) work.old) }
    requires bounded { Bounded (of chart roads.now work.old) }
    ensures { (m : ℕ) × on Run roads.now work.old budget m work.new }
{
    let n = roads.trip.k + 2;
    for _ in 0..budget {
        if places::get(work, n, places::SETTLED, roads.trip.to) > 0 {
            return;
        }
        if settle(roads, work, tree).is_none() {
            return;
        }
    }
}

// How many of a list of flags are set.
fn set_count(flags: &[u32]) -> usize
    ensures { result ≡ count_by (λ x. nat_lt 0 x) flags.now }
{
    flags.iter().filter(|flag| **flag > 0).count()
}

// How many of n places are settled, by their flags.
fn settled_count(work: &[u32], n: usize) -> usize
    requires { 6 * n ≤ length work.now }
    ensures { Counts (λ v. (labels_of n work.now).settled v ≡ true) (below n) result }
{
    let first = places::SETTLED * n;
    set_count(&work[first..first + n])
}

// Settles places from the start on, until the goal is settled, none waits or `budget` of them are settled, and says how
// many are.
pub fn run(roads: &Roads, work: &mut [u32], budget: usize) -> usize
    requires ready { on Ready roads.now work.old }
    requires blank { Blank (roads.now.trip.k + 2) work.old }
    requires bounded { Bounded (of chart roads.now work.old) }
    ensures { on Run roads.now work.old budget result work.new }
{
    let mut tree = [tree::NOBODY; 4100];
    begin(roads, work, &mut tree);
    settle_up_to(roads, work, &mut tree, budget);
    settled_count(work, roads.trip.k + 2)
}
