// The places of a trip and their links. Places are the corners by their index, then the start (k) and the goal (k + 1),
// unless they are corners themselves. What a search finds of them is in a work space that the caller lends: six columns of
// k + 2 entries, where 0 means nothing, so that zeros are an empty search. The caller lends a table besides, which tells
// the index of a neighbour: it serves the search and the way back. A place is told by its index and a cell by its number, and neither has
// a type of its own, since NEXT and the keys of the search's tree hold the number.
#![tactic(auto)]

ghost use Rattle.std.specs.Prelude.{◌≡◌, ℕ, ◌+◌, ◌<◌, ◌≤◌, length, get_or};
ghost use Rattle.lengths.specs.Lengths.{octile_of};
ghost use Rattle.lengths.specs.Laws.{weight};
ghost use Rattle.places.specs.Columns.{column_of, Inside, Put};
ghost use Rattle.places.specs.Places.{Ascending, Found, Indexed, cell_at, apart, TwoCells};
ghost use Rattle.places.specs.Flagging.{FlagsOf};
ghost use Rattle.places.specs.Chart.{chart, flagged as flaggedOf, NeighboursOf, count_of, corner_link, link_at, link_count, Ready};
ghost use Rattle.places.specs.Roads.{of, on, of_places};

mod roads;

pub use roads::Roads;

// The least length known of a place, plus one; 0 for none.
pub const LABEL: usize = 0;
// 1 for a settled place, else 0. The column before it is spare.
pub const SETTLED: usize = 2;
// 1 for a corner that is linked to the start, which is no corner; else 0. The same for the goal.
pub const BY_START: usize = 3;

pub const BY_GOAL: usize = 4;
// The caller's: the search leaves it alone.
pub const NEXT: usize = 5;

// What a search is about: the floor's width, how many corners there are, start and goal by cell number, and the
// places that stand for them. A column has k + 2 entries, which is written out wherever it is needed, as the clauses write it too.
#[derive(Clone, Copy)]
pub struct Trip {
    pub w: usize,
    pub k: usize,
    pub start: usize,
    pub goal: usize,
    pub from: usize,
    pub to: usize,
}

// ---- the work space

// Entry i of a column of n entries. Columns are numbers: one list is lent for all of them, and `flags_of` steps across columns.
pub fn get(work: &[u32], n: usize, column: usize, i: usize) -> u32
    requires { Inside n work.now column i }
    ensures { result ≡ get_or (column_of n work.now column) i 0 }
{
    work[column * n + i]
}

// Sets entry i of a column.
pub fn put(work: &mut [u32], n: usize, column: usize, i: usize, value: u32)
    requires { Inside n work.old column i }
    ensures { Put n work.old column i value work.new }
{
    work[column * n + i] = value;
}

// ---- cells

// The cell of place i.
pub fn cell_of(roads: &Roads, i: usize) -> usize
    ensures { result ≡ of_places cell_at roads.now i }
{
    let t = &roads.trip;
    if i < t.k {
        usize::from(roads.corners[i])
    } else if i == t.k {
        t.start
    } else {
        t.goal
    }
}

// The octile distance for two offsets as one whole number.
fn weigh(dx: usize, dy: usize) -> u32
    requires { (dx ≤ 254) × (dy ≤ 254) }
    ensures weight { result ≡ weight (octile_of dx dy) }
    ensures bounded { result ≤ 29017722 }
{
    (80782 * dx.abs_diff(dy) + 114243 * dx.min(dy)) as u32
}

// How far two cells are apart.
pub fn leg(w: usize, a: usize, b: usize) -> u32
    requires { TwoCells w a b }
    ensures apart { result ≡ apart w a b }
    ensures bounded { result ≤ 29017722 }
{
    let dx = lengths::apart(a % w, b % w);
    let dy = lengths::apart(a / w, b / w);
    weigh(dx, dy)
}

// The index of a cell in an ascending list of cells, where it is there.
pub fn find(cells: &[u16], cell: usize) -> Option<usize>
    requires { Ascending cells.now }
    ensures { Found cells.now cell result }
{
    let x = u16::try_from(cell).ok()?;
    cells.binary_search(&x).ok()
}

// Writes the index of each corner to its cell's entry of a table.
pub fn index_corners(corners: &[u16], table: &mut [u16])
    requires ascending { Ascending corners.now }
    requires few { length corners.now ≤ 2048 }
    requires small { (i : ℕ) → i < length corners.now → get_or corners.now i 0 < 16384 }
    requires room { 16384 ≤ length table.old }
    ensures indexed { Indexed corners.now table.new }
    ensures sized { length table.new ≡ length table.old }
{
    for (i, corner) in corners.iter().enumerate() {
        let cell = usize::from(*corner);
        table[cell] = i as u16;
    }
}

// ---- links

// The neighbours of corner u.
pub fn neighbours_of<'a>(roads: &Roads<'a>, u: usize) -> &'a [u16]
    requires { u < roads.now.trip.k }
    ensures { NeighboursOf roads.now.starts.now roads.now.neighbours.now u result.now }
{
    let first = usize::from(roads.starts[u]);
    let last = usize::from(roads.starts[u + 1]);
    &roads.neighbours[first..last]
}

// The place where the flag of corner i in the column is set, else none.
fn flagged(work: &[u32], n: usize, column: usize, i: usize, place: usize) -> Option<usize>
    requires { Inside n work.now column i }
    ensures { result ≡ flaggedOf (column_of n work.now column) i place }
{
    (get(work, n, column, i) > 0).then_some(place)
}

// How many links of place u there are to look at: a corner has its neighbours, the start and the goal; start and goal
// have each corner.
pub fn link_count(roads: &Roads, u: usize) -> usize
    ensures { result ≡ count_of roads.now.starts.now roads.now.trip.k u }
{
    if u < roads.trip.k {
        neighbours_of(roads, u).len() + 2
    } else {
        roads.trip.k
    }
}

// The flags that tell of links of a place: `count` of them, the first at entry `at` of the work space, each `apart` entries after the
// one before it. Flag i tells of a link to the place `to` + i.
#[derive(Clone, Copy)]
pub struct Flags {
    pub at: usize,
    pub apart: usize,
    pub to: usize,
    pub count: usize,
}

// The flags of place u: of a corner its own two, for start and goal; of the start and of the goal those of all corners. They are
// told as entries at equal distances, so that who looks through them has nothing to decide at each.
pub fn flags_of(t: Trip, u: usize) -> Flags
    requires { (t.k ≤ 2048) × (u < t.k + 2) }
    ensures { FlagsOf t u result }
{
    let k = t.k;
    let n = k + 2;
    if u < k {
        Flags {
            at: BY_START * n + u,
            apart: n,
            to: k,
            count: 2,
        }
    } else {
        Flags {
            at: (BY_START + u - k) * n,
            apart: 1,
            to: 0,
            count: k,
        }
    }
}

// Link j of corner u: a neighbour, whose index the table tells, or the start, or the goal.
fn corner_link(roads: &Roads, work: &[u32], u: usize, j: usize) -> Option<usize>
    requires ready { on Ready roads.now work.now }
    requires corner { u < roads.now.trip.k }
    ensures { result ≡ corner_link (of chart roads.now work.now) u j }
{
    let k = roads.trip.k;
    let near = neighbours_of(roads, u);
    if j < near.len() {
        let c = usize::from(near[j]);
        Some(usize::from(roads.table[c]))
    } else if j == near.len() {
        flagged(work, k + 2, BY_START, u, k)
    } else {
        flagged(work, k + 2, BY_GOAL, u, k + 1)
    }
}

// Link j of place u: the place that it leads to, or none.
pub fn link_at(roads: &Roads, work: &[u32], u: usize, j: usize) -> Option<usize>
    requires ready { on Ready roads.now work.now }
    requires there { j < link_count (of chart roads.now work.now) u }
    ensures { result ≡ link_at (of chart roads.now work.now) u j }
{
    let k = roads.trip.k;
    if u < k {
        corner_link(roads, work, u, j)
    } else if u == k {
        flagged(work, k + 2, BY_START, j, j)
    } else {
        flagged(work, k + 2, BY_GOAL, j, j)
    }
}
