// Masks: 64 neighbouring cells of a row as one word, in which a bit is 1 where the cell has what is asked. Rows are padded: row y of the
// floor is row y + 1 here, and row 0 is outside.
#![tactic(auto)]

ghost use Rattle.std.specs.Prelude.{ℕ, Bool, false, ◌≡◌, ◌&&◌, not, suc, ◌+◌, ◌*◌, ◌<◌, ◌≤◌, length, get_or};
ghost use Rattle.std.proofs.Common.{rules};
ghost use Rattle.floor.specs.Board.{Board, Place, E, W, corner, dir_at, go};
ghost use Rattle.floor.specs.Words.{bit_clear, board};
ghost use Rattle.floor.specs.Lent.{of};
ghost use Rattle.masks.specs.Masks.{bit_set, Mask, Next, Last, nook_test, nook_beside, spot};
ghost use Rattle.masks.specs.Sought.{corner_blocked};

use floor::Floor;

// The bits of `a` moved down by one, with the lowest of `b` on top. This and `last_bits`, and `next` and `last` below, are mirror images:
// shift, edge and bound all differ, so one function for both would be no plainer.
fn next_bits(a: u64, b: u64) -> u64
    ensures { Next a b result }
{
    a >> 1 | b << 63
}

// The bits of `a` moved up by one, with the highest of `b` below.
fn last_bits(a: u64, b: u64) -> u64
    ensures { Last a b result }
{
    a << 1 | b >> 63
}

// Each bit of `a` the other way: 1 where it is 0.
fn flipped(a: u64) -> u64
    ensures { Mask (λ i. not (bit_set a i)) result }
{
    !a
}

// The free cells of word j of a row, which is lent as a part of the floor's words: the bits that are 0.
fn row_mask(row: &[u64], j: usize) -> u64
    requires { j < length row.now }
    ensures { Mask (λ i. bit_clear (get_or row.now j 0) i) result }
{
    flipped(row[j])
}

// The free cells of word j of row y.
fn free_mask(floor: &Floor, y: usize, j: usize) -> u64
    ensures { Mask (λ i. of board floor.now.grid (suc (64 * j + i)) y) result }
{
    if y == 0 || floor.grid.h < y || floor::row_words(floor.grid.w) <= j {
        return 0;
    }
    row_mask(floor.grid.row_of(y - 1), j)
}

// What is looked for in a row: free cells, or turning points. It is a type, so each mask is compiled for what it looks for.
trait Sought {
    // The place of a board has it.
    ghost holds: { Board → Place → Bool };

    // How many rows and words beyond its own a mask of it looks.
    ghost reach: { ℕ };

    // The cells of word j of row y that have it.
    fn mask(floor: &Floor, y: usize, j: usize) -> u64
        requires { (y + reach ≤ usize.MAX) × (j + reach ≤ usize.MAX) }
        ensures { Mask (λ i. holds (of board floor.now.grid) (spot y j i)) result };

    // It looks one row or word beyond its own at most.
    ghost near: { reach ≤ 1 };

    // Nothing outside has it.
    ghost outside: { (B : Board) (y : ℕ) → B 0 y ≡ false → holds B (record { x = 0; y = y }) ≡ false };
}

// Free cells are sought.
struct Free;

impl Sought for Free {
    ghost holds = { λ B p. B p.x p.y };

    ghost reach = { 0 };

    ghost near = { Prim.search rules };

    ghost outside = { λ B y e. e };

    fn mask(floor: &Floor, y: usize, j: usize) -> u64 {
        free_mask(floor, y, j)
    }
}

// The cells one column after those of word j of row y that have what is sought; `here` has those of the word itself.
fn next<S: Sought>(floor: &Floor, y: usize, j: usize, here: u64) -> u64
    requires near { (y + S.reach ≤ usize.MAX) × (j + S.reach < usize.MAX) }
    requires own { Mask (λ i. S.holds (of board floor.now.grid) (spot y j i)) here }
    ensures { Mask (λ i. S.holds (of board floor.now.grid) (go E (spot y j i))) result }
{
    next_bits(here, S::mask(floor, y, j + 1))
}

// The cells one column before those of word j of row y that have what is sought; `here` has those of the word itself.
fn last<S: Sought>(floor: &Floor, y: usize, j: usize, here: u64) -> u64
    requires near { (y + S.reach ≤ usize.MAX) × (j + S.reach ≤ usize.MAX) }
    requires own { Mask (λ i. S.holds (of board floor.now.grid) (spot y j i)) here }
    ensures { Mask (λ i. S.holds (of board floor.now.grid) (go W (spot y j i))) result }
{
    if j == 0 {
        return last_bits(here, 0);
    }
    last_bits(here, S::mask(floor, y, j - 1))
}

// The nooks of 64 cells on one side: `side` has the free cells there, e and w those after and before the cells, be and bw those after and
// before the ones of `side`.
fn nooks(side: u64, e: u64, w: u64, be: u64, bw: u64) -> u64
    ensures { Mask (λ i. nook_test (bit_set side i) (bit_set e i) (bit_set w i) (bit_set be i) (bit_set bw i)) result }
{
    side & ((e & flipped(be)) | (w & flipped(bw)))
}

// The nooks that the cells of word j have in row z, which is next to theirs: e and a have the free cells after and before them in their own
// row.
fn nooks_in(floor: &Floor, z: usize, j: usize, e: u64, a: u64) -> u64
    requires { j < usize.MAX }
    ensures { Mask (λ i. nook_beside (of board floor.now.grid) z (64 * j + i) (bit_set e i) (bit_set a i)) result }
{
    let side = free_mask(floor, z, j);
    let be = next::<Free>(floor, z, j, side);
    nooks(side, e, a, be, last::<Free>(floor, z, j, side))
}

// Turning points are sought.
struct Turning;

impl Sought for Turning {
    ghost holds = { corner };

    ghost reach = { 1 };

    ghost near = { Prim.search rules };

    ghost outside = { λ B y e. corner_blocked B (record { x = 0; y = y }) e };

    #[inline(always)]
    fn mask(floor: &Floor, y: usize, j: usize) -> u64 {
        if y == 0 {
            return 0;
        }
        let here = free_mask(floor, y, j);
        let e = next::<Free>(floor, y, j, here);
        let a = last::<Free>(floor, y, j, here);
        let north = nooks_in(floor, y - 1, j, e, a);
        let south = nooks_in(floor, y + 1, j, e, a);
        here & (north | south)
    }
}

// The turning points of word j of row y. Inlined, as the `Turning::mask` that it calls is: loops over chunks then read the floor's sides once
// (measured).
#[inline(always)]
pub fn corner_mask(floor: &Floor, y: usize, j: usize) -> u64
    requires { (y ≤ 256) × (j ≤ 4) }
    ensures { Mask (λ i. corner (of board floor.now.grid) (spot y j i)) result }
{
    Turning::mask(floor, y, j)
}

// The cells beside those of word j of row y, in the straight direction d, that have what is sought. Directions are numbers, as in document 01.
fn beside<S: Sought>(floor: &Floor, y: usize, j: usize, d: usize) -> u64
    requires { (0 < y) × (y ≤ floor.now.grid.h) × (j < 4) × (d < 4) }
    ensures { Mask (λ i. S.holds (of board floor.now.grid) (go (dir_at d) (spot y j i))) result }
{
    match d {
        0 => S::mask(floor, y - 1, j),
        1 => next::<S>(floor, y, j, S::mask(floor, y, j)),
        2 => S::mask(floor, y + 1, j),
        _ => last::<S>(floor, y, j, S::mask(floor, y, j)),
    }
}

// The cells of word j of row y that are free, and from which a step in the straight direction d leads to a free one.
pub fn step_mask(floor: &Floor, y: usize, j: usize, d: usize) -> u64
    requires { (0 < y) × (y ≤ floor.now.grid.h) × (j < 4) × (d < 4) }
    ensures { Mask (λ i. of board floor.now.grid (spot y j i).x (spot y j i).y
        && of board floor.now.grid (go (dir_at d) (spot y j i)).x (go (dir_at d) (spot y j i)).y) result }
{
    free_mask(floor, y, j) & beside::<Free>(floor, y, j, d)
}

// The cells of word j of row y from which a step in the straight direction d leads to a turning point.
pub fn turn_mask(floor: &Floor, y: usize, j: usize, d: usize) -> u64
    requires { (0 < y) × (y ≤ floor.now.grid.h) × (j < 4) × (d < 4) }
    ensures { Mask (λ i. corner (of board floor.now.grid) (go (dir_at d) (spot y j i))) result }
{
    beside::<Turning>(floor, y, j, d)
}
