// Lengths of walks: pairs (a, b) of straight and diagonal steps, in the order of their values a + b√2.
#![tactic(auto)]

ghost use Rattle.std.specs.Prelude.{◌≡◌, ◌*◌, ltb};
ghost use Rattle.std.proofs.Common.{refl};
ghost use Rattle.std.specs.Cmp.{partial_order_from_agreeing_total};
ghost use Rattle.std.specs.Ordering.{as_partial_cmp};
ghost use Rattle.lengths.specs.Lengths.{pair, compare_of, gap, octile_of, figure_of, len_of};
ghost use Rattle.lengths.specs.Order.{order_of, order_total, order_ties};

use std::cmp::Ordering;

// A length by its counts of straight and of diagonal steps.
#[derive(Clone, Copy, PartialEq, Eq)]
pub struct Length {
    pub straight: u16,
    pub diagonal: u16,
}

// Lengths are ordered by their values, and only the same counts are equal.
impl Ord for Length {
    ghost cmp = { order_of };

    ghost total = { order_total };

    ghost matches_partial_cmp = { λ x y. refl };

    ghost matches_eq = { order_ties };

    fn cmp(&self, other: &Length) -> Ordering {
        compare(*self, *other).cmp(&0)
    }
}

impl PartialOrd for Length {
    ghost partial_cmp = { as_partial_cmp order_of };

    ghost laws = { partial_order_from_agreeing_total order_of order_total (λ x y. refl) order_ties };

    fn partial_cmp(&self, other: &Length) -> Option<Ordering> {
        Some(self.cmp(other))
    }
}

// p straight steps are worth less than q diagonal ones: p² is less than 2q².
fn fewer(p: u16, q: u16) -> bool
    ensures { result ≡ ltb (p * p) (2 * (q * q)) }
{
    let p = u64::from(p);
    let q = u64::from(q);
    p * p < 2 * (q * q)
}

// -1, 0 or 1, as x is less than y, the same or more: the number that docs/PROMISES.md promises, and `cmp` tells it as an Ordering. What
// the one has over the other decides by its signs, or p² against 2q² does.
pub fn compare(x: Length, y: Length) -> i32
    ensures { result ≡ compare_of (len_of x) (len_of y) }
{
    let a = x.straight;
    let b = x.diagonal;
    let c = y.straight;
    let d = y.diagonal;
    if a <= c {
        if b <= d {
            if a == c {
                if b == d {
                    return 0;
                }
            }
            return -1;
        }
        if fewer(c - a, b - d) {
            return 1;
        }
        return -1;
    }
    if d <= b {
        return 1;
    }
    if fewer(a - c, d - b) {
        return -1;
    }
    1
}

// How far apart two columns or rows are: docs/PROMISES.md promises it.
pub fn apart(a: usize, b: usize) -> usize
    ensures { result ≡ gap a b }
{
    a.abs_diff(b)
}

// The octile distance for offsets without sign.
pub fn octile(dx: u16, dy: u16) -> Length
    ensures { len_of result ≡ octile_of dx dy }
{
    Length {
        straight: dx.abs_diff(dy),
        diagonal: dx.min(dy),
    }
}

// The printed figure, also of an answer's counts, which have 32 bits.
pub fn figure(straight: u32, diagonal: u32) -> u64
    ensures { result ≡ figure_of (pair straight diagonal) }
{
    10000 * u64::from(straight) + 14142 * u64::from(diagonal)
}
