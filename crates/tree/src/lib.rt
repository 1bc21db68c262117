// A tree of keys, to find the least: node i holds the less of what nodes 2 i and 2 i + 1 hold, and node n + p is leaf p.
// A key is a label, a cell and a place in one number, so that the least key is the place that comes first. Each store
// goes to one node and each comparison is of two numbers, so there is nothing to look up on the way.
#![tactic(auto)]

ghost use Rattle.std.specs.Prelude.{◌≡◌, ◌+◌, ◌≤◌, ◌<◌, get_or};
ghost use Rattle.tree.specs.Keys.{key_of, nobody, Keyed, Changed};

// What the leaf of nobody holds: no key has these last twelve bits, since no place has this number.
pub const NOBODY: u64 = u64::MAX;

// The key of a place: its label, its cell and its own number, in 58 bits.
pub fn key(label: u32, cell: usize, place: usize) -> u64
    requires { (cell < 16384) × (place < 4096) }
    ensures is { result ≡ key_of label cell place }
    ensures fits { result ≤ nobody }
{
    u64::from(label) * 67108864 + (cell * 4096 + place) as u64
}

// Leaf p gets a key that is no more than what it held: it goes up until a node holds no more. Each turn halves the node's number, so
// no range has the nodes passed.
pub fn climb(tree: &mut [u64], n: usize, p: usize, key: u64)
    requires keyed { Keyed n tree.old }
    requires inside { (p < n) × (n ≤ 65536) }
    requires lower { key ≤ get_or tree.old (n + p) 0 }
    ensures { Changed n tree.old p key tree.new }
{
    let mut i = n + p;
    tree[i] = key;
    while 1 < i {
        i /= 2;
        if tree[i] <= key {
            return;
        }
        tree[i] = key;
    }
}

// Leaf p holds nobody from now on: each node above it gets the less of its children, up to the top as in `climb`.
pub fn empty(tree: &mut [u64], n: usize, p: usize)
    requires keyed { Keyed n tree.old }
    requires inside { (p < n) × (n ≤ 65536) }
    ensures { Changed n tree.old p nobody tree.new }
{
    let mut i = n + p;
    let mut best = NOBODY;
    tree[i] = best;
    while 1 < i {
        best = best.min(tree[i + 1 - 2 * (i % 2)]);
        i /= 2;
        tree[i] = best;
    }
}
