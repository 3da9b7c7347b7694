// The lent 16-bit tables put into the words that the contraction takes, and its result read back into them.
#![tactic(auto)]

ghost use Rattle.std.specs.Prelude.{◌≡◌, ℕ, ◌+◌, ◌*◌, ◌<◌, ◌≤◌, length, get_or, take};
ghost use Rattle.core_words.specs.Fields.{MAPPED, MARK, node};
ghost use Rattle.contraction_tables.specs.Transfer.{Entries, Edges, Loadable, Prepared, CanNumber, TreesNumbered};
ghost use Rattle.theory_graph.specs.Lists.{table, over};

use core_words::*;

// Enters the first k active entries; the count of different active nodes.
// Kept: n, k, `active` and the words travel as they come: a struct of them is no plainer, since each public function would build it for one call.
fn enter_active(work: &mut [u32], n: usize, k: usize, active: &[u16]) -> usize
    requires { (n ≤ 65536) × (16 * n ≤ length work.old) × (k ≤ length active.now)
        × ((i : ℕ) → i < k → get_or active.now i 0 < n) × ((v : ℕ) → v < n → node MARK work.old v ≡ 0) }
    ensures { Entries n (take k active.now) work.old work.new result }
{
    let mut d: usize = 0;
    // The entries before v are entered, and d is how many different nodes they are.
    for &v in &active[..k] {
        d = core_loading::enter(work, n, d, v as usize);
    }
    d
}

// Puts the first m edges, with their names, into the half-edges.
fn put_edges(work: &mut [u32], n: usize, m: usize, from: &[u16], to: &[u16], names: &[u16])
    requires { (n ≤ 65536) × (m ≤ 32768) × (16 * n + 6 * m ≤ length work.old)
        × (m ≤ length from.now) × (m ≤ length to.now) × (m ≤ length names.now) }
    ensures { Edges n m from.now to.now names.now work.old work.new m }
{
    // The first s edges stand in the half-edges, with their names.
    // Kept: no plainer by a chain, which would be `for (s, ((&a, &b), &name)) in from[..m].iter().zip(to).zip(names).enumerate()`.
    for s in 0..m {
        core_loading::put_edge(
            work,
            n,
            s,
            from[s] as usize,
            to[s] as usize,
            names[s] as usize,
        );
    }
}

// Internal: loads the graph into the words that the contraction takes; the count of different active nodes.
pub fn load(
    work: &mut [u32],
    n: usize,
    m: usize,
    k: usize,
    from: &[u16],
    to: &[u16],
    names: &[u16],
    active: &[u16],
) -> usize
    requires { Loadable n m k from.now to.now names.now active.now work.old }
    ensures { Prepared n m k from.now to.now names.now active.now
        work.old work.new result }
{
    core_words::clear_field(work, n, core_words::MARK, n);
    let d = enter_active(work, n, k, active);
    put_edges(work, n, m, from, to, names);
    d
}

// Internal: the new numbers of the first k active entries.
pub fn fill_map(work: &[u32], n: usize, k: usize, active: &[u16], map: &mut [u16])
    requires { (16 * n ≤ length work.now) × (k ≤ length active.now) × (k ≤ length map.old)
        × ((i : ℕ) → i < k → (get_or active.now i 0 < n) × (node MAPPED work.now (get_or active.now i 0) < 65536)) }
    ensures { map.new ≡ over (table (λ i. node MAPPED work.now (get_or active.now i 0)) 0 k) map.old }
{
    // The first i entries of the map are written, and the others are as they were.
    // Kept: tried over `map[..k].iter_mut().zip(..)` and the proof did not close: no invariant can name there what the map holds.
    for (i, &v) in active[..k].iter().enumerate() {
        map[i] = core_words::get(work, v as usize, MAPPED) as u16;
    }
}

// Internal: field j of the first e nodes: an end of each edge, or its name.
pub fn fill_ends(work: &[u32], e: usize, j: usize, out: &mut [u16])
    requires { (16 * e ≤ length work.now) × (e ≤ length out.old) × (j < 16) × ((i : ℕ) → i < e → node j work.now i < 65536) }
    ensures { out.new ≡ over (table (node j work.now) 0 e) out.old }
{
    // The first i entries are written, and the others are as they were.
    for (i, entry) in out[..e].iter_mut().enumerate() {
        *entry = core_words::get(work, i, j) as u16;
    }
}

// The trees of the forest that the first k active entries lie in, numbered as the entries meet them. Where no node is marked, a tree's root is entered as an
// active node is, so that its mark is one more than the number of its tree.
fn number_trees(work: &mut [u32], n: usize, k: usize, active: &[u16], pieces: &mut [u16])
    requires { CanNumber n k active.now pieces.old work.old × ((v : ℕ) → v < n → node MARK work.old v ≡ 0) }
    ensures { TreesNumbered n k active.now work.old work.new pieces.old pieces.new }
{
    let mut trees: usize = 0;
    // The first j entries have their pieces, and `trees` is how many trees they lie in: the roots of these are marked by their numbers.
    for (j, &v) in active[..k].iter().enumerate() {
        let r = core_words::get(work, v as usize, ROOT);
        trees = core_loading::enter(work, n, trees, r);
        let x = core_words::get(work, r, MARK);
        pieces[j] = (x - 1) as u16;
    }
}

// Internal: the numbers of the pieces of the first k active entries. The forest began a tree at each active node that it had not seen, in the order of the
// list, so that the pieces are its trees in the order in which the entries meet them.
pub fn fill_pieces(work: &mut [u32], n: usize, k: usize, active: &[u16], pieces: &mut [u16])
    requires { CanNumber n k active.now pieces.old work.old }
    ensures { TreesNumbered n k active.now work.old work.new pieces.old pieces.new }
{
    core_words::clear_field(work, n, MARK, n);
    number_trees(work, n, k, active, pieces);
}
