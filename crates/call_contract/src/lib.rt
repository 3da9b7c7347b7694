// The contraction as a public call: the checks in document 01's order, the graph loaded into words, its contraction, and the reply's tables filled.
#![tactic(auto)]

ghost use Rattle.std.specs.Prelude.{◌≡◌};
ghost use Rattle.theory_contraction.specs.Contraction.{Faultless, done, contraction, lent};
ghost use Rattle.contraction_checks.specs.Checks.{lent_graph};
ghost use Rattle.call_contract.specs.Reply.{outcome};

use contraction_checks::Graph;
use core_words::*;

// What a contraction returns, and what it is refused by, for callers who rest on this crate alone.
pub use call_sizes::Refusal;
pub use core_reduce::Counts;

// The contraction where nothing is refused.
fn contracted(
    graph: Graph,
    map: &mut [u16],
    out_from: &mut [u16],
    out_to: &mut [u16],
    out_names: &mut [u16],
    pieces: &mut [u16],
    work: &mut [u32],
) -> Counts
    requires { Faultless (lent_graph graph map.old out_from.old out_to.old out_names.old pieces.old work.old) }
    ensures { outcome (Ok result) map.new out_from.new out_to.new out_names.new pieces.new work.new
        ≡ done (lent_graph graph.entry map.old out_from.old out_to.old out_names.old pieces.old work.old) }
{
    let Graph {
        n,
        m,
        k,
        from,
        to,
        names,
        active,
    } = graph;
    let d = contraction_tables::load(work, n, m, k, from, to, names, active);
    let small = core_reduce::reduce(work, n, m, d);
    contraction_tables::fill_map(work, n, k, active, map);
    contraction_tables::fill_ends(work, small.edges, LOWER, out_from);
    contraction_tables::fill_ends(work, small.edges, UPPER, out_to);
    contraction_tables::fill_ends(work, small.edges, NAMED, out_names);
    contraction_tables::fill_pieces(work, n, k, active, pieces);
    core_words::clear(work, contraction_checks::required(n, m));
    small
}

// Contracts the graph of n nodes and m edges, edge s between from[s] and to[s] with the name names[s], to its first k active entries.
// The contraction's nodes and edges: map holds the new number of each entry, out_from and out_to the edges and out_names their names, pieces the number of each
// entry's connected piece, and work is 0 over its required length. Else why it is refused, and each table is as it was.
// Kept: the public call is lent these thirteen one by one, as docs/integrate.md promises.
pub fn contract(
    n: usize,
    m: usize,
    k: usize,
    from: &[u16],
    to: &[u16],
    names: &[u16],
    active: &[u16],
    map: &mut [u16],
    out_from: &mut [u16],
    out_to: &mut [u16],
    out_names: &mut [u16],
    pieces: &mut [u16],
    work: &mut [u32],
) -> Result<Counts, Refusal>
    ensures { outcome result map.new out_from.new out_to.new out_names.new
        pieces.new work.new ≡ contraction (lent n m k from.now to.now names.now active.now
        map.old out_from.old out_to.old out_names.old pieces.old work.old) }
{
    let graph = Graph {
        n,
        m,
        k,
        from,
        to,
        names,
        active,
    };
    contraction_checks::check(graph, map, out_from, out_to, out_names, pieces, work)?;
    Ok(contracted(graph, map, out_from, out_to, out_names, pieces, work))
}
