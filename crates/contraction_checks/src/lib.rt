// The faults of an input, in document 01's order: sizes, lengths, ends of edges, active entries.
#![tactic(auto)]

ghost use Rattle.std.specs.Prelude.{◌≡◌, ◌≤◌, [], ◌∷◌, length, ltb, nat_le, position};
ghost use Rattle.call_sizes.specs.Numbers.{refused_by};
ghost use Rattle.call_sizes.specs.Refusal.{first_fault, row, seek};
ghost use Rattle.theory_contraction.specs.Contraction.{bad_entry, fault, required};
ghost use Rattle.contraction_checks.specs.Checks.{lent_graph};

use call_sizes::{Refusal, Sizes};

// Internal: the graph that a contraction is lent. It has n nodes and m edges, edge s between from[s] and to[s] with the name names[s], and the first k entries
// of active are its active nodes.
#[derive(Clone, Copy)]
pub struct Graph<'a> {
    pub n: usize,
    pub m: usize,
    pub k: usize,
    pub from: &'a [u16],
    pub to: &'a [u16],
    pub names: &'a [u16],
    pub active: &'a [u16],
}

// Internal: the words that a contraction of n nodes and m edges needs.
pub fn required(n: usize, m: usize) -> usize
    requires { (n ≤ 4096) × (m ≤ 8192) }
    ensures { result ≡ required n m }
{
    16 * n + 8 * m + 512
}

// The first active entry that is not below n.
fn first_bad_entry(n: usize, active: &[u16]) -> Option<usize>
    ensures { result ≡ position (λ entry. nat_le n entry) active.now }
{
    active.iter().position(|&entry| n <= entry as usize)
}

// Refusal 8, at the first of k active entries that is not below n.
fn check_entries(n: usize, k: usize, active: &[u16]) -> Result<(), Refusal>
    requires { k ≤ length active.now }
    ensures { let i = seek (bad_entry n active.now) 0 k in refused_by result ≡ first_fault (row (ltb i k) 8 i ∷ []) }
{
    match first_bad_entry(n, &active[..k]) {
        Some(i) => Err(Refusal::Entry(i)),
        None => Ok(()),
    }
}

// Internal: the first fault of a call that is lent this graph, and these tables to write.
pub fn check(
    graph: Graph,
    map: &[u16],
    out_from: &[u16],
    out_to: &[u16],
    out_names: &[u16],
    pieces: &[u16],
    work: &[u32],
) -> Result<(), Refusal>
    ensures { refused_by result ≡ fault (lent_graph graph.entry map.now out_from.now out_to.now out_names.now pieces.now work.now) }
{
    let Graph {
        n,
        m,
        k,
        from,
        to,
        names,
        active,
    } = graph;
    Sizes::check(n, m, 0, k)?;
    let lengths = [
        (from.len(), m),
        (to.len(), m),
        (names.len(), m),
        (active.len(), k),
        (map.len(), k),
        (out_from.len(), 2 * k),
        (out_to.len(), 2 * k),
        (out_names.len(), 2 * k),
        (pieces.len(), k),
        (work.len(), required(n, m)),
    ];
    call_sizes::check_pairs(&lengths, Refusal::ShortTable)?;
    call_sizes::check_ends(n, m, from, to)?;
    check_entries(n, k, active)
}
