// Makes the area of a part out of a graph that is loaded: contracts it, and writes the part's places, the words of its events and its edges with their names.
ghost use Rattle.std.specs.Prelude.{◌≡◌, map, ℕ, ◌+◌, ◌*◌, ◌<◌, ◌≤◌, length, get_or, take, drop};
ghost use Rattle.std.proofs.lemmas.List.Edits.{sets};
ghost use Rattle.theory_graph.specs.Lists.{table};
ghost use Rattle.core_words.specs.Fields.{MAPPED, node};
ghost use Rattle.replay_step.specs.Load.{AreaMade, Behind, MakeReady};

// Internal: writes the new numbers of the nodes at the `count` words from `from` on, at q.
// Kept: the new form is no plainer: as one function with put_every it takes a closure that reads `work` while it is written, and a clause on what it reads.
pub fn put_map(work: &mut [u32], from: usize, count: usize, s: usize, q: usize, n: usize)
    requires { (from + count ≤ q) × (q + count ≤ s) × (s + 16 * n ≤ length work.old) ×
        ((i : ℕ) → i < count → get_or work.old (from + i) 0 < n) }
    ensures { work.new ≡ sets work.old q
        (map (node MAPPED (drop s work.old)) (take count (drop from work.old))) }
{
    // The first i numbers are written; before and behind them nothing has changed.
    for i in 0..count {
        let v = work[from + i] as usize;
        work[q + i] = work[s + 16 * v + core_words::MAPPED];
    }
}

// Internal: writes every `step`-th word from `from` on, `count` of them, at q.
pub fn put_every(work: &mut [u32], from: usize, step: usize, count: usize, q: usize)
    requires { (q + count ≤ from) × ((i : ℕ) → i < count → from + step * i < length work.old) }
    ensures { work.new ≡ sets work.old q (table (λ i. get_or work.old (from + step * i) 0) 0 count) }
{
    // The first i words are written.
    for i in 0..count {
        work[q + i] = work[from + step * i];
    }
}

// Internal: contracts the graph that is loaded behind the part's area, and writes the area: the nodes and the edges that it has then.
pub fn make_area(part: crate::Part, l: crate::Graph, work: &mut [u32]) -> core_reduce::Counts
    requires { MakeReady part l work.old × Behind part }
    ensures { AreaMade part l work.old work.new result }
{
    let q = part.area;
    let c = part.events;
    let names = q + 13 * c;
    let s = part.scratch;
    let n = l.nodes;
    let r = core_reduce::reduce(&mut work[s..], n, l.edges, l.active);
    put_map(work, part.places, 2 * c, s, q, n);
    work.copy_within(part.words..part.words + 3 * c, q + 2 * c);
    put_every(work, s + core_words::LOWER, 16, r.edges, q + 5 * c);
    put_every(work, s + core_words::UPPER, 16, r.edges, q + 9 * c);
    put_every(work, s + core_words::NAMED, 16, r.edges, names);
    r
}
