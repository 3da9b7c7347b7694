// Makes the area of a part out of a graph that is loaded: reduces it to blocks and cycles, and writes the part's places, the words of its events and its edges.
ghost use Rattle.junction_step.specs.JunctionArea.{JunctionAreaMade, JunctionMakeReady};

// Internal: reduces the graph that is loaded behind the part's area, and writes the area: the nodes and the edges that it has then. An edge's name is never
// read; its first end stands for it.
pub fn make_area(
    part: replay_step::Part,
    l: replay_step::Graph,
    work: &mut [u32],
) -> core_reduce::Counts
    requires { JunctionMakeReady part l work.old }
    ensures { JunctionAreaMade part l work.old work.new result }
{
    let q = part.area;
    let c = part.events;
    let s = part.scratch;
    let n = l.nodes;
    let m = l.edges;
    let from = s + 16 * n + 6 * m;
    let r = core_block_reduce::reduce(&mut work[s..], n, m, l.active);
    replay_step::area::put_map(work, part.places, 2 * c, s, q, n);
    work.copy_within(part.words..part.words + 3 * c, q + 2 * c);
    // The two ends of an edge out stand three words apart, those of the next edge six words further on.
    replay_step::area::put_every(work, from, 6, r.edges, q + 5 * c);
    replay_step::area::put_every(work, from + 3, 6, r.edges, q + 13 * c);
    replay_step::area::put_every(work, from, 6, r.edges, q + 21 * c);
    r
}
