// Random graphs of at most 12 nodes, 16 edges and 9 active entries, of several kinds, with names on their edges; and graphs with a fault.
use crate::networks;
use crate::networks::{Kind, Network};
use test_library::calls::Lending;
use test_library::contractions::{Graph, Sizes};
use test_library::{random, tables};

fn nodes(kind: Kind, s: usize) -> usize {
    match kind {
        Kind::CentresInRow | Kind::CentresInRing => 7 + random::at(s, 3, 0, 6) % 6,
        _ => 1 + random::at(s, 3, 0, 12) % 12,
    }
}

// A tree has fewer edges than nodes, and where leaves hang from three centres, each leaf hangs once.
fn edges(kind: Kind, s: usize, n: usize) -> usize {
    match kind {
        Kind::Tree => random::at(s, 4, 0, n),
        Kind::CentresInRow => n.saturating_sub(1),
        Kind::CentresInRing => n,
        _ => random::at(s, 4, 0, 17),
    }
}

// Active entry i: each node of a path in turn; where there are centres, a leaf, so that a class without an active node is kept.
fn entry(network: &Network, i: usize) -> usize {
    let s = network.seed;
    let n = network.places;
    match network.kind {
        Kind::CentresInRow | Kind::CentresInRing => {
            3 + random::at(s, 2, i, n.saturating_sub(3)) % 16
        }
        Kind::Path => network.end(i, 0),
        _ => random::at(s, 2, i, n),
    }
}

// The name of edge i: in turn one of few, so that several edges have the same, any number, or one of the largest, 65535 among them.
fn name(s: usize, i: usize) -> usize {
    let low = random::at(s, 25, i, 256) % 256;
    match s / 8 % 3 {
        0 => low % 4,
        1 => random::at(s, 26, i, 256) % 256 * 256 + low,
        _ => 65532 + low % 4,
    }
}

// The graph of a kind and a seed with these sizes.
fn sized(kind: Kind, seed: usize, sizes: Sizes) -> Graph {
    let network = Network {
        kind,
        seed,
        segments: sizes.m,
        places: sizes.n,
        roads: None,
    };
    let mut g = Graph::filled(sizes, 65000);
    network.make_ends(&mut g.edges);
    for i in 0..sizes.m {
        tables::set(&mut g.names, i, name(seed, i));
    }
    for i in 0..sizes.k {
        tables::set(&mut g.active, i, entry(&network, i));
    }
    g
}

// Puts an end or an entry that is no node into the graph, or both.
fn spoil(g: &mut Graph, s: usize) {
    let n = g.sizes.n;
    let what = random::at(s, 8, 0, 4);
    if what < 3 {
        networks::spoil(&mut g.edges, s, n);
    }
    if what > 1 {
        tables::set(&mut g.active, random::at(s, 9, 0, 9), n);
    }
}

// Internal: the random graph s, of each kind but the last in turn, and every ninth with a fault.
pub fn make(s: usize) -> Graph {
    let kind = Kind::nth(s % 8);
    let n = nodes(kind, s);
    let sizes = Sizes {
        n,
        m: edges(kind, s, n),
        k: random::at(s, 5, 0, 10),
    };
    let mut g = sized(kind, s, sizes);
    if s % 9 == 8 {
        spoil(&mut g, s);
    }
    g
}

// Internal: how the random graph s is lent: of some of those with a fault one table is one entry short, else all are longer.
pub fn lending(s: usize) -> Lending {
    if s % 9 == 8 && random::at(s, 20, 0, 4) == 0 {
        return Lending {
            longer: false,
            short: Some(1 + random::at(s, 21, 0, 10) % 10),
            long: None,
        };
    }
    Lending::longer()
}

// Internal: the path with these sizes: each node in turn is active. Names are any numbers.
pub fn path(sizes: Sizes) -> Graph {
    sized(Kind::Path, 8, sizes)
}
