// Contractions made by a slow program before any code of the product; they stand on standard input. The first 50 are those of document 02, No. 7: 35 are
// accepted, 12 refused by 2, 2 by 4 and 1 by 8. The other 60 are those of document 01, all accepted; they came without pieces and names, and theirs are from a
// search of their own. A vector is a line of numbers of four digits in base 16, then ; at its end. Ten of the sizes: the nodes, the edges, the active entries
// and zeros; ten of the lengths: of the first and the second ends of the edges, their names, the active entries, the map, the first and the second ends of the
// edges out, their names, the pieces and the work table; ten of the reply: a refusal's number and its place, the nodes, the edges and zeros. Then come the
// first four tables of these lengths; and where it is accepted the map, the first and the second ends of the edges out, their names, and the pieces.
use std::io;
use test_contraction_calls::calls;
use test_library::contractions::{Counts, Graph, Lengths, Reply, Sizes, Small};
use test_library::counts::Count;
use test_library::refusals::Refusal;
use test_library::text::{NumbersFrom, Vectors};
use test_library::{print, refusals, text};

// A graph, the lengths of its tables, and the small graph that is wanted.
#[derive(Drop)]
struct Vector {
    graph: Graph,
    lengths: Lengths,
    want: Small,
}

fn read_sizes(numbers: &mut NumbersFrom) -> Sizes {
    let r = numbers.row();
    Sizes {
        n: r[0],
        m: r[1],
        k: r[2],
    }
}

fn read_lengths(numbers: &mut NumbersFrom) -> Lengths {
    let r = numbers.row();
    Lengths {
        from: r[0],
        to: r[1],
        names: r[2],
        active: r[3],
        map: r[4],
        out_from: r[5],
        out_to: r[6],
        out_names: r[7],
        pieces: r[8],
        work: r[9],
    }
}

fn read_reply(numbers: &mut NumbersFrom) -> Reply {
    let r = numbers.row();
    let refusal = Refusal {
        code: r[0],
        place: r[1],
    };
    let counts = Counts {
        nodes: r[2],
        edges: r[3],
    };
    refusals::read(refusal, counts)
}

fn read_graph(numbers: &mut NumbersFrom, sizes: Sizes, lengths: Lengths) -> Graph {
    let mut g = Graph::filled(sizes, 65000);
    numbers.copy(&mut g.edges.from, lengths.from);
    numbers.copy(&mut g.edges.to, lengths.to);
    numbers.copy(&mut g.names, lengths.names);
    numbers.copy(&mut g.active, lengths.active);
    g
}

// What is wanted, of k active entries.
fn read_small(numbers: &mut NumbersFrom, reply: Reply, k: usize) -> Small {
    let mut small = Small::empty(reply);
    if let Ok(counts) = reply {
        numbers.copy(&mut small.map, k);
        numbers.copy(&mut small.edges.from, counts.edges);
        numbers.copy(&mut small.edges.to, counts.edges);
        numbers.copy(&mut small.names, counts.edges);
        numbers.copy(&mut small.pieces, k);
    }
    small
}

fn read(mut numbers: NumbersFrom) -> Vector {
    let sizes = read_sizes(&mut numbers);
    let lengths = read_lengths(&mut numbers);
    let reply = read_reply(&mut numbers);
    let graph = read_graph(&mut numbers, sizes, lengths);
    let want = read_small(&mut numbers, reply, sizes.k);
    Vector {
        graph,
        lengths,
        want,
    }
}

// How many vectors there are, how many are accepted, how many of them the call does not give, and on how many the slow contraction differs from the call.
#[derive(Clone, Copy, Default)]
struct Compared {
    vectors: Count,
    accepted: Count,
    wrong: Count,
    slow_differs: Count,
}

impl Compared {
    fn add(&mut self, vector: &Vector) {
        let Vector {
            graph,
            lengths,
            want,
        } = vector;
        let slow = calls::slow_of_32(graph, *lengths);
        let is_right = calls::run(graph, *lengths, want).agrees(want.reply);
        let is_slow_right = calls::run(graph, *lengths, &slow).agrees(slow.reply);
        self.vectors.add(1);
        self.accepted
            .add_if(refusals::printed(&want.reply).code == 0);
        self.wrong.add_if(!is_right);
        self.slow_differs.add_if(!is_slow_right);
    }
}

// Reads the vectors, the first 120, and runs them.
pub(crate) fn report(rt: &(impl Input + Print)) -> io::Result<()> {
    let mut text = [0; 65536];
    let length = text::read(rt, &mut text)?;
    let mut vectors = Vectors::new(&text, length);
    let mut compared = Compared::default();
    for _ in 0..120 {
        let Some(vector) = vectors.next() else {
            break;
        };
        compared.add(&read(NumbersFrom::new(&text, vector.start)));
    }
    let rows = [
        ("vectors", compared.vectors),
        ("accepted", compared.accepted),
        ("wrong", compared.wrong),
        (
            "on which the slow contraction differs from the call",
            compared.slow_differs,
        ),
    ];
    print::counts(rt, &rows)
}
