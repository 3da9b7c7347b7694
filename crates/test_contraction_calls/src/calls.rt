// Calls of contract.
use test_library::calls;
use test_library::calls::Lending;
use test_library::contractions::{Contracted, Counts, Graph, Lengths, Reply, Sizes, Small, Wrong};
use test_library::refusals::Refusal;
use test_slow_contraction::contraction;

// The tables that a call may write.
#[derive(Drop)]
struct Written<'a> {
    map: &'a mut [u16],
    from: &'a mut [u16],
    to: &'a mut [u16],
    names: &'a mut [u16],
    pieces: &'a mut [u16],
    work: &'a mut [u32],
}

fn plain(reply: Result<call_contract::Counts, call_contract::Refusal>) -> Reply {
    match reply {
        Ok(counts) => Ok(Counts {
            nodes: counts.nodes,
            edges: counts.edges,
        }),
        Err(refusal) => Err(Refusal {
            code: refusal.code(),
            place: refusal.place(),
        }),
    }
}

impl<'a> Written<'a> {
    // The call with tables of these lengths.
    fn call(&mut self, g: &Graph, lengths: Lengths) -> Reply {
        plain(call_contract::contract(
            g.sizes.n,
            g.sizes.m,
            g.sizes.k,
            calls::first(&g.edges.from, lengths.from),
            calls::first(&g.edges.to, lengths.to),
            calls::first(&g.names, lengths.names),
            calls::first(&g.active, lengths.active),
            calls::first_mut(self.map, lengths.map),
            calls::first_mut(self.from, lengths.out_from),
            calls::first_mut(self.to, lengths.out_to),
            calls::first_mut(self.names, lengths.out_names),
            calls::first_mut(self.pieces, lengths.pieces),
            calls::first_mut(self.work, lengths.work),
        ))
    }

    // How many entries are wrong. Eight behind those that may be written are compared too.
    fn wrong(&self, sizes: Sizes, reply: Reply, want: &Small) -> Wrong {
        let words = contraction::required(sizes);
        let (entries, edges, cleared) = match reply {
            Ok(counts) => (sizes.k, counts.edges, words),
            Err(_) => (0, 0, 0),
        };
        let all = sizes.k.saturating_add(8);
        let ends = sizes.k.saturating_add(all);
        let near = calls::entries_wrong(self.from, &want.edges.from, edges, ends);
        let far = calls::entries_wrong(self.to, &want.edges.to, edges, ends);
        Wrong {
            map: calls::entries_wrong(self.map, &want.map, entries, all),
            ends: near.saturating_add(far),
            names: calls::entries_wrong(self.names, &want.names, edges, ends),
            pieces: calls::entries_wrong(self.pieces, &want.pieces, entries, all),
            work: calls::words_wrong(self.work, cleared, words.saturating_add(8)),
        }
    }
}

// Internal: the lengths of the tables that a graph is lent.
pub fn lengths(sizes: Sizes, lending: Lending) -> Lengths {
    Lengths::new(sizes, contraction::required(sizes), lending)
}

// Internal: what the slow contraction makes of a graph whose tables have these lengths.
pub fn slow(g: &Graph, lengths: Lengths) -> Small {
    contraction::reply(g, lengths)
}

// Internal: the same where there are at most 32 nodes: those with other numbers get no edges.
pub fn slow_of_32(g: &Graph, lengths: Lengths) -> Small {
    contraction::reply_of_32(g, lengths)
}

// Internal: the outcome of the call on a graph whose tables have these lengths, given the small graph that is wanted.
pub fn run(g: &Graph, lengths: Lengths, want: &Small) -> Contracted {
    let before = u16::from(calls::BEFORE);
    let mut written = Written {
        map: &mut [before; 16400],
        from: &mut [before; 16400],
        to: &mut [before; 16400],
        names: &mut [before; 16400],
        pieces: &mut [before; 16400],
        work: &mut [u32::from(before); 131616],
    };
    let reply = written.call(g, lengths);
    Contracted {
        reply,
        wrong: written.wrong(g.sizes, reply, want),
    }
}
