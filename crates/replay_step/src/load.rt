// Loads the contraction's words, which stand behind the areas of a window and its part: the active nodes, and the edges of the window's graph.
ghost use Rattle.std.specs.Prelude.{◌+◌, ◌*◌, ◌<◌, drop};
ghost use Rattle.core_loading.specs.Loading.{Unmarked};
ghost use Rattle.replay_step.specs.Load.{ActiveReady, Actives, Copied, EdgesReady};

// Enters the nodes that stand at the `count` words from `from` on, where none is entered yet.
pub(crate) fn enter_all(work: &mut [u32], from: usize, count: usize, s: usize, n: usize) -> usize
    requires { ActiveReady from count s n work.old × Unmarked n (drop s work.old) }
    ensures { Actives from count s n work.old work.new result }
{
    let mut k: usize = 0;
    // The k nodes that are entered are those of the first i words, each once.
    for i in 0..count {
        let v = work[from + i] as usize;
        k = core_loading::enter(&mut work[s..], n, k, v);
    }
    k
}

// Internal: enters the nodes that stand at the `count` words from `from` on as the active ones.
pub fn enter_places(work: &mut [u32], from: usize, count: usize, s: usize, n: usize) -> usize
    requires { ActiveReady from count s n work.old }
    ensures { Actives from count s n work.old work.new result }
{
    core_words::clear_field(&mut work[s..], n, core_words::MARK, n);
    enter_all(work, from, count, s, n)
}

// Copies m edges into the words from s on: their smaller ends stand from `from` on, their larger ends from q words further on, their names again q words further.
pub(crate) fn copy_edges(work: &mut [u32], from: usize, q: usize, m: usize, s: usize, n: usize)
    requires { EdgesReady from q m s n work.old }
    ensures { Copied from q m s n work.old work.new }
{
    // The first j edges are loaded; the front and the nodes' fields are as they were.
    for j in 0..m {
        let a = work[from + j] as usize;
        let b = work[from + q + j] as usize;
        let c = work[from + 2 * q + j] as usize;
        core_loading::put_edge(&mut work[s..], n, j, a, b, c);
    }
}
