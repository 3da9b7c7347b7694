// A list without a fault: its events and roads into words, the whole list's graph, the windows.
ghost use Rattle.std.specs.Prelude.{length};
ghost use Rattle.replay_events.specs.Writing.{list_of};
ghost use Rattle.replay_windows.specs.List.{ListReadyBy, ListRepliedBy};

use crate::Replies;

// Internal: writes the replies of the list, each table being as long as its size says: how many nodes the graphs of all its windows have.
pub fn replay_list<D: Replies>(
    n: usize,
    p: usize,
    a: &[u16],
    b: &[u16],
    start: &[u16],
    x: &[u16],
    y: &[u16],
    replies: &mut D,
    work: &mut [u32],
) -> usize
    requires { ListReadyBy D.By.WORDS D.By.WINDOW D.By.room D.long n p a.now b.now start.now x.now y.now replies.old work.old }
    ensures { ListRepliedBy D.same D.wrote (list_of n a.now b.now start.now x.now y.now) p (length x.now) replies.old replies.new result }
{
    let t = x.len();
    if t == 0 {
        return 0;
    }
    let m = a.len();
    replay_events::write_events(n, a, b, start, x, y, work);
    // Behind the events' 5 t words stand the names of the roads, m words, then their counts.
    let counts = 5 * t + m;
    let area = counts + m;
    let w = replay_start::whole::<D::By>(n, t, a, b, counts, area, work);
    crate::window(w, p, replies, &mut work[area..])
}
