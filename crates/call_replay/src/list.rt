// A list without a fault, with the tables that it writes.
ghost use Rattle.replay_windows.specs.Descent.{written};
ghost use Rattle.call_replay.specs.List.{ListReady, ListReplied};

use replay_windows::roads::RoadReplies;

// The windows of the list, each table being as long as its size says: the bytes and the names of its events, and kept.
pub(crate) fn replay_list(
    n: usize,
    p: usize,
    a: &[u16],
    b: &[u16],
    start: &[u16],
    x: &[u16],
    y: &[u16],
    answers: &mut [u8],
    names: &mut [u16],
    work: &mut [u32],
) -> usize
    requires { ListReady n p a.now b.now start.now x.now y.now answers.old names.old work.old }
    ensures { ListReplied n p a.now b.now start.now x.now y.now
        (written answers.old names.old) (written answers.new names.new) result }
{
    let mut replies = RoadReplies { answers, names };
    replay_windows::list::replay_list(n, p, a, b, start, x, y, &mut replies, work)
}
