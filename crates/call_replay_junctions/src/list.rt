// A list without a fault, with the table that it writes.
ghost use Rattle.call_replay_junctions.specs.JunctionList.{JunctionListReady, JunctionListReplied};

use junction_windows::JunctionReplies;

// The windows of the list, each table being as long as its size says: the bytes of its events.
pub(crate) fn replay_list(
    n: usize,
    p: usize,
    a: &[u16],
    b: &[u16],
    start: &[u16],
    x: &[u16],
    y: &[u16],
    answers: &mut [u8],
    work: &mut [u32],
)
    requires { JunctionListReady n p a.now b.now start.now x.now y.now answers.old work.old }
    ensures { JunctionListReplied n a.now b.now start.now x.now y.now
        answers.old answers.new }
{
    let mut replies = JunctionReplies { answers };
    // How many nodes the graphs of its windows have is no part of the sibling's reply.
    replay_windows::list::replay_list(n, p, a, b, start, x, y, &mut replies, work);
}
