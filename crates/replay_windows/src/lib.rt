// The recursion over windows, in either replay. The area of a window is at the front of its work slice; each part works in the rest.
#![tactic(auto)]

pub mod list;
pub mod roads;

ghost use Rattle.std.specs.Prelude.{◌≡◌, ◌*◌, ◌+◌, ◌<◌, ◌≤◌, ℕ, List, length, set, take};
ghost use Rattle.theory_timeline.specs.Steps.{Sound};
ghost use Rattle.theory_timeline.specs.Windows.{Timeline, first_part, size};
ghost use Rattle.replay_windows.specs.Descent.{WindowDone, WindowReady, WritesParts};

use replay_step::Window;
use replay_step::reduction::Reduction;

// Internal: what a replay writes of its events, in the tables that it is lent.
pub trait Replies {
    // The replay whose windows they are.
    type By: Reduction;

    // There is an entry for each event before the one of this number.
    ghost long: { ℕ → Self → Type 0 };

    // They are the same tables, with other entries.
    ghost same: { Self → Self → Type 0 };

    // By the share, the replies of the events from a first one on are written, so many, and the graphs of their window and of all below it have so many nodes.
    ghost wrote: { Timeline → ℕ → ℕ → ℕ → Self → Self → ℕ → Type 0 };

    // A window of one event.
    fn one(&mut self, w: Window, p: usize, work: &[u32])
        requires { WindowReady Self.By.reduced Self.By.WORDS Self.By.WINDOW long w p self.old work.now × (w.events ≡ 1) }
        ensures still { same self.old self.new }
        ensures replied { (g : Timeline) → Sound g → w.at < size g → Self.By.reduced g w (take Self.By.WORDS work.now)
            → wrote g p w.at 1 self.old self.new w.nodes };

    // The replies of a window are those of its two parts.
    ghost parts: { WritesParts Self.By.reduced long same wrote };
}

// Internal: the events of the first part of a window of n events.
pub fn first_part(n: usize, p: usize) -> usize
    requires { (n ≤ 4096) × (p ≤ 12) }
    ensures { result ≡ first_part p n }
{
    (n * p / 16).max(1)
}

// Internal: writes the byte of an event.
pub fn put_byte(answers: &mut [u8], event: usize, byte: u8)
    requires { event < length answers.old }
    ensures { answers.new ≡ set answers.old event byte }
{
    answers[event] = byte;
}

// Internal: writes the replies of the window's events: how many nodes the graphs of the window and of all windows below it have.
#[tactic(auto, using(crate::proofs::PartLaws::lent_fits))]
pub fn window<D: Replies>(w: Window, p: usize, replies: &mut D, work: &mut [u32]) -> usize
    requires { WindowReady D.By.reduced D.By.WORDS D.By.WINDOW D.long w p replies.old work.old }
    ensures { WindowDone D.By.reduced D.same D.wrote w p (take (D.By.WORDS * w.events) work.old) replies.old replies.new result }
{
    let n = w.events;
    if n == 1 {
        replies.one(w, p, work);
        return w.nodes;
    }
    let c = first_part(n, p);
    let q = D::By::WORDS * n;
    let a = replay_step::step::<D::By>(w, w.at, c, work);
    let b = window(a, p, replies, &mut work[q..]);
    let d = replay_step::step::<D::By>(w, w.at + c, n - c, work);
    let e = window(d, p, replies, &mut work[q..]);
    w.nodes + b + e
}
