// Loads the edges of the events beside a part of a window: of each road that the window names, the part does not, and that is open before the part, just
// once.
ghost use Rattle.std.specs.Prelude.{◌≡◌, ◌+◌, ◌*◌, ◌<◌, ◌≤◌, get_or, length};
ghost use Rattle.theory_timeline.specs.Tags.{adds};
ghost use Rattle.replay_step.specs.Area.{span};
ghost use Rattle.replay_step.specs.Load.{AddReady, Added, adds_in};

use crate::tag::Tag;

// Whether event e of the window, beside the part, adds its key, by its three words.
pub(crate) fn adds_key(
    w: crate::Window,
    part: crate::Part,
    e: usize,
    tag: Tag,
    next: usize,
    last: usize,
) -> bool
    requires { part.at + part.events ≤ 4096 }
    ensures { result ≡ adds (span w) (part.at, part.events) e tag.word next last }
{
    if tag.word == 0 {
        return false;
    }
    if e < part.at {
        if next < part.at + part.events {
            return false;
        }
        return tag.is_open_after();
    }
    if w.at < last {
        return false;
    }
    tag.was_open()
}

// Whether event i of the window does, by its words in the area.
pub(crate) fn event_adds(w: crate::Window, part: crate::Part, i: usize, work: &[u32]) -> bool
    requires { (i < w.events) × (w.at + w.events ≤ 4096) × (part.at + part.events ≤ 4096) × (5 * w.events ≤ length work.now) }
    ensures { result ≡ adds_in w part work.now i }
{
    let at = 2 * w.events + 3 * i;
    let tag = Tag {
        word: core_words::word(work, at),
    };
    let next = core_words::word(work, at + 1);
    let last = core_words::word(work, at + 2);
    adds_key(w, part, w.at + i, tag, next, last)
}

// Event i of the window: where it adds its key its edge is loaded as the m-th, with the key as its name. The edges then.
pub(crate) fn add_event(
    w: crate::Window,
    part: crate::Part,
    i: usize,
    work: &mut [u32],
    m: usize,
) -> usize
    requires { AddReady w part i (i + 1) m work.old }
    ensures { Added w part i (i + 1) m work.old work.new result }
{
    let adds = event_adds(w, part, i, work);
    if !adds {
        return m;
    }
    let a = core_words::word(work, 2 * i);
    let b = core_words::word(work, 2 * i + 1);
    let tag = Tag {
        word: core_words::word(work, 2 * w.events + 3 * i),
    };
    let s = part.scratch;
    let n = w.nodes;
    core_loading::put_edge(&mut work[s..], n, m, a, b, tag.key());
    m + 1
}

// The events of the window from i up to j.
pub(crate) fn add_events(
    w: crate::Window,
    part: crate::Part,
    i: usize,
    j: usize,
    work: &mut [u32],
    m: usize,
) -> usize
    requires { AddReady w part i j m work.old }
    ensures { Added w part i j m work.old work.new result }
{
    let mut k = m;
    // The events before e are added.
    for e in i..j {
        k = add_event(w, part, e, work, k);
    }
    k
}
