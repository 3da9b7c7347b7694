// Counts of lists on which the sibling is compared with the slow version.
use std::io;
use test_library::counts::Count;
use test_library::print;
use test_library::replays::List;
use test_slow_junctions::Wanted;
use test_totals::list_totals;

// The counts of lists as for the replay; how many accepted ones differ with some share, and have a loop; and how their answers differ from the replay's.
#[derive(Clone, Copy, Default)]
pub(crate) struct Totals {
    pub(crate) lists: list_totals::Totals,
    pub(crate) shares_differ: Count,
    pub(crate) loops: Count,
    pub(crate) differences: Differences,
}

// How many answers differ from the replay's; are 1 where no road's loss parts the two; and 2 where a road's loss parts them: one road joins them, and no other
// way.
#[derive(Clone, Copy, Default)]
pub(crate) struct Differences {
    pub(crate) all: Count,
    pub(crate) one_for_two: Count,
    pub(crate) two_for_one: Count,
}

// Whether a segment is a loop.
fn has_loop(list: &List) -> bool {
    (0..list.sizes.m).any(|e| {
        let (u, v) = list.segments.ends(e);
        u == v
    })
}

impl Differences {
    // Counts the answers of t events, by the loss of a junction and of a road.
    pub(crate) fn add(&mut self, want: &Wanted, t: usize) {
        for (junction, road) in want.junctions.answers.iter().zip(&want.by_roads).take(t) {
            self.all.add_if(junction != road);
            self.one_for_two.add_if(*junction == 1 && *road == 2);
            self.two_for_one.add_if(*junction == 2 && *road == 1);
        }
    }
}

impl Totals {
    // Counts a list with its outcome by the slow version, whether the call disagrees, and the most events that such a list may have.
    pub(crate) fn add(&mut self, list: &List, want: &Wanted, most: usize, disagrees: bool) {
        self.lists.add(list, &want.junctions, most, disagrees);
        if want.junctions.reply.is_ok() {
            self.loops.add_if(has_loop(list));
            self.differences.add(want, list.sizes.t);
        }
    }

    // Prints the counts.
    pub(crate) fn report(&self, rt: &impl Print) -> io::Result<()> {
        let lists = &self.lists;
        lists.report_lists(rt)?;
        lists.report_replies(rt)?;
        let shares = [(
            "accepted, with a share from 4 to 12 that replies otherwise",
            self.shares_differ,
        )];
        print::counts(rt, &shares)?;
        lists
            .roads
            .report(rt, "with a road of two or more segments")?;
        print::counts(rt, &[("with a loop", self.loops)])?;
        lists.report_answers(rt)?;
        let differences = [
            (
                "answers that differ from the replay's",
                self.differences.all,
            ),
            (
                "1 where no road's loss parts the two",
                self.differences.one_for_two,
            ),
            (
                "2 where a road's loss parts the two",
                self.differences.two_for_one,
            ),
        ];
        print::counts(rt, &differences)
    }
}
