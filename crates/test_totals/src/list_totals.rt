// Counts of lists on which a replay is compared with the slow one.
use std::io;
use test_library::counts::Count;
use test_library::replays::{Event, List, Replayed};
use test_library::{print, refusals, tables};
use test_slow_replay::{replay, roads};

// How many lists there are, have the most events, have no segment open at the start, all and some; on how many the replay disagrees with the slow one; how many
// faults were planted and noticed. Then of the accepted ones the answers, each at its number, and kept; and the lists by their replies: the accepted ones at 0,
// the refused ones at their number.
#[derive(Clone, Copy, Default)]
pub struct Totals {
    pub lists: Count,
    pub full: Count,
    pub none_open: Count,
    pub all_open: Count,
    pub some_open: Count,
    pub disagreements: Count,
    pub planted: Count,
    pub noticed: Count,
    pub answers: [Count; 4],
    pub kept: Count,
    pub replies: [Count; 13],
    pub roads: RoadTotals,
    pub ones: OneTotals,
}

// Of the accepted lists: those with a road of two or more segments, with one that is drawn in both orders, in which a segment opens while another one of its
// road is open, and in which one closes so.
#[derive(Clone, Copy, Default)]
pub struct RoadTotals {
    pub shared: Count,
    pub turned: Count,
    pub opens_beside: Count,
    pub closes_beside: Count,
}

// Of the answers 1, but for rings: those that would be 2 if each segment were a road, that have the name of a closed segment, and where the loss of more than
// one road parts the two junctions.
#[derive(Clone, Copy, Default)]
pub struct OneTotals {
    pub twice_by_segments: Count,
    pub closed_name: Count,
    pub several: Count,
}

impl RoadTotals {
    // Counts an accepted list by its roads.
    fn add(&mut self, list: &List) {
        let mut opens_beside = false;
        let mut closes_beside = false;
        let mut open = replay::open_before(list, 0);
        for i in 0..list.sizes.t {
            let event = list.event(i);
            match event {
                Event::Opens(e) if roads::other_open(list, &open, e) => opens_beside = true,
                Event::Closes(e) if roads::other_open(list, &open, e) => closes_beside = true,
                _ => (),
            }
            replay::change(&mut open, event);
        }
        self.shared.add_if(roads::any_copy(list, false));
        self.turned.add_if(roads::any_copy(list, true));
        self.opens_beside.add_if(opens_beside);
        self.closes_beside.add_if(closes_beside);
    }

    // Internal: prints the counts, the first of which is called so.
    pub fn report(&self, rt: &impl Print, shared: &str) -> io::Result<()> {
        let rows = [
            (shared, self.shared),
            ("with a road that is drawn in both orders", self.turned),
            (
                "in which a segment opens while another one of its road is open",
                self.opens_beside,
            ),
            (
                "in which a segment closes while another one of its road is open",
                self.closes_beside,
            ),
        ];
        print::counts(rt, &rows)
    }
}

impl OneTotals {
    // Internal: counts the answers 1 of an accepted list, of which this is wanted.
    pub fn add(&mut self, list: &List, want: &Replayed) {
        let mut open = replay::open_before(list, 0);
        for i in 0..list.sizes.t {
            let event = list.event(i);
            if let Event::Asks(u, v) = event
                && tables::at(&want.answers, i) == 1
            {
                let name = tables::at(&want.names, i);
                let twice = replay::answer_by_segments(list, &open, u, v) == 2;
                let several = replay::parting_roads(list, &open, u, v) > 1;
                self.twice_by_segments.add_if(twice);
                self.closed_name.add_if(!tables::is_marked(&open, name));
                self.several.add_if(several);
            }
            replay::change(&mut open, event);
        }
    }

    // Internal: prints the counts.
    pub fn report(&self, rt: &impl Print) -> io::Result<()> {
        let rows = [
            (
                "answers 1 that would be 2 if each segment were a road",
                self.twice_by_segments,
            ),
            ("with the name of a closed segment", self.closed_name),
            (
                "with more than one road whose loss parts the two",
                self.several,
            ),
        ];
        print::counts(rt, &rows)
    }
}

impl Totals {
    // Counts a list by what is open at its start.
    fn add_start(&mut self, list: &List) {
        let m = list.sizes.m;
        let open = tables::tally(&list.start, m, 1);
        self.none_open.add_if(open == 0);
        self.all_open.add_if(open > 0 && open == m);
        self.some_open.add_if(open > 0 && open < m);
    }

    // Internal: counts a list, of which this is wanted, of at most so many events, and whether a replay disagrees.
    pub fn add(&mut self, list: &List, want: &Replayed, most: usize, disagrees: bool) {
        let t = list.sizes.t;
        self.lists.add(1);
        self.full.add_if(t == most);
        self.add_start(list);
        self.disagreements.add_if(disagrees);
        self.replies[refusals::printed(&want.reply).code % 13].add(1);
        if let Ok(totals) = want.reply {
            self.kept.add(totals.kept);
            for (number, count) in self.answers.iter_mut().enumerate() {
                count.add(tables::tally(&want.answers, t, number));
            }
            self.roads.add(list);
        }
    }

    // Internal: prints how many lists there are, and on how many the replay disagrees.
    pub fn report_lists(&self, rt: &impl Print) -> io::Result<()> {
        let rows = [
            ("lists", self.lists),
            ("of the most events", self.full),
            ("with no segment open at the start", self.none_open),
            ("with all", self.all_open),
            ("with some", self.some_open),
            ("disagreements", self.disagreements),
        ];
        print::counts(rt, &rows)
    }

    // Internal: prints the counts of the answers.
    pub fn report_answers(&self, rt: &impl Print) -> io::Result<()> {
        let rows = [
            ("answers 0", self.answers[0]),
            ("answers 1", self.answers[1]),
            ("answers 2", self.answers[2]),
            ("opened or closed", self.answers[3]),
        ];
        print::counts(rt, &rows)
    }

    // Internal: prints the counts of the replies. There is no refusal by 8, 9 and 10.
    pub fn report_replies(&self, rt: &impl Print) -> io::Result<()> {
        let rows = [
            ("accepted", self.replies[0]),
            ("refused by 1", self.replies[refusals::SIZE]),
            ("by 2", self.replies[refusals::SHORT]),
            ("by 3", self.replies[refusals::SHARE]),
            ("by 4", self.replies[refusals::END]),
            ("by 5", self.replies[refusals::KIND]),
            ("by 6", self.replies[refusals::OPENS]),
            ("by 7", self.replies[refusals::CLOSES]),
            ("by 11", self.replies[refusals::START]),
            ("by 12", self.replies[refusals::LONG]),
        ];
        print::counts(rt, &rows)
    }

    // Internal: prints the counts, but for those of the answers 1.
    pub fn report(&self, rt: &impl Print) -> io::Result<()> {
        self.report_lists(rt)?;
        let faults = [
            ("answers and names changed on purpose", self.planted),
            ("noticed", self.noticed),
        ];
        print::counts(rt, &faults)?;
        self.report_answers(rt)?;
        print::counts(rt, &[("kept", self.kept)])?;
        self.report_replies(rt)?;
        self.roads
            .report(rt, "accepted with a road of two or more segments")
    }
}
