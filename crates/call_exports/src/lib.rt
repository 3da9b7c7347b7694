// The calls as C sees them: a slice is a pointer and a length, what a call is lent is a struct of numbers and slices, a reply a struct of numbers.
// Each call hands on to the product's own and writes its reply out. The exports themselves, under C's names, stand in the static library call_exports_c.
#![tactic(auto)]

ghost use Rattle.std.specs.Prelude.{◌≡◌, length, take};
ghost use Rattle.theory_contraction.specs.Contraction as contracting;
ghost use Rattle.theory_contraction.specs.Contraction.{contraction};
ghost use Rattle.call_answers.specs.Reader.{first_or_none};
ghost use Rattle.call_check_number.specs.CheckNumber.{number_of_first};
ghost use Rattle.call_kinds.specs.Kinds.{kind_number, kind_of};
ghost use Rattle.call_sizes.specs.Sizes.{check_sizes};
ghost use Rattle.theory_timeline.specs.Call as replaying;
ghost use Rattle.theory_timeline.specs.Replay.{replay};
ghost use Rattle.theory_junction_timeline.specs.JunctionCall.{junction_lent};
ghost use Rattle.theory_junction_timeline.specs.JunctionReplay.{replay_junctions};
ghost use Rattle.call_replies.specs.Replies.{sizes_of, check_number_of};
ghost use Rattle.call_replies.specs.Version.{version};
ghost use Rattle.call_exports.specs.Exports.{SaysContracted, SaysReplayed, SaysReplayedJunctions, contracted_of, replayed_of, replayed_junctions_of, contract_lent, contract_left, replay_lent, replay_left, replay_junctions_lent, replay_junctions_left};

use call_contract::Counts;
use call_replies::{LumCheckNumberReply, LumSizesReply};
use call_sizes::Refusal;
use theory_junction_timeline::JunctionTotals;
use theory_timeline::Totals;

// What a contraction is lent.
#[repr(C)]
#[derive(Drop)]
pub struct LumContractLent<'a> {
    pub n: usize,
    pub m: usize,
    pub k: usize,
    pub from: &'a [u16],
    pub to: &'a [u16],
    pub names: &'a [u16],
    pub active: &'a [u16],
    pub map: &'a mut [u16],
    pub out_from: &'a mut [u16],
    pub out_to: &'a mut [u16],
    pub out_names: &'a mut [u16],
    pub pieces: &'a mut [u16],
    pub work: &'a mut [u32],
}

// What a replay is lent.
#[repr(C)]
#[derive(Drop)]
pub struct LumReplayLent<'a> {
    pub n: usize,
    pub m: usize,
    pub t: usize,
    pub p: usize,
    pub a: &'a [u16],
    pub b: &'a [u16],
    pub start: &'a [u16],
    pub x: &'a [u16],
    pub y: &'a [u16],
    pub answers: &'a mut [u8],
    pub names: &'a mut [u16],
    pub work: &'a mut [u32],
}

// What a replay by the loss of a junction is lent: a replay's tables, but for the names.
#[repr(C)]
#[derive(Drop)]
pub struct LumReplayJunctionsLent<'a> {
    pub n: usize,
    pub m: usize,
    pub t: usize,
    pub p: usize,
    pub a: &'a [u16],
    pub b: &'a [u16],
    pub start: &'a [u16],
    pub x: &'a [u16],
    pub y: &'a [u16],
    pub answers: &'a mut [u8],
    pub work: &'a mut [u32],
}

// In each reply the code is 0 where the call is accepted, else the refusal's number; then place is its place and the other numbers are 0.
// Kept: the C interface takes a reply as a struct of numbers.
#[repr(C)]
#[derive(Drop)]
pub struct LumContractReply {
    pub code: usize,
    pub place: usize,
    pub nodes: usize,
    pub edges: usize,
}

#[repr(C)]
#[derive(Drop)]
pub struct LumReplayReply {
    pub code: usize,
    pub place: usize,
    pub queries: usize,
    pub open: usize,
    pub kept: usize,
}

#[repr(C)]
#[derive(Drop)]
pub struct LumReplayJunctionsReply {
    pub code: usize,
    pub place: usize,
    pub queries: usize,
    pub open: usize,
}

impl From<Result<Counts, Refusal>> for LumContractReply {
    ghost from_gives = { SaysContracted };

    fn from(reply: Result<Counts, Refusal>) -> LumContractReply {
        match reply {
            Ok(counts) => LumContractReply {
                code: 0,
                place: 0,
                nodes: counts.nodes,
                edges: counts.edges,
            },
            Err(refusal) => LumContractReply {
                code: refusal.code(),
                place: refusal.place(),
                nodes: 0,
                edges: 0,
            },
        }
    }
}

impl From<Result<Totals, Refusal>> for LumReplayReply {
    ghost from_gives = { SaysReplayed };

    fn from(reply: Result<Totals, Refusal>) -> LumReplayReply {
        match reply {
            Ok(totals) => LumReplayReply {
                code: 0,
                place: 0,
                queries: totals.queries,
                open: totals.open,
                kept: totals.kept,
            },
            Err(refusal) => LumReplayReply {
                code: refusal.code(),
                place: refusal.place(),
                queries: 0,
                open: 0,
                kept: 0,
            },
        }
    }
}

impl From<Result<JunctionTotals, Refusal>> for LumReplayJunctionsReply {
    ghost from_gives = { SaysReplayedJunctions };

    fn from(reply: Result<JunctionTotals, Refusal>) -> LumReplayJunctionsReply {
        match reply {
            Ok(totals) => LumReplayJunctionsReply {
                code: 0,
                place: 0,
                queries: totals.queries,
                open: totals.open,
            },
            Err(refusal) => LumReplayJunctionsReply {
                code: refusal.code(),
                place: refusal.place(),
                queries: 0,
                open: 0,
            },
        }
    }
}

// The version of the calls in this archive, so that a caller who was built for others can tell.
// It takes nothing and returns one number in every version.
pub fn lum_version() -> u32
    ensures { result ≡ version }
{
    call_replies::version()
}

// The kind of an event, by its number.
pub fn lum_kind_of(x: u16, n: usize) -> u32
    ensures { result ≡ kind_number (kind_of n x) }
{
    call_replies::kind(x, n)
}

// The sizes' check.
pub fn lum_sizes(n: usize, m: usize, t: usize, k: usize) -> LumSizesReply
    ensures { sizes_of result ≡ check_sizes n m t k }
{
    call_replies::sizes(n, m, t, k)
}

// The reader's call. The part that it hands back begins where the table does, so that its length says all.
pub fn lum_answers(table: &[u8], t: usize) -> usize
    ensures value { result ≡ length (first_or_none table.now t) }
    ensures table_value { take result table.now ≡ first_or_none table.now t }
{
    call_replies::answers(table, t)
}

// The check number of the table's first t bytes.
pub fn lum_check_number(table: &[u8], t: usize) -> LumCheckNumberReply
    ensures { check_number_of result ≡ number_of_first table.now t }
{
    call_replies::check_number(table, t)
}

// Internal: the contraction on the fields of the struct that it is lent, in their order.
// Kept: the law `lent_call`, by which the call over the struct is proved, hands the fields on one by one.
pub fn contract_tables<'a>(
    n: usize,
    m: usize,
    k: usize,
    from: &'a [u16],
    to: &'a [u16],
    names: &'a [u16],
    active: &'a [u16],
    map: &'a mut [u16],
    out_from: &'a mut [u16],
    out_to: &'a mut [u16],
    out_names: &'a mut [u16],
    pieces: &'a mut [u16],
    work: &'a mut [u32],
) -> LumContractReply
    ensures { contracted_of result map.new out_from.new out_to.new out_names.new
        pieces.new work.new ≡ contraction (contracting.lent n m k
        from.now to.now names.now active.now map.old out_from.old out_to.old out_names.old pieces.old work.old) }
{
    LumContractReply::from(call_contract::contract(
        n, m, k, from, to, names, active, map, out_from, out_to, out_names, pieces, work,
    ))
}

// The contraction.
pub fn lum_contract<'a>(lent: LumContractLent<'a>) -> LumContractReply
    ensures { contract_left result lent.exit ≡ contraction (contract_lent lent.entry) }
{
    contract_tables(
        lent.n,
        lent.m,
        lent.k,
        lent.from,
        lent.to,
        lent.names,
        lent.active,
        lent.map,
        lent.out_from,
        lent.out_to,
        lent.out_names,
        lent.pieces,
        lent.work,
    )
}

// Internal: the replay on the fields of the struct that it is lent, in their order.
// Kept: the law `lent_call`, by which the call over the struct is proved, hands the fields on one by one.
pub fn replay_tables<'a>(
    n: usize,
    m: usize,
    t: usize,
    p: usize,
    a: &'a [u16],
    b: &'a [u16],
    start: &'a [u16],
    x: &'a [u16],
    y: &'a [u16],
    answers: &'a mut [u8],
    names: &'a mut [u16],
    work: &'a mut [u32],
) -> LumReplayReply
    ensures { replayed_of result answers.new names.new work.new
        ≡ replay (replaying.lent n m t a.now b.now start.now x.now y.now
        answers.old names.old work.old) p }
{
    LumReplayReply::from(call_replay::replay(n, m, t, p, a, b, start, x, y, answers, names, work))
}

// The replay.
pub fn lum_replay<'a>(lent: LumReplayLent<'a>) -> LumReplayReply
    ensures { replay_left result lent.exit ≡ replay (replay_lent lent.entry) lent.entry.p }
{
    replay_tables(
        lent.n,
        lent.m,
        lent.t,
        lent.p,
        lent.a,
        lent.b,
        lent.start,
        lent.x,
        lent.y,
        lent.answers,
        lent.names,
        lent.work,
    )
}

// Internal: the replay by the loss of a junction on the fields of the struct that it is lent, in their order.
// Kept: the law `lent_call`, by which the call over the struct is proved, hands the fields on one by one.
pub fn replay_junctions_tables<'a>(
    n: usize,
    m: usize,
    t: usize,
    p: usize,
    a: &'a [u16],
    b: &'a [u16],
    start: &'a [u16],
    x: &'a [u16],
    y: &'a [u16],
    answers: &'a mut [u8],
    work: &'a mut [u32],
) -> LumReplayJunctionsReply
    ensures { replayed_junctions_of result answers.new work.new
        ≡ replay_junctions (junction_lent n m t a.now b.now start.now x.now y.now
        answers.old work.old) p }
{
    LumReplayJunctionsReply::from(call_replay_junctions::replay_junctions(
        n, m, t, p, a, b, start, x, y, answers, work,
    ))
}

// The replay by the loss of a junction.
pub fn lum_replay_junctions<'a>(lent: LumReplayJunctionsLent<'a>) -> LumReplayJunctionsReply
    ensures { replay_junctions_left result lent.exit ≡ replay_junctions (replay_junctions_lent lent.entry) lent.entry.p }
{
    replay_junctions_tables(
        lent.n,
        lent.m,
        lent.t,
        lent.p,
        lent.a,
        lent.b,
        lent.start,
        lent.x,
        lent.y,
        lent.answers,
        lent.work,
    )
}
