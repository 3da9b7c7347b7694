// The exports for C: each has the name and the clauses of the call in call_exports that it hands on to. A static library is no library of Rattle's, so the calls
// themselves stand in call_exports. Where a call is lent a struct the export takes it apart itself, since the borrow checker covers no struct of tables that is
// handed on whole.
#![tactic(auto)]

ghost use Rattle.std.specs.Prelude.{◌≡◌, length, take};
ghost use Rattle.theory_contraction.specs.Contraction.{contraction};
ghost use Rattle.call_answers.specs.Reader.{first_or_none};
ghost use Rattle.call_check_number.specs.CheckNumber.{number_of_first};
ghost use Rattle.call_kinds.specs.Kinds.{kind_number, kind_of};
ghost use Rattle.call_sizes.specs.Sizes.{check_sizes};
ghost use Rattle.theory_timeline.specs.Replay.{replay};
ghost use Rattle.theory_junction_timeline.specs.JunctionReplay.{replay_junctions};
ghost use Rattle.call_replies.specs.Replies.{sizes_of, check_number_of};
ghost use Rattle.call_replies.specs.Version.{version};
ghost use Rattle.call_exports.specs.Exports.{contract_lent, contract_left, replay_lent, replay_left, replay_junctions_lent, replay_junctions_left};

use call_exports::*;
use call_replies::{LumCheckNumberReply, LumSizesReply};

// The version of the calls in this archive, so that a caller who was built for others can tell.
// It takes nothing and returns one number in every version.
#[unsafe(no_mangle)]
pub extern "C" fn lum_version() -> u32
    ensures { result ≡ version }
{
    call_exports::lum_version()
}

// The kind of an event, by its number.
#[unsafe(no_mangle)]
pub extern "C" fn lum_kind_of(x: u16, n: usize) -> u32
    ensures { result ≡ kind_number (kind_of n x) }
{
    call_exports::lum_kind_of(x, n)
}

// The sizes' check.
#[unsafe(no_mangle)]
pub extern "C" fn lum_sizes(n: usize, m: usize, t: usize, k: usize) -> LumSizesReply
    ensures { sizes_of result ≡ check_sizes n m t k }
{
    call_exports::lum_sizes(n, m, t, k)
}

// The reader's call. The part that it hands back begins where the table does, so that its length says all.
#[unsafe(no_mangle)]
pub extern "C" fn lum_answers(table: &[u8], t: usize) -> usize
    ensures value { result ≡ length (first_or_none table.now t) }
    ensures table_value { take result table.now ≡ first_or_none table.now t }
{
    call_exports::lum_answers(table, t)
}

// The check number of the table's first t bytes.
#[unsafe(no_mangle)]
pub extern "C" fn lum_check_number(table: &[u8], t: usize) -> LumCheckNumberReply
    ensures { check_number_of result ≡ number_of_first table.now t }
{
    call_exports::lum_check_number(table, t)
}

// The contraction.
#[unsafe(no_mangle)]
pub extern "C" fn lum_contract<'a>(lent: LumContractLent<'a>) -> LumContractReply
    ensures { contract_left result lent.exit ≡ contraction (contract_lent lent.entry) }
{
    let LumContractLent {
        n,
        m,
        k,
        from,
        to,
        names,
        active,
        map,
        out_from,
        out_to,
        out_names,
        pieces,
        work,
    } = lent;
    call_exports::contract_tables(
        n, m, k, from, to, names, active, map, out_from, out_to, out_names, pieces, work,
    )
}

// The replay.
#[unsafe(no_mangle)]
pub extern "C" fn lum_replay<'a>(lent: LumReplayLent<'a>) -> LumReplayReply
    ensures { replay_left result lent.exit ≡ replay (replay_lent lent.entry) lent.entry.p }
{
    let LumReplayLent {
        n,
        m,
        t,
        p,
        a,
        b,
        start,
        x,
        y,
        answers,
        names,
        work,
    } = lent;
    call_exports::replay_tables(n, m, t, p, a, b, start, x, y, answers, names, work)
}

// The replay by the loss of a junction.
#[unsafe(no_mangle)]
pub extern "C" fn lum_replay_junctions<'a>(
    lent: LumReplayJunctionsLent<'a>,
) -> LumReplayJunctionsReply
    ensures { replay_junctions_left result lent.exit ≡ replay_junctions (replay_junctions_lent lent.entry) lent.entry.p }
{
    let LumReplayJunctionsLent {
        n,
        m,
        t,
        p,
        a,
        b,
        start,
        x,
        y,
        answers,
        work,
    } = lent;
    call_exports::replay_junctions_tables(n, m, t, p, a, b, start, x, y, answers, work)
}
