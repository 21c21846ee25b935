// The service saturate, and the table of a sound case after at most so many rounds for the services above.
#![tactic(auto)]

ghost use Rattle.std.specs.Prelude.{◌≡◌, ◌≤◌, length, IfNone};
ghost use Rattle.words.specs.Lists.{zeros};
ghost use Rattle.automata.specs.Saturation.{within};
ghost use Rattle.files.specs.Case.{own_of, case_refusal};
ghost use Rattle.services.specs.Memory.{lent};
ghost use Rattle.services.specs.Saturate.{saturate_service};
ghost use Rattle.demands.specs.Demand1.{SaturateStates};
ghost use Rattle.demands.specs.Demand2.{SaturateSize};
ghost use Rattle.demands.specs.MoveCounts.{CountsWalked};
ghost use Rattle.saturate.specs.Case.{Working, CaseEnds};
ghost use Rattle.saturate.specs.Service.{the_lent, the_done, the_reply};

use limits::Limits;
use replies::{Refusal, Saturation};
use saturation::Saturated;
use tables::Table;

// Whether the own moves and entries of a sound case fit tables of so many words.
fn own_fits(case: &[u8], moves: usize, entries: usize) -> bool
    requires { case_refusal case.now ≡ 0 }
    ensures { result ≡ within (lent moves entries) (own_of case.now) }
{
    let h = case_file::head_of(case);
    bytes_in::count_of(case, Limits::MOVE_BODY) <= moves / Limits::MOVE_WORDS
        && case_file::entry_total(h, case) as usize <= entries / Limits::ENTRY_WORDS
}

// Saturates the table of a sound case by at most `rounds` rounds, in tables that are all zero, with working memory for its inner edges, for the
// results of a round and for the sizes after each round. Answers none where a limit is passed.
fn saturate_within(
    case: &[u8],
    rounds: u64,
    inner: &mut [u64],
    entries: &mut [u64],
    moves: &mut [u64],
    pending: &mut [u64],
    sizes: &mut [u64],
) -> Option<Saturated>
    requires { (case_refusal case.now ≡ 0) × Working inner.old entries.old moves.old sizes.old × (6144 ≤ length pending.old) }
    ensures { CaseEnds case.now rounds (length moves.old) (length entries.old) result inner.new entries.new moves.new sizes.new }
{
    if !own_fits(case, moves.len(), entries.len()) {
        return None;
    }
    let z = case_tables::load_case(case, inner, entries, moves);
    let mut rules = [0u8; Limits::RULE_TABLE];
    case_file::put_rules(case, &mut rules);
    let count = bytes_in::count_of(case, Limits::RULE_BODY);
    saturation::saturate_tables(
        rounds, z, inner, entries, moves, &rules, count, pending, sizes,
    )
}

// Saturates the table of a sound case by at most `rounds` rounds, in tables that are all zero, with working memory for its inner edges and for the
// sizes after each round. Answers none where a limit is passed, and the tables are all zero again.
pub fn saturate_case(
    case: &[u8],
    rounds: u64,
    inner: &mut [u64],
    entries: &mut [u64],
    moves: &mut [u64],
    sizes: &mut [u64],
) -> Option<Saturated>
    requires { (case_refusal case.now ≡ 0) × Working inner.old entries.old moves.old sizes.old }
    ensures case_saturated { CaseEnds case.now rounds (length moves.old) (length entries.old) result inner.new entries.new moves.new sizes.new }
    ensures moves { IfNone result (moves.new ≡ zeros (length moves.old)) }
    ensures entries { IfNone result (entries.new ≡ zeros (length entries.old)) }
{
    let mut pending = [0u64; Limits::PENDING_TABLE];
    let r = saturate_within(case, rounds, inner, entries, moves, &mut pending, sizes);
    if r.is_none() {
        zeroing::zero(moves);
        zeroing::zero(entries);
    }
    r
}

// Saturates the table of a case in tables that are all zero. Where the case is refused, or the table is too large, they are zero again.
fn saturated_table(case: &[u8], moves: &mut [u64], entries: &mut [u64]) -> Result<Table, Refusal>
    requires { (moves.old ≡ zeros (length moves.old)) × (entries.old ≡ zeros (length entries.old)) }
    ensures { the_done (the_reply result) moves.new entries.new ≡ saturate_service (the_lent case.now moves.old entries.old) }
{
    case_file::check_case(case)?;
    let mut inner = [0u64; Limits::INNER_TABLE];
    let mut sizes = [0u64; Limits::SIZE_TABLE];
    let Some(r) = saturate_case(
        case,
        Limits::ALL_ROUNDS,
        &mut inner,
        entries,
        moves,
        &mut sizes,
    ) else {
        return Err(Refusal::TableTooLarge);
    };
    Ok(r.table)
}

// Fills the move table and the entry table with the saturated table of a case. Demands 1 and 2 hold of what it leaves, and the third word of each entry
// is the count of its moves by walking.
pub fn saturate(case: &[u8], moves: &mut [u64], entries: &mut [u64]) -> Saturation
    ensures entries_after { the_done result moves.new entries.new ≡ saturate_service (the_lent case.now moves.old entries.old) }
    ensures demand1 { SaturateStates (the_lent case.now moves.old entries.old) (the_done result moves.new entries.new) }
    ensures demand2 { SaturateSize (the_lent case.now moves.old entries.old) result.code }
    ensures counted { result.code ≡ 0 → CountsWalked (the_lent case.now moves.old entries.old) (the_done result moves.new entries.new) }
{
    zeroing::zero(moves);
    zeroing::zero(entries);
    match saturated_table(case, moves, entries) {
        Ok(table) => Saturation {
            code: 0,
            moves: table.moves as u64,
            entries: table.entries as u64,
        },
        Err(refusal) => Saturation {
            code: u64::from(refusal),
            moves: 0,
            entries: 0,
        },
    }
}
