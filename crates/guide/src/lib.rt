// The service guide: the rule numbers of a run from one start.
#![tactic(auto)]

ghost use Rattle.std.specs.Prelude.{◌≡◌, ◌-◌, length};
ghost use Rattle.words.specs.Lists.{zeros};
ghost use Rattle.services.specs.Guide.{guide_service};
ghost use Rattle.replies.specs.Numbers.{answer_word, refusal_of};
ghost use Rattle.demands.specs.Demand1.{GuideStates};
ghost use Rattle.demands.specs.Demand2.{GuideRuns, GuideSize};
ghost use Rattle.demands.specs.Demand3.{Guides};
ghost use Rattle.guided_start.specs.Run.{guide_input};
ghost use Rattle.guide.specs.Service.{guide_done, judged_round, the_guided};

use guided_start::Guided;
use limits::Limits;
use replies::{Acceptance, Refusal, Reply};
use tables::Tables;

// Guides from a start of files, on the table of at most `rounds` rounds. All lent memory is zero before, and all but the trace is after.
fn guide_files(
    case: &[u8],
    start: &[u8],
    number: usize,
    rounds: u64,
    moves: &mut [u64],
    entries: &mut [u64],
    cells: &mut [u16],
    trace: &mut [u16],
) -> Result<Guided, Refusal>
    requires { (moves.old ≡ zeros (length moves.old)) × (entries.old ≡ zeros (length entries.old)) × (cells.old ≡ zeros (length cells.old))
        × (trace.old ≡ zeros (length trace.old)) }
    ensures trace_after { guide_done (the_guided result).reply moves.new entries.new cells.new trace.new
        ≡ guide_service (guide_input case.now start.now number rounds
        (length moves.old) (length entries.old) (length cells.old) (length trace.old)) }
    ensures won { answer_word (the_guided result).won - 1
        ≡ judged_round case.now start.now number rounds (length moves.old) (length entries.old) }
{
    sound_files::number_refusal(case, start, number)?;
    let mut inner = [0u64; Limits::INNER_TABLE];
    let mut sizes = [0u64; Limits::SIZE_TABLE];
    let Some(r) = saturate::saturate_case(case, rounds, &mut inner, entries, moves, &mut sizes)
    else {
        return Err(Refusal::TableTooLarge);
    };
    let tables = Tables {
        table: r.table,
        inner: &inner,
        entries,
        moves,
    };
    let guided = guided_start::guide_start(
        case,
        start,
        number,
        &tables,
        &sizes,
        r.rounds + 1,
        r.more,
        cells,
        trace,
    );
    sound_files::zero_tables(moves, entries);
    zeroing::zero(cells);
    Ok(guided)
}

// Guides as `guide` does, and answers the round in which the start was won too: the round is that of judge's word in as many rounds.
pub fn guide_won(
    case: &[u8],
    start: &[u8],
    number: usize,
    rounds: u64,
    moves: &mut [u64],
    entries: &mut [u64],
    cells: &mut [u16],
    trace: &mut [u16],
) -> Guided
    ensures trace_after { guide_done result.reply moves.new entries.new cells.new trace.new
        ≡ guide_service (guide_input case.now start.now number rounds
        (length moves.old) (length entries.old) (length cells.old) (length trace.old)) }
    ensures won { answer_word result.won - 1
        ≡ judged_round case.now start.now number rounds (length moves.old) (length entries.old) }
{
    sound_files::zero_tables(moves, entries);
    zeroing::zero(cells);
    zeroing::zero(trace);
    match guide_files(case, start, number, rounds, moves, entries, cells, trace) {
        Ok(guided) => guided,
        Err(refusal) => Guided {
            won: Acceptance::Never,
            reply: Reply::Refused(u64::from(refusal)),
        },
    }
}

// Writes into the trace the rule numbers of a run from start `number` into the case's target, as many as the trace and the cells hold, on the table of
// at most `rounds` rounds. Answers how the walk halted, that there is no run, that the start is open, or the number of a refusal. Demands 1, 2 and 3
// hold of its answer.
pub fn guide(
    case: &[u8],
    start: &[u8],
    number: usize,
    rounds: u64,
    moves: &mut [u64],
    entries: &mut [u64],
    cells: &mut [u16],
    trace: &mut [u16],
) -> Reply
    ensures trace_after { guide_done result moves.new entries.new cells.new trace.new
        ≡ guide_service (guide_input case.now start.now number rounds
        (length moves.old) (length entries.old) (length cells.old) (length trace.old)) }
    ensures demand1 { GuideStates (guide_input case.now start.now number rounds
        (length moves.old) (length entries.old) (length cells.old) (length trace.old))
        (guide_done result moves.new entries.new cells.new trace.new) }
    ensures demand2 { GuideRuns (guide_input case.now start.now number rounds
        (length moves.old) (length entries.old) (length cells.old) (length trace.old))
        result }
    ensures size { GuideSize (guide_input case.now start.now number rounds
        (length moves.old) (length entries.old) (length cells.old) (length trace.old))
        (refusal_of result) }
    ensures demand3 { Guides (guide_input case.now start.now number rounds
        (length moves.old) (length entries.old) (length cells.old) (length trace.old))
        (guide_done result moves.new entries.new cells.new trace.new) }
{
    let guided = guide_won(case, start, number, rounds, moves, entries, cells, trace);
    guided.reply
}
