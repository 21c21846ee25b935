// The service judge: a word of 16 bits a start, 0 for no, 65535 for open, otherwise the round in which it was won plus 1.
#![tactic(auto)]

ghost use Rattle.std.specs.Prelude.{◌≡◌, ◌++◌, map, ◌*◌, ◌<◌, ◌≤◌, length, drop};
ghost use Rattle.replies.specs.Numbers.{answer_word, mark_word};
ghost use Rattle.files.specs.Start.{starts_of};
ghost use Rattle.words.specs.Lists.{zeros};
ghost use Rattle.services.specs.Judge.{judge_service};
ghost use Rattle.saturation.specs.Held.{saturated_on};
ghost use Rattle.acceptance.specs.Named.{NamedIn};
ghost use Rattle.sound_files.specs.Sound.{StartSound};
ghost use Rattle.judge.specs.Marks.{mark_by, mark_of};
ghost use Rattle.demands.specs.Demand1.{JudgeStates};
ghost use Rattle.demands.specs.Demand2.{JudgeMarks, JudgeSize};
ghost use Rattle.judge.specs.Service.{judge_input, judge_done, the_reply};

use limits::Limits;
use replies::{Acceptance, Judged, Refusal};
use tables::Tables;

// A start's word, by since when it is accepted and whether a round more would add a move.
fn mark_of(more: bool, won: Acceptance) -> u16
    requires { answer_word won < 65536 }
    ensures { result ≡ mark_word more won }
{
    if acceptance_words::is_won(won) {
        return acceptance_words::word_of(won);
    }
    if more {
        return Limits::OPEN_WORD;
    }
    0
}

// Writes the words of the n starts of a sound start file, by these words of the file's cells and whether a round more would add a move.
fn put_marks(start: &[u8], n: usize, rounds: &[u16], more: bool, answers: &mut [u16])
    requires { StartSound start.now × (n ≡ length (starts_of start.now)) × (16384 ≤ length rounds.now) × (n ≤ length answers.old) }
    ensures { answers.new ≡ map (mark_by more rounds.now) (starts_of start.now) ++ drop n answers.old }
{
    for i in 0..n {
        answers[i] = mark_of(more, sound_files::start_accepted(start, i, rounds));
    }
}

// ---- the service

// Writes the words of the starts, for the table of the rounds run in these tables and sizes, to which a round more would add a move or not.
// Kept (5): `sizes` and `count` stand beside the tables, as for `guided_start::guide_start`.
fn mark_starts(
    tables: &Tables<'_>,
    sizes: &[u64],
    count: usize,
    more: bool,
    start: &[u8],
    answers: &mut [u16],
)
    requires { NamedIn tables.now × (count * 2 ≤ length sizes.now) × (count < 65535) × StartSound start.now
        × (length (starts_of start.now) ≤ length answers.old) }
    ensures { answers.new
        ≡ map (mark_of more (saturated_on tables.now count sizes.now) start.now) (starts_of start.now)
        ++ drop (length (starts_of start.now)) answers.old }
{
    let mut rounds = [0u16; Limits::START_CELLS * Limits::STATES1];
    sound_files::start_rounds(tables, sizes, count, start, &mut rounds);
    let n = bytes_in::count_of(start, Limits::START_BODY);
    put_marks(start, n, &rounds, more, answers);
}

// Judges files in at most `rounds` rounds, and answers how many of them added a move. All lent memory is zero before, and the tables are after.
fn judge_files(
    case: &[u8],
    start: &[u8],
    rounds: u64,
    moves: &mut [u64],
    entries: &mut [u64],
    answers: &mut [u16],
) -> Result<u64, Refusal>
    requires { (moves.old ≡ zeros (length moves.old)) × (entries.old ≡ zeros (length entries.old)) × (answers.old ≡ zeros (length answers.old)) }
    ensures { judge_done (the_reply result) moves.new entries.new answers.new
        ≡ judge_service (judge_input case.now start.now rounds
        (length moves.old) (length entries.old) (length answers.old)) }
{
    sound_files::answers_refusal(case, start, answers.len())?;
    let mut inner = [0u64; Limits::INNER_TABLE];
    let mut sizes = [0u64; Limits::SIZE_TABLE];
    let Some(r) = saturate::saturate_case(case, rounds, &mut inner, entries, moves, &mut sizes)
    else {
        return Err(Refusal::TableTooLarge);
    };
    let tables = Tables {
        table: r.table,
        inner: &inner,
        entries,
        moves,
    };
    mark_starts(&tables, &sizes, r.rounds + 1, r.more, start, answers);
    sound_files::zero_tables(moves, entries);
    Ok(r.rounds as u64)
}

// Writes a word for each start of the start file, for the table of at most `rounds` rounds: 1 more than the least round whose table accepts it;
// otherwise open, 65535, if a round more would add a move, and if none would 0, and then no run from it by the case's rules ends in the case's target. Answers 0
// with the number of rounds that added a move, or the number of a refusal with 0.
pub fn judge(
    case: &[u8],
    start: &[u8],
    rounds: u64,
    moves: &mut [u64],
    entries: &mut [u64],
    answers: &mut [u16],
) -> Judged
    ensures answers_after { judge_done result moves.new entries.new answers.new
        ≡ judge_service (judge_input case.now start.now rounds
        (length moves.old) (length entries.old) (length answers.old)) }
    ensures demand1 { JudgeStates (judge_input case.now start.now rounds
        (length moves.old) (length entries.old) (length answers.old))
        (judge_done result moves.new entries.new answers.new) }
    ensures demand2 { JudgeMarks (judge_input case.now start.now rounds
        (length moves.old) (length entries.old) (length answers.old))
        (judge_done result moves.new entries.new answers.new) }
    ensures size { JudgeSize (judge_input case.now start.now rounds
        (length moves.old) (length entries.old) (length answers.old))
        result.code }
{
    sound_files::zero_tables(moves, entries);
    zeroing::zero(answers);
    match judge_files(case, start, rounds, moves, entries, answers) {
        Ok(rounds) => Judged { code: 0, rounds },
        Err(refusal) => Judged {
            code: u64::from(refusal),
            rounds: 0,
        },
    }
}
