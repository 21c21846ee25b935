// The services and the listing for the bench host in C: a slice is a pointer and a length to it. Nothing is asked of the caller but valid
// memory that does not overlap. host/analyser.h says the same in C.
#![tactic(auto)]

ghost use Rattle.std.specs.Prelude.{◌≡◌, length};
ghost use Rattle.services.specs.Saturate.{saturate_service};
ghost use Rattle.services.specs.Judge.{judge_service};
ghost use Rattle.services.specs.Guide.{guide_service};
ghost use Rattle.services.specs.Replay.{replay_service};
ghost use Rattle.services.specs.Brackets.{brackets_service};
ghost use Rattle.saturate.specs.Service.{the_lent, the_done};
ghost use Rattle.judge.specs.Service.{judge_input, judge_done};
ghost use Rattle.guided_start.specs.Run.{guide_input};
ghost use Rattle.replay.specs.Service.{replay_input};
ghost use Rattle.brackets.specs.Service.{brackets_input};
ghost use Rattle.services.specs.Memory.{padded};
ghost use Rattle.services.specs.Listing.{listing_text};
ghost use Rattle.start_file.specs.Checks.{files_of};
ghost use Rattle.exports.specs.Answers.{the_reply, the_judged, the_counts, the_answer, answer_of, the_replay, replay_of, the_brackets, brackets_of};

use limits::Limits;

// The service saturate: 0 with the numbers of moves and entries, or the number of a refusal with 0 and 0.
#[unsafe(no_mangle)]
pub extern "C" fn analyser_saturate(
    case: &[u8],
    moves: &mut [u64],
    entries: &mut [u64],
    moves_used: &mut u64,
    entries_used: &mut u64,
) -> u64
    ensures { the_done (the_reply result moves_used.new entries_used.new) moves.new entries.new
        ≡ saturate_service (the_lent case.now moves.old entries.old) }
{
    let r = saturate::saturate(case, moves, entries);
    *moves_used = r.moves;
    *entries_used = r.entries;
    r.code
}

// The service judge in at most `rounds` rounds: 0 with the number of rounds that added a move, or the number of a refusal with 0.
#[unsafe(no_mangle)]
pub extern "C" fn analyser_judge(
    case: &[u8],
    start: &[u8],
    rounds: u64,
    moves: &mut [u64],
    entries: &mut [u64],
    answers: &mut [u16],
    rounds_used: &mut u64,
) -> u64
    ensures { judge_done (the_judged result rounds_used.new) moves.new entries.new answers.new
        ≡ judge_service (judge_input case.now start.now rounds
        (length moves.old) (length entries.old) (length answers.old)) }
{
    let reply = judge::judge(case, start, rounds, moves, entries, answers);
    *rounds_used = reply.rounds;
    reply.code
}

// The service guide from start `number`, in at most `rounds` rounds: the number of its answer, with the steps taken and the cells used, 0 and 0 where it counts none.
#[unsafe(no_mangle)]
pub extern "C" fn analyser_guide(
    case: &[u8],
    start: &[u8],
    number: u64,
    rounds: u64,
    moves: &mut [u64],
    entries: &mut [u64],
    cells: &mut [u16],
    trace: &mut [u16],
    steps: &mut u64,
    cells_used: &mut u64,
) -> u64
    ensures { the_answer result (the_counts steps.new cells_used.new) moves.new entries.new cells.new
        trace.new
        ≡ answer_of (guide_service (guide_input case.now start.now number rounds
        (length moves.old) (length entries.old) (length cells.old) (length trace.old))) }
{
    let reply = guide::guide(
        case,
        start,
        number as usize,
        rounds,
        moves,
        entries,
        cells,
        trace,
    );
    let counts = reply_numbers::counts_of(reply);
    *steps = counts.steps;
    *cells_used = counts.cells;
    reply_numbers::number_of(reply)
}

// The service replay of a trace from start `number`: the number of its answer, with the step that fails, 0 where none does.
#[unsafe(no_mangle)]
pub extern "C" fn analyser_replay(
    case: &[u8],
    start: &[u8],
    number: u64,
    trace: &[u8],
    cells: &mut [u8],
    step: &mut u64,
) -> u64
    ensures { the_replay result step.new cells.new
        ≡ replay_of (replay_service (replay_input case.now start.now number trace.now (length cells.old))) }
{
    let reply = replay::replay(case, start, number as usize, trace, cells);
    *step = reply_numbers::replay_step(reply);
    reply_numbers::replay_number(reply)
}

// The service brackets of start `number`: 0 with the length of the text, or the number of a refusal with 0.
#[unsafe(no_mangle)]
pub extern "C" fn analyser_brackets(
    case: &[u8],
    start: &[u8],
    number: u64,
    text: &mut [u8],
    printed: &mut usize,
) -> u64
    ensures { the_brackets result printed.new text.new
        ≡ brackets_of (brackets_service (brackets_input case.now start.now number (length text.old))) }
{
    let reply = brackets::brackets(case, start, number as usize, text);
    *printed = reply_numbers::brackets_length(reply);
    reply_numbers::brackets_number(reply)
}

// The text that the printing program prints for two files, zeros behind it. Answers its length.
#[unsafe(no_mangle)]
pub extern "C" fn analyser_listing(
    case: &[u8],
    start: &[u8],
    text: &mut [u8; Limits::LISTING_TEXT],
) -> usize
    ensures text_after { text.new ≡ padded 4306 (listing_text (files_of case.now start.now)) }
    ensures long { result ≡ length (listing_text (files_of case.now start.now)) }
{
    listing_text::listing(case, start, text)
}
