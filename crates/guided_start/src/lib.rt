// The guided run from one start of a sound start file, on the table of a sound case after rounds.
#![tactic(auto)]

ghost use Rattle.std.specs.Prelude.{◌≡◌, [], ◌<◌, ◌≤◌, ◌-◌, ◌*◌, length};
ghost use Rattle.walks.specs.Guide.{start_walk, guided};
ghost use Rattle.files.specs.Case.{case_refusal, rules_of};
ghost use Rattle.files.specs.Start.{starts_of, cells_of, configuration_of, start_at};
ghost use Rattle.words.specs.Lists.{zeros};
ghost use Rattle.replies.specs.Numbers.{answer_word};
ghost use Rattle.rounds.specs.Won.{round2};
ghost use Rattle.services.specs.Judge.{more_to_add};
ghost use Rattle.tables.specs.View.{automaton_in};
ghost use Rattle.saturation.specs.Held.{saturated_by, saturated_on};
ghost use Rattle.guided_walk.specs.Turns.{Leaves};
ghost use Rattle.sound_files.specs.Sound.{StartSound};
ghost use Rattle.guided_start.specs.Tables.{StandsOn};
ghost use Rattle.guided_start.specs.Run.{guided_by, guided_on, lent_cells, short_at_start, unaccepted};
ghost use Rattle.guided_start.specs.Walk.{ReadyBy};

use case_records::Rules;
use guided_step::Walk;
use limits::Limits;
use replies::{Acceptance, Counts, Halt, Reply};
use saturation::AfterRounds;
use start_records::Start;
use tables::Tables;

// Since when the start is accepted, and what guide answers.
#[derive(Clone, Copy)]
pub struct Guided {
    pub won: Acceptance,
    pub reply: Reply,
}

// Kept (1): the promise of this function: 0 where there is none, which the texts print.
//
// The round of an answer, and 0 where there is none.
pub fn round_of(won: Acceptance) -> u64
    ensures { result ≡ answer_word won - 1 }
{
    match won {
        Acceptance::Never => 0,
        Acceptance::Since(r) => r,
    }
}

// Kept (2): one line, as in `replay`; one function for both would take the size of a cell, which each crate knows alone.
//
// The cells that so many words lend, of which at most 4,096 count.
fn cells_lent(words: usize) -> usize
    ensures { result ≡ lent_cells words }
{
    (words / Limits::CELL_WORDS).min(Limits::CELLS)
}

// The answer for a start that is not accepted: open while a round more would add a move, otherwise that there is no run.
fn not_accepted(more: bool) -> Reply
    ensures { result ≡ unaccepted more }
{
    if more { Reply::Open } else { Reply::NoRun }
}

// Short before any step, with 0 steps and 0 cells.
fn short_at_start() -> Reply
    ensures { result ≡ short_at_start }
{
    let none = Counts { steps: 0, cells: 0 };
    Reply::Walked(Halt::CellsShort(none))
}

// The walk from start x of a sound start file, whose cells fit the first `most` lent cells. The trace is all zero before.
fn walk_from(
    case: &[u8],
    start: &[u8],
    x: Start,
    run: &AfterRounds<'_>,
    rounds: &[u16],
    cells: &mut [u16],
    most: usize,
    trace: &mut [u16],
) -> Reply
    requires { ReadyBy case.now start.now run.now rounds.now × (x.root < 256)
        × (trace.old ≡ zeros (length trace.old)) × (length (cells_of start.now) ≤ most) × (most * 68 ≤ length cells.old) × (most ≤ 4096) }
    ensures { Leaves
        (guided (rules_of case.now) (saturated_by run.now) most (length trace.old) []
        (start_walk (automaton_in run.now.tables) (cells_of start.now) x.control x.root))
        (length trace.old) result trace.new }
{
    let body = start_file::cell_body(start);
    let n = bytes_in::count_of(start, Limits::CELL_BODY);
    least_choices::put_start_cells(&run.tables, body, n, rounds, cells);
    let mut table = [0u8; Limits::RULE_TABLE];
    case_file::put_rules(case, &mut table);
    let rules = Rules {
        body: &table,
        count: bytes_in::count_of(case, Limits::RULE_BODY),
    };
    let w = Walk::start(x.control, x.root as u16, n);
    guided_walk::walk(run, &rules, cells, most, trace, w)
}

// Guides from one start of a sound start file, for a sound case, on its tables after rounds, to which a round more would add a move or not, and
// the words of the start file's cells. The trace is all zero before. What the cells hold after it is left free: the service zeroes them.
pub fn guide_with_rounds(
    case: &[u8],
    start: &[u8],
    number: usize,
    run: &AfterRounds<'_>,
    more: bool,
    rounds: &[u16],
    cells: &mut [u16],
    trace: &mut [u16],
) -> Reply
    requires { ReadyBy case.now start.now run.now rounds.now × (number < length (starts_of start.now))
        × (trace.old ≡ zeros (length trace.old)) × (more ≡ more_to_add case.now (saturated_by run.now)) }
    ensures { Leaves (guided_by case.now start.now number run.now (length cells.old) (length trace.old)) (length trace.old) result trace.new }
{
    if !acceptance_words::is_won(sound_files::start_accepted(start, number, rounds)) {
        return not_accepted(more);
    }
    let most = cells_lent(cells.len());
    if most < bytes_in::count_of(start, Limits::CELL_BODY) {
        return short_at_start();
    }
    let x = start_records::start_at(start_file::start_body(start), number);
    walk_from(case, start, x, run, rounds, cells, most, trace)
}

// Guides from one start of a sound start file, for a sound case, on its tables after rounds, to which a round more would add a move or not. The
// trace is all zero before. What the cells hold after it is left free: the service zeroes them.
// Kept (5): `sizes` and `count` stand beside the tables. Tried: guide made the AfterRounds, whose proof does not cover a field that holds other borrows.
pub fn guide_start<'a>(
    case: &[u8],
    start: &[u8],
    number: usize,
    tables: &Tables<'a>,
    sizes: &'a [u64],
    count: usize,
    more: bool,
    cells: &mut [u16],
    trace: &mut [u16],
) -> Guided
    requires { (case_refusal case.now ≡ 0) × StartSound start.now × StandsOn tables.now count sizes.now × (number < length (starts_of start.now))
        × (trace.old ≡ zeros (length trace.old)) × (more ≡ more_to_add case.now (saturated_on tables.now count sizes.now)) }
    ensures leaves { Leaves (guided_on case.now start.now number tables.now count sizes.now (length cells.old) (length trace.old))
        (length trace.old) result.reply trace.new }
    ensures won { result.won ≡ round2 (saturated_on tables.now count sizes.now)
        (configuration_of start.now (start_at start.now number)).stack (start_at start.now number).control }
{
    let mut rounds = [0u16; Limits::START_CELLS * Limits::STATES1];
    sound_files::start_rounds(tables, sizes, count, start, &mut rounds);
    let won = sound_files::start_accepted(start, number, &rounds);
    let tables = *tables;
    let run = AfterRounds {
        tables,
        sizes,
        count,
    };
    let reply = guide_with_rounds(case, start, number, &run, more, &rounds, cells, trace);
    Guided { won, reply }
}
