// The service replay: whether a trace of rule numbers is a run from one start that ends in the target.
#![tactic(auto)]

ghost use Rattle.std.specs.Prelude.{◌≡◌, ◌<◌, ◌≤◌, ◌*◌, length};
ghost use Rattle.replies.specs.Numbers.{refusal_code};
ghost use Rattle.automata.specs.Acceptance.{in_target};
ghost use Rattle.files.specs.Case.{case_refusal, own_of, rules_of};
ghost use Rattle.files.specs.Start.{starts_of, cells_of, configuration_at};
ghost use Rattle.services.specs.Replay.{rule_numbers, replayed, replay_refusal, replay_service};
ghost use Rattle.demands.specs.Demand1.{ReplayStates};
ghost use Rattle.demands.specs.Replays.{AnswersExactly};
ghost use Rattle.sound_files.specs.Refusal.{FilesSound};
ghost use Rattle.sound_files.specs.Sound.{StartSound};
ghost use Rattle.replay_step.specs.Place.{place_configuration, PlaceStands};
ghost use Rattle.replay.specs.Start.{StartPlace};
ghost use Rattle.replay.specs.Service.{lent_cells, replay_input, replay_done, arrival_answer, the_reply};

use limits::Limits;
use replay_step::Place;
use replies::{Refusal, Replayed};

// Kept (2): one line, as in `guided_start`; one function for both would take the size of a cell, which each crate knows alone.
//
// The cells that so many bytes lend, of which at most 4,096 count.
fn cells_lent(bytes: usize) -> usize
    ensures { result ≡ lent_cells bytes }
{
    (bytes / Limits::CELL_BYTES).min(Limits::CELLS)
}

// The refusal before the first step, with so many bytes lent for cells.
fn refusal_of(
    case: &[u8],
    start: &[u8],
    number: usize,
    trace: &[u8],
    bytes: usize,
) -> Result<(), Refusal>
    ensures { refusal_code result ≡ replay_refusal (replay_input case.now start.now number trace.now bytes) }
{
    sound_files::number_refusal(case, start, number)?;
    if trace.len() % Limits::NUMBER_BYTES == 1 {
        return Err(Refusal::OddTrace);
    }
    if cells_lent(bytes) < bytes_in::count_of(start, Limits::CELL_BODY) {
        return Err(Refusal::FewCells);
    }
    Ok(())
}

// Copies the cells of a sound start file, and answers where its start `number` stands.
fn start_place(start: &[u8], number: usize, cells: &mut [u8]) -> Place
    requires { StartSound start.now × (number < length (starts_of start.now)) × (length (cells_of start.now) * 6 ≤ length cells.old) }
    ensures { StartPlace start.now number result cells.new }
{
    replay_cells::copy_cells(start_file::cell_body(start), cells);
    let x = start_records::start_at(start_file::start_body(start), number);
    Place {
        control: x.control,
        root: x.root as u16,
        cells: bytes_in::count_of(start, Limits::CELL_BODY),
    }
}

// What is answered at a place after so many steps, the last of the trace.
fn answer_at(case: &[u8], cells: &[u8], v: Place, steps: u64) -> Replayed
    requires { (case_refusal case.now ≡ 0) × PlaceStands v cells.now × (v.cells ≤ 4096) }
    ensures { result ≡ arrival_answer (in_target (own_of case.now) (place_configuration v cells.now)) steps }
{
    if own_target::in_target(case, cells, v.cells, v.control, v.root as usize) {
        return Replayed::Accepted;
    }
    Replayed::FailsAt(steps)
}

// Replays the trace from a start of sound files, whose cells are no more than `most`.
fn replay_sound(
    case: &[u8],
    start: &[u8],
    number: usize,
    trace: &[u8],
    cells: &mut [u8],
    most: usize,
) -> Replayed
    requires { FilesSound case.now start.now × (number < length (starts_of start.now)) × (length (cells_of start.now) ≤ most)
        × (most * 6 ≤ length cells.old) × (most ≤ 4096) }
    ensures { result ≡ replayed (rules_of case.now) (own_of case.now) most 0 (length (cells_of start.now))
        (configuration_at start.now number) (rule_numbers trace.now) }
{
    let w = start_place(start, number, cells);
    let mut rules = [0u8; Limits::RULE_TABLE];
    case_file::put_rules(case, &mut rules);
    let count = bytes_in::count_of(case, Limits::RULE_BODY);
    match replay_trace::replay_trace(&rules, count, trace, cells, most, w) {
        Err(r) => r,
        Ok(v) => answer_at(case, cells, v, (trace.len() / Limits::NUMBER_BYTES) as u64),
    }
}

// Replays the trace from a start of files, and leaves the cells that it has used.
fn replay_files(
    case: &[u8],
    start: &[u8],
    number: usize,
    trace: &[u8],
    cells: &mut [u8],
) -> Result<Replayed, Refusal>
    ensures { the_reply result ≡ (replay_service (replay_input case.now start.now number trace.now (length cells.old))).reply }
{
    refusal_of(case, start, number, trace, cells.len())?;
    let most = cells_lent(cells.len());
    Ok(replay_sound(case, start, number, trace, cells, most))
}

// Replays a trace of rule numbers, two bytes each, low byte first, from start `number`. Answers that it is accepted, the step that fails, or
// the number of a refusal. Demand 1 holds of its answer, which is accepted exactly for a run into the target whose cells fit.
pub fn replay(case: &[u8], start: &[u8], number: usize, trace: &[u8], cells: &mut [u8]) -> Replayed
    ensures cells_after { replay_done result cells.new ≡ replay_service (replay_input case.now start.now number trace.now (length cells.old)) }
    ensures demand1 { ReplayStates (replay_input case.now start.now number trace.now (length cells.old)) (replay_done result cells.new) }
    ensures exactly { AnswersExactly (replay_input case.now start.now number trace.now (length cells.old)) result }
{
    let replayed = replay_files(case, start, number, trace, cells);
    zeroing::zero(cells);
    match replayed {
        Ok(reply) => reply,
        Err(refusal) => Replayed::Refused(u64::from(refusal)),
    }
}
