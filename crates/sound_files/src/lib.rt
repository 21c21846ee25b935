// What judge and guide begin with, and replay too as far as it refuses: the refusal by the case file, the start file and the number of its
// starts, and since when the start file's cells and starts are accepted. They end by zeroing the tables.
#![tactic(auto)]

ghost use Rattle.std.specs.Prelude.{◌≡◌, ◌*◌, ◌≤◌, ◌<◌, length};
ghost use Rattle.replies.specs.Numbers.{refusal_code, answer_word};
ghost use Rattle.files.specs.Start.{starts_of, cells_of, start_at};
ghost use Rattle.words.specs.Lists.{zeros};
ghost use Rattle.saturation.specs.Held.{saturated_on};
ghost use Rattle.acceptance.specs.Named.{NamedIn};
ghost use Rattle.acceptance.specs.Cells.{RoundsFilled};
ghost use Rattle.sound_files.specs.Starts.{start_round};
ghost use Rattle.sound_files.specs.Sound.{StartSound};
ghost use Rattle.sound_files.specs.Refusal.{files_refusal, number_refusal, answers_refusal};

use limits::Limits;
use replies::{Acceptance, Refusal};
use tables::Tables;

// The refusal by the two files.
#[tactic(auto, using(crate::specs::Refusal::Laws::case_refused))]
pub fn files_refusal(case: &[u8], start: &[u8]) -> Result<(), Refusal>
    ensures { refusal_code result ≡ files_refusal case.now start.now }
{
    case_file::check_case(case)?;
    let h = case_file::head_of(case);
    start_file::check_start(h.controls, h.symbols, start)
}

// The refusal by the two files, or 7 where the start named is not in the file.
pub fn number_refusal(case: &[u8], start: &[u8], number: usize) -> Result<(), Refusal>
    ensures { refusal_code result ≡ number_refusal case.now start.now number }
{
    files_refusal(case, start)?;
    if number < bytes_in::count_of(start, Limits::START_BODY) {
        return Ok(());
    }
    Err(Refusal::NoSuchStart)
}

// The refusal by the two files, or 8 where there are fewer answer words than starts.
pub fn answers_refusal(case: &[u8], start: &[u8], words: usize) -> Result<(), Refusal>
    ensures { refusal_code result ≡ answers_refusal case.now start.now words }
{
    files_refusal(case, start)?;
    if words < bytes_in::count_of(start, Limits::START_BODY) {
        return Err(Refusal::FewAnswers);
    }
    Ok(())
}

// Writes since when each cell of a sound start file is accepted from each state, for the saturated table in these tables and sizes. The words are
// zero before.
// Kept (5): `sizes` and `count` stand beside the tables, as for `guided_start::guide_start`.
pub fn start_rounds(
    tables: &Tables<'_>,
    sizes: &[u64],
    count: usize,
    start: &[u8],
    rounds: &mut [u16],
)
    requires { NamedIn tables.now × (count * 2 ≤ length sizes.now) × (count < 65535) × StartSound start.now
        × (16384 ≤ length rounds.old) × (rounds.old ≡ zeros (length rounds.old)) }
    ensures { RoundsFilled (saturated_on tables.now count sizes.now)
        (cells_of start.now) rounds.old rounds.new (length (cells_of start.now)) }
{
    let cells = start_file::cell_body(start);
    let n = bytes_in::count_of(start, Limits::CELL_BODY);
    acceptance::fill_rounds(tables, sizes, count, cells, n, rounds);
}

// Since when a start of a sound start file is accepted, by these words of the file's cells.
pub fn start_accepted(start: &[u8], number: usize, rounds: &[u16]) -> Acceptance
    requires { StartSound start.now × (number < length (starts_of start.now)) × (16384 ≤ length rounds.now) }
    ensures value { result ≡ start_round rounds.now (start_at start.now number) }
    ensures small { answer_word result < 65536 }
{
    let x = start_records::start_at(start_file::start_body(start), number);
    acceptance_words::accepted(rounds, x.root as usize, x.control)
}

// Writes zero into both tables.
pub fn zero_tables(moves: &mut [u64], entries: &mut [u64])
    ensures { (moves.new ≡ zeros (length moves.old)) × (entries.new ≡ zeros (length entries.old)) }
{
    zeroing::zero(moves);
    zeroing::zero(entries);
}
