// The text that the program `run` prints for a case file, a start file, the number of a start and a number of rounds.
#![tactic(auto)]

ghost use Rattle.std.specs.Prelude.{◌≡◌, ◌+◌, ◌*◌, ◌≤◌, length};
ghost use Rattle.services.specs.Memory.{padded};
ghost use Rattle.start_file.specs.Checks.{files_of};
ghost use Rattle.text.specs.Written.{Written};
ghost use Rattle.services.specs.Run.{run_text};

use limits::Limits;

// Guides from the start of this number in so many rounds and writes the text of the answer. Answers its length.
fn put_run(case: &[u8], start: &[u8], number: usize, rounds: u64, text: &mut [u8]) -> usize
    requires { 65536 * 6 + 80 ≤ length text.old }
    ensures written { Written text.old 0 (run_text (files_of case.now start.now) number rounds) text.new result }
    ensures within { result ≤ 65536 * 6 + 80 }
{
    let mut moves = [0u64; Limits::MOVES * Limits::MOVE_WORDS];
    let mut entries = [0u64; Limits::STATES1 * Limits::ENTRY_WORDS];
    let mut cells = [0u16; Limits::CELLS * Limits::CELL_WORDS];
    let mut trace = [0u16; Limits::RUN_TRACE];
    let guided = guide::guide_won(
        case,
        start,
        number,
        rounds,
        &mut moves,
        &mut entries,
        &mut cells,
        &mut trace,
    );
    let won = guided.won;
    let reply = guided.reply;
    let round = guided_start::round_of(won);
    answer_text::put_answer(text, number, round, reply, &trace)
}

// Writes the text for a case file, a start file, the number of a start and a number of rounds, zeros behind it, and answers its length.
pub fn run_text(
    case: &[u8],
    start: &[u8],
    number: usize,
    rounds: u64,
    text: &mut [u8; Limits::RUN_TEXT],
) -> usize
    ensures text_after { text.new ≡ padded (65536 * 6 + 80) (run_text (files_of case.now start.now) number rounds) }
    ensures long { result ≡ length (run_text (files_of case.now start.now) number rounds) }
    ensures within { result ≤ 65536 * 6 + 80 }
{
    *text = [0u8; Limits::RUN_TEXT];
    put_run(case, start, number, rounds, text)
}
