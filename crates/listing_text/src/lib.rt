// The text that the printing program prints for a case file and a start file. The case is saturated once, in all rounds, the words of the start file's cells are
// worked out once, and every start is guided by them.
#![tactic(auto)]

ghost use Rattle.std.specs.Prelude.{◌≡◌, ◌+◌, ◌*◌, ◌≤◌, ◌<◌, length};
ghost use Rattle.files.specs.Start.{starts_of};
ghost use Rattle.services.specs.Memory.{padded, entry_width, largest};
ghost use Rattle.services.specs.Listing.{start_line, start_lines, listing_text};
ghost use Rattle.tables.specs.Rows.{rows_in};
ghost use Rattle.tables.specs.Layouts.{counted_row};
ghost use Rattle.start_file.specs.Checks.{files_of};
ghost use Rattle.text.specs.Written.{Written};
ghost use Rattle.sound_files.specs.Refusal.{FilesSound};
ghost use Rattle.guided_start.specs.Walk.{RoundsBy};
ghost use Rattle.listing_text.specs.Prepared.{ReadyOn, ReadyBy};

use limits::Limits;
use replies::{Refusal, Saturation};
use saturation::AfterRounds;
use tables::Tables;

// The largest number of moves of an entry, among the first n.
fn largest_count(entries: &[u64], n: usize) -> u64
    requires { n * entry_width ≤ length entries.now }
    ensures { result ≡ largest (rows_in counted_row n entries.now) }
{
    let mut most: u64 = 0;
    for i in 0..n {
        most = most.max(tables::count_at(entries, i));
    }
    most
}

// Writes the line of start n from `at` on and answers the place after it.
fn start_line(
    case: &[u8],
    start: &[u8],
    n: usize,
    run: &AfterRounds<'_>,
    rounds: &[u16],
    text: &mut [u8],
    at: usize,
) -> usize
    requires { ReadyBy case.now start.now run.now × RoundsBy run.now start.now rounds.now × (n < length (starts_of start.now)) × (at + 66 ≤ length text.old) }
    ensures written { Written text.old at (start_line (files_of case.now start.now) n) text.new result }
    ensures within { result ≤ at + 66 }
{
    let mut cells = [0u16; Limits::LISTING_CELLS * Limits::CELL_WORDS];
    let mut trace = [0u16; Limits::LISTING_TRACE];
    let reply = guided_start::guide_with_rounds(
        case, start, n, run, false, rounds, &mut cells, &mut trace,
    );
    let won = sound_files::start_accepted(start, n, rounds);
    let round = guided_start::round_of(won);
    text::put_reply_line(text, at, n as u64, round, reply)
}

// Writes the lines of all starts from `at` on and answers the place after them.
fn start_lines(
    case: &[u8],
    start: &[u8],
    run: &AfterRounds<'_>,
    rounds: &[u16],
    text: &mut [u8],
    at: usize,
) -> usize
    requires { ReadyBy case.now start.now run.now × RoundsBy run.now start.now rounds.now × (at + 64 * 66 ≤ length text.old) }
    ensures written { Written text.old at (start_lines (files_of case.now start.now) 0 (length (starts_of start.now)))
        text.new result }
    ensures within { result ≤ at + 64 * 66 }
{
    let count = bytes_in::count_of(start, Limits::START_BODY);
    let mut end = at;
    for n in 0..count {
        end = start_line(case, start, n, run, rounds, text, end);
    }
    end
}

// Writes the listing of a table that fits and answers its length.
// Kept (5): `sizes` and `k` stand beside the tables, as for `guided_start::guide_start`.
fn table_lines<'a>(
    case: &[u8],
    start: &[u8],
    tables: &Tables<'a>,
    sizes: &'a [u64],
    k: usize,
    text: &mut [u8],
) -> usize
    requires { ReadyOn case.now start.now tables.now k sizes.now × (4306 ≤ length text.old) }
    ensures written { Written text.old 0 (listing_text (files_of case.now start.now)) text.new result }
    ensures within { result ≤ 4306 }
{
    let reply = Saturation {
        code: 0,
        moves: tables.table.moves as u64,
        entries: tables.table.entries as u64,
    };
    let after_sizes = text::put_size_line(text, 0, reply);
    let most = largest_count(tables.entries, tables.table.entries);
    let end = text::put_most_line(text, after_sizes, most);
    let mut rounds = [0u16; Limits::START_CELLS * Limits::STATES1];
    sound_files::start_rounds(tables, sizes, k, start, &mut rounds);
    let tables = *tables;
    let run = AfterRounds {
        tables,
        sizes,
        count: k,
    };
    start_lines(case, start, &run, &rounds, text, end)
}

// Writes the listing of sound files and answers its length.
fn sound_listing(case: &[u8], start: &[u8], text: &mut [u8]) -> usize
    requires { FilesSound case.now start.now × (4306 ≤ length text.old) }
    ensures written { Written text.old 0 (listing_text (files_of case.now start.now)) text.new result }
    ensures within { result ≤ 4306 }
{
    let mut moves = [0u64; Limits::MOVES * Limits::MOVE_WORDS];
    let mut entries = [0u64; Limits::STATES1 * Limits::ENTRY_WORDS];
    let mut inner = [0u64; Limits::INNER_TABLE];
    let mut sizes = [0u64; Limits::SIZE_TABLE];
    let Some(r) = saturate::saturate_case(
        case,
        Limits::ALL_ROUNDS,
        &mut inner,
        &mut entries,
        &mut moves,
        &mut sizes,
    ) else {
        return text::put_refused(text, 0, u64::from(Refusal::TableTooLarge));
    };
    let tables = Tables {
        table: r.table,
        inner: &inner,
        entries: &entries,
        moves: &moves,
    };
    table_lines(case, start, &tables, &sizes, r.rounds + 1, text)
}

// Writes the listing of a case file and a start file, zeros behind it, and answers its length.
pub fn listing(case: &[u8], start: &[u8], text: &mut [u8; Limits::LISTING_TEXT]) -> usize
    ensures text_after { text.new ≡ padded 4306 (listing_text (files_of case.now start.now)) }
    ensures long { result ≡ length (listing_text (files_of case.now start.now)) }
    ensures within { result ≤ 4306 }
{
    *text = [0u8; Limits::LISTING_TEXT];
    match sound_files::files_refusal(case, start) {
        Ok(()) => sound_listing(case, start, text),
        Err(refusal) => text::put_refused(text, 0, u64::from(refusal)),
    }
}
