// The check of a start file, body by body.
#![tactic(auto)]

ghost use Rattle.std.specs.Prelude.{◌≡◌, true, map, ◌≤◌, ◌+◌, ◌*◌, length};
ghost use Rattle.words.specs.Lists.{every};
ghost use Rattle.replies.specs.Numbers.{refusal_code};
ghost use Rattle.files.specs.Bytes.{records};
ghost use Rattle.files.specs.Start.{start_placed, start_of, cell_bytes, starts_of, cell_records, start_right, cells_right};
ghost use Rattle.bytes_in.specs.Records.{body_of};
ghost use Rattle.start_file.specs.Checks.{refusal_for};

use bytes_in::Body;
use limits::Limits;
use replies::Refusal;
use start_records::Cells;

// The bodies of a start file.
const BODIES: [Body; Limits::START_CONTENTS] = [
    Body {
        kind: 1,
        least: 1,
        most: Limits::STARTS as u16,
        size: Limits::START_BYTES as u16,
    },
    Body {
        kind: 2,
        least: 1,
        most: Limits::START_CELLS as u16,
        size: Limits::CELL_BYTES as u16,
    },
];

// The first byte, the contents, the counts and the length are right.
fn start_placed(file: &[u8]) -> bool
    ensures { result ≡ start_placed file.now }
{
    bytes_in::placed(file, &BODIES) && bytes_in::byte_at(file, 0) == Limits::START_FIRST
}

// Every start of the body keeps its bounds, where there are so many controls, and n cells.
fn starts_right(controls: u64, body: &[u8], m: usize, cells: &[u8], n: usize) -> bool
    requires { (m * 3 ≤ length body.now) × (m ≤ 64) × (n * 6 ≤ length cells.now) × (n ≤ 256) }
    ensures { result ≡ every (start_right controls (map cell_bytes (records n 6 cells.now))) (map start_of (records m 3 body.now)) }
{
    let cells = Cells {
        body: cells,
        count: n,
    };
    (0..m).all(|i| start_records::start_right(controls, &cells, start_records::start_at(body, i)))
}

// Every cell of the body keeps its bounds, where there are so many symbols.
fn cells_right(symbols: u64, cells: &[u8], n: usize) -> bool
    requires { (n * 6 ≤ length cells.now) × (n ≤ 256) }
    ensures { result ≡ cells_right symbols (map cell_bytes (records n 6 cells.now)) 0 (map cell_bytes (records n 6 cells.now)) }
{
    (0..n).all(
        |i|
            requires { (i * 6 + 6 ≤ length cells.now) × (i ≤ 256) }
        {
            let below = Cells {
                body: cells,
                count: i,
            };
            start_records::cell_right(symbols, &below, start_records::fields_at(cells, i))
        },
    )
}

// ---- the file's bodies
// Kept (2): document 01 names this form, a part of the file for each body (DECISIONS, 18): the parts go by names.

// The body of starts of a file whose bodies are in place.
pub fn start_body(file: &[u8]) -> &[u8]
    requires { start_placed file.now ≡ true }
    ensures { result.now ≡ body_of file.now 0 3 }
{
    bytes_in::body_part(file, Limits::START_BODY, Limits::START_BYTES)
}

// The body of cells of a file whose bodies are in place.
pub fn cell_body(file: &[u8]) -> &[u8]
    requires { start_placed file.now ≡ true }
    ensures { result.now ≡ body_of file.now 1 6 }
{
    bytes_in::body_part(file, Limits::CELL_BODY, Limits::CELL_BYTES)
}

// Every start of the file keeps its bounds, where there are so many controls.
fn file_starts_right(controls: u64, file: &[u8]) -> bool
    requires { start_placed file.now ≡ true }
    ensures { result ≡ every (start_right controls (cell_records file.now)) (starts_of file.now) }
{
    let m = bytes_in::count_of(file, Limits::START_BODY);
    let n = bytes_in::count_of(file, Limits::CELL_BODY);
    starts_right(controls, start_body(file), m, cell_body(file), n)
}

// Every cell of the file keeps its bounds, where there are so many symbols.
fn file_cells_right(symbols: u64, file: &[u8]) -> bool
    requires { start_placed file.now ≡ true }
    ensures { result ≡ cells_right symbols (cell_records file.now) 0 (cell_records file.now) }
{
    cells_right(
        symbols,
        cell_body(file),
        bytes_in::count_of(file, Limits::CELL_BODY),
    )
}

// The refusal, 5 or 6, of a start file that is not sound for a case with so many controls and symbols.
pub fn check_start(controls: u64, symbols: u64, start: &[u8]) -> Result<(), Refusal>
    ensures { refusal_code result ≡ refusal_for controls symbols start.now }
{
    if !start_placed(start) {
        return Err(Refusal::StartContents);
    }
    if !file_starts_right(controls, start) {
        return Err(Refusal::StartRecords);
    }
    if !file_cells_right(symbols, start) {
        return Err(Refusal::StartRecords);
    }
    Ok(())
}
