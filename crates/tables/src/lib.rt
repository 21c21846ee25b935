// Tables of records in slices of words: moves (five words each), entries (three), inner edges (three) and the results of a round (six).
// Nothing else touches the words of a table.
#![tactic(auto)]

ghost use Rattle.std.specs.Prelude.{◌≡◌, ◌<◌, ◌≤◌, ◌+◌, ◌-◌, ◌*◌, ◌^◌, length, get_or, [], unwrap_or, IfSome};
ghost use Rattle.std.proofs.Math.Seq.{paste};
ghost use Rattle.words.specs.Order.{less};
ghost use Rattle.automata.specs.Automaton.{no_edge, no_move, entry_at, entry_of, entry_set};
ghost use Rattle.automata.specs.Saturation.{is_entry, entry_number};
ghost use Rattle.services.specs.Memory.{entry_width};
ghost use Rattle.tables.specs.Rows.{row_at, rows_in, put_row};
ghost use Rattle.tables.specs.Held.{table_of, edges_in, found_entry, entry_for, EdgesStand, EntriesStand, MovesStand};
ghost use Rattle.tables.specs.Insertion.{row_words, word_rows, leading, reached, with_row, inserted_in, Inserted};
ghost use Rattle.tables.specs.Pending.{pending_in, insert_within};
ghost use Rattle.tables.specs.Records.{as_move, as_entry, as_edge, as_result};
ghost use Rattle.tables.specs.Layouts.{move_row, entry_row, counted_row, edge_row, result_row};
ghost use Rattle.tables.specs.Counts.{raised};

mod automaton;
mod insertion;
mod view;

pub use automaton::{edge_of, entry_for, entry_of, entry_set, move_of};
pub use insertion::{insert_edge, insert_result};
use limits::Limits;
pub use view::Tables;

// A move of an order-1 state.
#[derive(Clone, Copy, PartialEq, Eq)]
pub struct Move {
    pub state: u64,
    pub symbol: u64,
    pub order: u64,
    pub b: u64,
    pub r: u64,
}

// An entry [p,S].
#[derive(Clone, Copy, PartialEq, Eq)]
pub struct Entry {
    pub control: u64,
    pub s: u64,
}

// An edge (r,S) of an order-2 state; `first` is r.
#[derive(Clone, Copy, PartialEq, Eq)]
pub struct Edge {
    pub state: u64,
    pub first: u64,
    pub s: u64,
}

// A result: the move (symbol, order, B, R) of entry [p,S].
#[derive(Clone, Copy, PartialEq, Eq)]
pub struct Result {
    pub control: u64,
    pub s: u64,
    pub symbol: u64,
    pub order: u64,
    pub b: u64,
    pub r: u64,
}

// An automaton whose inner edges, entries and moves stand in the first rows of three slices: the numbers of these rows, the number J of
// inner order-1 states, and the final sets.
#[derive(Clone, Copy, PartialEq, Eq)]
pub struct Table {
    pub inner1: u64,
    pub final1: u64,
    pub final2: u64,
    pub edges: usize,
    pub entries: usize,
    pub moves: usize,
}

// Kept (2): no plainer as one function over a trait of rows: each reader and writer is the list of its record's fields, which an impl would repeat.
//
// The move in row i.
pub fn move_at(t: &[u64], i: usize) -> Move
    requires { i * 5 + 5 ≤ length t.now }
    ensures { as_move result ≡ row_at move_row t.now i }
{
    let at = i * Limits::MOVE_WORDS;
    Move {
        state: t[at],
        symbol: t[at + 1],
        order: t[at + 2],
        b: t[at + 3],
        r: t[at + 4],
    }
}

// Writes a move into row i.
pub fn put_move(t: &mut [u64], i: usize, m: Move)
    requires { i * 5 + 5 ≤ length t.old }
    ensures { t.new ≡ put_row move_row t.old i (as_move m) }
{
    let at = i * Limits::MOVE_WORDS;
    t[at] = m.state;
    t[at + 1] = m.symbol;
    t[at + 2] = m.order;
    t[at + 3] = m.b;
    t[at + 4] = m.r;
}

// The entry in row i.
pub fn entry_at(t: &[u64], i: usize) -> Entry
    requires { i * entry_width + entry_width ≤ length t.now }
    ensures { as_entry result ≡ row_at entry_row t.now i }
{
    let at = i * Limits::ENTRY_WORDS;
    Entry {
        control: t[at],
        s: t[at + 1],
    }
}

// Writes an entry, which has no moves yet, into row i.
pub fn put_entry(t: &mut [u64], i: usize, e: Entry)
    requires { i * entry_width + entry_width ≤ length t.old }
    ensures { t.new ≡ put_row entry_row t.old i (as_entry e) }
{
    let at = i * Limits::ENTRY_WORDS;
    t[at] = e.control;
    t[at + 1] = e.s;
    t[at + 2] = 0;
}

// The number of moves of the entry in row i.
pub fn count_at(t: &[u64], i: usize) -> u64
    requires { i * entry_width + entry_width ≤ length t.now }
    ensures { result ≡ (row_at counted_row t.now i).moves }
{
    t[i * Limits::ENTRY_WORDS + 2]
}

// Raises the number of moves of the entry in row i by one.
pub fn raise_count(t: &mut [u64], i: usize)
    requires { (i * entry_width + entry_width ≤ length t.old) × ((row_at counted_row t.old i).moves + 1 < 2 ^ 64) }
    ensures { t.new ≡ raised t.old i }
{
    let at = i * Limits::ENTRY_WORDS + 2;
    t[at] += 1;
}

// The edge in row i.
fn edge_at(t: &[u64], i: usize) -> Edge
    requires { i * 3 + 3 ≤ length t.now }
    ensures { as_edge result ≡ row_at edge_row t.now i }
{
    let at = i * Limits::EDGE_WORDS;
    Edge {
        state: t[at],
        first: t[at + 1],
        s: t[at + 2],
    }
}

// The result in row i.
pub fn result_at(t: &[u64], i: usize) -> Result
    requires { i * 6 + 6 ≤ length t.now }
    ensures { as_result result ≡ row_at result_row t.now i }
{
    let at = i * Limits::RESULT_WORDS;
    Result {
        control: t[at],
        s: t[at + 1],
        symbol: t[at + 2],
        order: t[at + 3],
        b: t[at + 4],
        r: t[at + 5],
    }
}

// The number of an entry among the first n, where it is there.
pub fn entry_number(t: &[u64], n: usize, e: Entry) -> Option<usize>
    requires { n * entry_width ≤ length t.now }
    ensures number { unwrap_or result n ≡ entry_number e.control e.s (rows_in entry_row n t.now) }
    ensures there { IfSome result (λ i. i < n) }
{
    for i in 0..n {
        if entry_at(t, i) == e {
            return Some(i);
        }
    }
    None
}
