// The cells of a start file in lent cells, each with its least choices: for each state the least move or edge that is met, by the words of the
// cells that `acceptance` writes.
#![tactic(auto)]

ghost use Rattle.std.specs.Prelude.{◌≡◌, ◌<◌, ◌≤◌, ◌+◌, ◌*◌, length};
ghost use Rattle.tables.specs.Rows.{rows_in};
ghost use Rattle.tables.specs.Records.{as_move, as_edge};
ghost use Rattle.tables.specs.Layouts.{move_row};
ghost use Rattle.tables.specs.Held.{edges_in};
ghost use Rattle.tables.specs.View.{automaton_in};
ghost use Rattle.cell_memory.specs.Memory.{cell_of, guided_in};
ghost use Rattle.acceptance_words.specs.Rows.{round_in};
ghost use Rattle.acceptance.specs.Named.{MovesNamed, EdgesNamed, NamedIn};
ghost use Rattle.acceptance.specs.Cells.{PartsBelow};
ghost use Rattle.start_records.specs.Body.{cells_in};
ghost use Rattle.least_choices.specs.Choices.{choice_if, least_met};
ghost use Rattle.least_choices.specs.Starts.{Few, Prepared, move_met, edge_met, choices_by, with_start, start_cells};

use cell_memory::Cell;
use tables::{Edge, Move, Tables};

// Cell i chooses number n for this state, if the test holds.
fn put_choice_if(met: bool, state: u64, n: usize, cells: &mut [u16], i: usize)
    requires { (state < 64) × (n < 65536) × (i * 68 + 68 ≤ length cells.old) }
    ensures { cells.new ≡ choice_if met i state n cells.old }
{
    if met {
        cell_memory::put_choice(cells, i, state, n as u16);
    }
}

// Whether a move reads symbol a, and annotation u, of order k, and rest s are as it asks.
fn move_met(rounds: &[u16], m: Move, a: u64, k: u64, u: usize, s: usize) -> bool
    requires { (u * 64 + 64 ≤ length rounds.now) × (s * 64 + 64 ≤ length rounds.now) }
    ensures { result ≡ move_met a k (round_in rounds.now u) (round_in rounds.now s) (as_move m) }
{
    m.symbol == a && acceptance_words::is_won(acceptance_words::move_accepted(rounds, m, k, u, s))
}

// Whether top w and rest t are as an edge asks.
fn edge_met(rounds: &[u16], e: Edge, w: usize, t: usize) -> bool
    requires { (w * 64 + 64 ≤ length rounds.now) × (t * 64 + 64 ≤ length rounds.now) × (e.first < 64) }
    ensures { result ≡ edge_met (round_in rounds.now w) (round_in rounds.now t) (as_edge e) }
{
    acceptance_words::is_won(acceptance_words::edge_accepted(rounds, e, w, t))
}

// Cell i chooses, for each state, the least move on symbol a for which annotation u, of order k, and rest s are as it asks.
fn put_move_choices(
    tables: &Tables<'_>,
    a: u64,
    k: u64,
    u: usize,
    s: usize,
    rounds: &[u16],
    cells: &mut [u16],
    i: usize,
)
    requires { MovesNamed tables.now.table tables.now.moves.now × Few tables.now.table × (u * 64 + 64 ≤ length rounds.now) × (s * 64 + 64 ≤ length rounds.now) × (i * 68 + 68 ≤ length cells.old) }
    ensures { cells.new ≡ least_met (λ m. m.state) (move_met a k (round_in rounds.now u) (round_in rounds.now s)) i 0
        (rows_in move_row tables.now.table.moves tables.now.moves.now) cells.old }
{
    for number in (0..tables.table.moves).rev() {
        let m = tables.move_at(number);
        let met = move_met(rounds, m, a, k, u, s);
        put_choice_if(met, m.state, number, cells, i);
    }
}

// Kept (2): one generic function for this loop of four lines and the one above would take two closures, and clauses for all elements of a list.
//
// Cell i chooses, for each state, the least edge for which top w and rest t are as it asks.
fn put_edge_choices(
    tables: &Tables<'_>,
    w: usize,
    t: usize,
    rounds: &[u16],
    cells: &mut [u16],
    i: usize,
)
    requires { EdgesNamed tables.now.table tables.now.inner.now tables.now.entries.now × Few tables.now.table
        × (w * 64 + 64 ≤ length rounds.now) × (t * 64 + 64 ≤ length rounds.now) × (i * 68 + 68 ≤ length cells.old) }
    ensures { cells.new ≡ least_met (λ e. e.state) (edge_met (round_in rounds.now w) (round_in rounds.now t)) i 0
        (edges_in tables.now.table tables.now.inner.now tables.now.entries.now) cells.old }
{
    for number in (0..tables.edge_count()).rev() {
        let e = tables.edge_of(number);
        let met = edge_met(rounds, e, w, t);
        put_choice_if(met, e.state, number, cells, i);
    }
}

// Cell i, which is this cell, gets its least choices by the words of the cells before it, where a symbol's annotation is of order k.
fn put_least_choices(
    tables: &Tables<'_>,
    rounds: &[u16],
    cell: Cell,
    k: u64,
    cells: &mut [u16],
    i: usize,
)
    requires { NamedIn tables.now × Few tables.now.table × PartsBelow i (cell_of cell) × (i * 64 ≤ length rounds.now) × (i * 68 + 68 ≤ length cells.old) }
    ensures { cells.new ≡ choices_by (automaton_in tables.now) k rounds.now i
        (cell_of cell) cells.old }
{
    match cell {
        Cell::Symbol(a, u, s) => put_move_choices(
            tables, a as u64, k, u as usize, s as usize, rounds, cells, i,
        ),
        Cell::Above(w, t) => put_edge_choices(tables, w as usize, t as usize, rounds, cells, i),
        Cell::Empty1 | Cell::Empty2 => {}
    }
}

// Writes cell i, of the first n in the body, with its least choices by the words of the cells.
fn put_start_cell(
    tables: &Tables<'_>,
    body: &[u8],
    n: usize,
    rounds: &[u16],
    cells: &mut [u16],
    i: usize,
)
    requires { Prepared tables.now body.now n rounds.now × (i < n) × (n * 68 ≤ length cells.old) }
    ensures { cells.new ≡ with_start (automaton_in tables.now)
        (cells_in n body.now) rounds.now i cells.old }
{
    let cell = start_records::cell_at(body, i);
    let k = acceptance::annotation_order(body, n, cell);
    cell_memory::put_cell(cells, i, cell);
    put_least_choices(tables, rounds, cell, k, cells, i);
}

// Writes the first n cells in the body, each with its least choices, for the automaton in these tables.
pub fn put_start_cells(
    tables: &Tables<'_>,
    body: &[u8],
    n: usize,
    rounds: &[u16],
    cells: &mut [u16],
)
    requires { Prepared tables.now body.now n rounds.now × (n * 68 ≤ length cells.old) }
    ensures { guided_in n cells.new ≡ start_cells (automaton_in tables.now) (cells_in n body.now) }
{
    for i in 0..n {
        put_start_cell(tables, body, n, rounds, cells, i);
    }
}
