// Acceptance of cells in the form of a start file: for each cell the words that say since when it is accepted from each of 64 states, by those
// of the cells before it.
#![tactic(auto)]

ghost use Rattle.std.specs.Prelude.{◌≡◌, ◌<◌, ◌≤◌, ◌+◌, ◌*◌, length};
ghost use Rattle.words.specs.Lists.{zeros};
ghost use Rattle.automata.specs.Saturation.{round_of};
ghost use Rattle.rounds.specs.Won.{final_round, symbol_round, above_round};
ghost use Rattle.tables.specs.Rows.{rows_in};
ghost use Rattle.tables.specs.Records.{as_move};
ghost use Rattle.tables.specs.Layouts.{move_row};
ghost use Rattle.tables.specs.Held.{edges_in};
ghost use Rattle.saturation.specs.Layout.{size_row};
ghost use Rattle.saturation.specs.Held.{saturated_on};
ghost use Rattle.walks.specs.Cell.Formed.{Formed};
ghost use Rattle.cell_memory.specs.Memory.{cell_of};
ghost use Rattle.acceptance_words.specs.Rows.{round_in};
ghost use Rattle.acceptance.specs.Put.{with_move, RowZero, RowPut};
ghost use Rattle.acceptance.specs.Named.{MovesNamed, EdgesNamed, NamedIn};
ghost use Rattle.acceptance.specs.Cells.{annotation_order_at, PartsBelow, cell_round, RoundsFilled};
ghost use Rattle.start_records.specs.Body.{cells_in};

use cell_memory::Cell;
use limits::Limits;
use replies::Acceptance;
use tables::{Move, Tables};

// ---- the words of a cell, by those of the cells before it

// The round of move i, which is `from` or later, by the first k sizes.
fn round_of(sizes: &[u64], k: usize, from: usize, i: usize) -> usize
    requires { (k * 2 ≤ length sizes.now) × (from ≤ round_of (rows_in size_row k sizes.now) i) }
    ensures { result ≡ round_of (rows_in size_row k sizes.now) i }
{
    for r in from..k {
        if (i as u64) < saturation::size_at(sizes, r).moves {
            return r;
        }
    }
    k
}

// Cell i is symbol a on s, annotated by u of order k: what a move of this round adds to its words.
fn put_move(m: Move, round: usize, a: u64, k: u64, u: usize, s: usize, rounds: &mut [u16], i: usize)
    requires { (u < i) × (s < i) × (i * 64 + 64 ≤ length rounds.old) × (m.state < 64) × (round < 65535) }
    ensures { rounds.new ≡ with_move rounds.old i round a k u s (as_move m) }
{
    if m.symbol == a {
        let parts = acceptance_words::move_accepted(rounds, m, k, u, s);
        let won = acceptance_words::later(Acceptance::Since(round as u64), parts);
        acceptance_words::put_earlier(rounds, i, m.state, won);
    }
}

// Cell i is symbol a on s, annotated by u of order k: its words, where they are zero before.
fn put_symbol(
    tables: &Tables<'_>,
    sizes: &[u64],
    count: usize,
    a: u64,
    k: u64,
    u: usize,
    s: usize,
    rounds: &mut [u16],
    i: usize,
)
    requires { MovesNamed tables.now.table tables.now.moves.now × (count * 2 ≤ length sizes.now) × (count < 65535) × (u < i) × (s < i)
        × (i * 64 + 64 ≤ length rounds.old) × RowZero rounds.old i }
    ensures { RowPut rounds.old i (symbol_round (rows_in size_row count sizes.now) a k (round_in rounds.old u)
        (round_in rounds.old s) (rows_in move_row tables.now.table.moves tables.now.moves.now)) rounds.new }
{
    let mut round: usize = 0;
    for n in 0..tables.table.moves {
        round = round_of(sizes, count, round, n);
        put_move(tables.move_at(n), round, a, k, u, s, rounds, i);
    }
}

// Cell i is w on t: its words, where they are zero before.
fn put_above(tables: &Tables<'_>, w: usize, t: usize, rounds: &mut [u16], i: usize)
    requires { EdgesNamed tables.now.table tables.now.inner.now tables.now.entries.now × (w < i) × (t < i)
        × (i * 64 + 64 ≤ length rounds.old) × RowZero rounds.old i }
    ensures { RowPut rounds.old i (above_round (round_in rounds.old w) (round_in rounds.old t)
        (edges_in tables.now.table tables.now.inner.now tables.now.entries.now)) rounds.new }
{
    for n in 0..tables.edge_count() {
        let e = tables.edge_of(n);
        let won = acceptance_words::edge_accepted(rounds, e, w, t);
        acceptance_words::put_earlier(rounds, i, e.state, won);
    }
}

// Cell i is an empty stack, where these states are final: its words, where they are zero before.
fn put_final(set: u64, rounds: &mut [u16], i: usize)
    requires { (i * 64 + 64 ≤ length rounds.old) × RowZero rounds.old i }
    ensures { RowPut rounds.old i (final_round set) rounds.new }
{
    for q in 0..Limits::STATES1 as u64 {
        acceptance_words::put_earlier(rounds, i, q, acceptance_words::final_accepted(set, q));
    }
}

// Cell i, where a symbol's annotation is of order k: its words by those of the cells before it, where they are zero before.
fn put_cell(
    tables: &Tables<'_>,
    sizes: &[u64],
    count: usize,
    cell: Cell,
    k: u64,
    rounds: &mut [u16],
    i: usize,
)
    requires { NamedIn tables.now × (count * 2 ≤ length sizes.now) × (count < 65535) × PartsBelow i (cell_of cell)
        × (i * 64 + 64 ≤ length rounds.old) × RowZero rounds.old i }
    ensures { RowPut rounds.old i
        (cell_round (saturated_on tables.now count sizes.now) k rounds.old (cell_of cell))
        rounds.new }
{
    match cell {
        Cell::Empty1 => put_final(tables.table.final1, rounds, i),
        Cell::Symbol(a, u, s) => put_symbol(
            tables, sizes, count, a as u64, k, u as usize, s as usize, rounds, i,
        ),
        Cell::Empty2 => put_final(tables.table.final2, rounds, i),
        Cell::Above(w, t) => put_above(tables, w as usize, t as usize, rounds, i),
    }
}

// ---- cells in the form of a start file

// The order of the annotation of a symbol.
pub fn annotation_order(body: &[u8], n: usize, cell: Cell) -> u64
    requires { n * 6 ≤ length body.now }
    ensures { result ≡ annotation_order_at (cells_in n body.now) (cell_of cell) }
{
    match cell {
        Cell::Symbol(_, u, _) => start_records::order_at(body, n, u as usize),
        _ => 0,
    }
}

// Writes the words of the first n cells in the body, which refer to cells before them, for the saturated table in these tables and sizes. They
// are zero before.
// Kept (5): `sizes` and `count` stand beside the tables, as for `guided_start::guide_start`; `own_target` makes its sizes itself.
pub fn fill_rounds(
    tables: &Tables<'_>,
    sizes: &[u64],
    count: usize,
    body: &[u8],
    n: usize,
    rounds: &mut [u16],
)
    requires { NamedIn tables.now × (count * 2 ≤ length sizes.now) × (count < 65535) × (n * 6 ≤ length body.now)
        × Formed (cells_in n body.now) × (n * 64 ≤ length rounds.old) × (rounds.old ≡ zeros (length rounds.old)) }
    ensures { RoundsFilled (saturated_on tables.now count sizes.now)
        (cells_in n body.now) rounds.old rounds.new n }
{
    for i in 0..n {
        let cell = start_records::cell_at(body, i);
        let k = annotation_order(body, n, cell);
        put_cell(tables, sizes, count, cell, k, rounds, i);
    }
}
