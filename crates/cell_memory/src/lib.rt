// Lent cells: a flat slice of 16-bit words, 68 words a cell: its kind, symbol, first and second, then the choice for each of 64 states.
#![tactic(auto)]

ghost use Rattle.std.specs.Prelude.{◌≡◌, ◌<◌, ◌≤◌, ◌+◌, ◌*◌, [], ◌∷◌, length};
ghost use Rattle.cell_memory.specs.Memory.{cell_in, choice_in, fields, with_cell, with_choice, with_choices};

use limits::Limits;

// A cell by value.
#[derive(Clone, Copy, PartialEq, Eq)]
pub enum Cell {
    Empty1,
    Symbol(u16, u16, u16),
    Empty2,
    Above(u16, u16),
}

// Cell i.
pub fn cell_at(cells: &[u16], i: usize) -> Cell
    requires { i * 68 + 68 ≤ length cells.now }
    ensures { result ≡ cell_in cells.now i }
{
    let at = i * Limits::CELL_WORDS;
    match u64::from(cells[at]) {
        Limits::SYMBOL_CELL => Cell::Symbol(cells[at + 1], cells[at + 2], cells[at + 3]),
        Limits::EMPTY2_CELL => Cell::Empty2,
        Limits::ABOVE_CELL => Cell::Above(cells[at + 2], cells[at + 3]),
        _ => Cell::Empty1,
    }
}

// The choice of cell i for state q.
pub fn choice_at(cells: &[u16], i: usize, q: u64) -> u16
    requires { i * 68 + 68 ≤ length cells.now }
    ensures { result ≡ choice_in cells.now i q }
{
    if q < Limits::STATES1 as u64 {
        let at = i * Limits::CELL_WORDS + Limits::FIELD_WORDS + q as usize;
        cells[at]
    } else {
        0
    }
}

// The kind, symbol, first and second of a cell.
fn fields_of(cell: Cell) -> [u16; Limits::FIELD_WORDS]
    ensures { result ≡ fields cell }
{
    match cell {
        Cell::Empty1 => [Limits::EMPTY1_CELL as u16, 0, 0, 0],
        Cell::Symbol(a, u, s) => [Limits::SYMBOL_CELL as u16, a, u, s],
        Cell::Empty2 => [Limits::EMPTY2_CELL as u16, 0, 0, 0],
        Cell::Above(w, t) => [Limits::ABOVE_CELL as u16, 0, w, t],
    }
}

// Cell i is this cell, with no choice for any state.
pub fn put_cell(cells: &mut [u16], i: usize, cell: Cell)
    requires { i * 68 + 68 ≤ length cells.old }
    ensures { cells.new ≡ with_cell cells.old i cell }
{
    let at = i * Limits::CELL_WORDS;
    let choices = at + Limits::FIELD_WORDS;
    let end = at + Limits::CELL_WORDS;
    cells[at..choices].copy_from_slice(&fields_of(cell));
    cells[choices..end].fill(0);
}

// The choice of cell i for state q is n.
pub fn put_choice(cells: &mut [u16], i: usize, q: u64, n: u16)
    requires { (i * 68 + 68 ≤ length cells.old) × (q < 64) }
    ensures { cells.new ≡ with_choice cells.old i q n }
{
    let at = i * Limits::CELL_WORDS + Limits::FIELD_WORDS + q as usize;
    cells[at] = n;
}

// The choices of cell i are these.
pub fn put_choices(cells: &mut [u16], i: usize, choices: &[u16])
    requires { (i * 68 + 68 ≤ length cells.old) × (length choices.now ≡ 64) }
    ensures { cells.new ≡ with_choices cells.old i choices.now }
{
    let from = i * Limits::CELL_WORDS + Limits::FIELD_WORDS;
    let end = from + Limits::STATES1;
    cells[from..end].copy_from_slice(choices);
}
