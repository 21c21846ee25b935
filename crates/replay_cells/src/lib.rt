// Cells in lent bytes, six a cell, in the form of start body 2: a start file's cells copied, and the new cells of an operation.
#![tactic(auto)]

ghost use Rattle.std.specs.Prelude.{◌≡◌, [], ◌∷◌, ◌<◌, ◌≤◌, ◌+◌, ◌*◌, ◌/◌, ◌%◌, length};
ghost use Rattle.std.proofs.lemmas.List.Edits.{sets};
ghost use Rattle.stacks.specs.Stack.{new_cells};
ghost use Rattle.walks.specs.Cell.{cells_after};
ghost use Rattle.case_records.specs.Values.{the_operation};
ghost use Rattle.cell_memory.specs.Memory.{cell_of};
ghost use Rattle.cell_steps.specs.Steps.{put_from, symbol_of};
ghost use Rattle.replay_cells.specs.CellBytes.{cell_symbol, put_bytes};

use case_records::Operation;
use cell_memory::Cell;
use cell_steps::Top;
use limits::Limits;

// Copies the bytes of a start file's cells into the first lent ones.
pub fn copy_cells(body: &[u8], cells: &mut [u8])
    requires { length body.now ≤ length cells.old }
    ensures { cells.new ≡ sets cells.old 0 body.now }
{
    for i in 0..body.len() {
        cells[i] = body[i];
    }
}

// The six bytes of a cell, from `at` on.
fn put_fields(cells: &mut [u8], at: usize, kind: u8, symbol: u8, first: u16, second: u16)
    requires { at + 6 ≤ length cells.old }
    ensures { cells.new ≡ sets cells.old at (kind ∷ symbol ∷ first % 256 ∷ first / 256 ∷ second % 256 ∷ second / 256 ∷ []) }
{
    cells[at] = kind;
    cells[at + 1] = symbol;
    cells[at + 2] = (first % 256) as u8;
    cells[at + 3] = (first / 256) as u8;
    cells[at + 4] = (second % 256) as u8;
    cells[at + 5] = (second / 256) as u8;
}

// Cell i is this cell, whose symbol fits a byte.
fn put_cell(cells: &mut [u8], i: usize, cell: Cell)
    requires { (i * 6 + 6 ≤ length cells.old) × (cell_symbol (cell_of cell) < 256) }
    ensures { cells.new ≡ put_bytes cells.old i (cell_of cell) }
{
    let at = i * Limits::CELL_BYTES;
    match cell {
        Cell::Empty1 => put_fields(cells, at, Limits::EMPTY1_CELL as u8, 0, 0, 0),
        Cell::Symbol(a, u, s) => put_fields(cells, at, Limits::SYMBOL_CELL as u8, a as u8, u, s),
        Cell::Empty2 => put_fields(cells, at, Limits::EMPTY2_CELL as u8, 0, 0, 0),
        Cell::Above(w, t) => put_fields(cells, at, Limits::ABOVE_CELL as u8, 0, w, t),
    }
}

// Kept (2): `cell_steps` has the same loop of one line on lent words: the two write different memory.
//
// Writes the new cells of the operation on x, from cell n on.
pub fn put_cells(cells: &mut [u8], n: usize, op: Operation, x: Top)
    requires { ((n + new_cells (the_operation op)) * 6 ≤ length cells.old) × (n ≤ 4096) × (symbol_of (the_operation op) < 256) × (x.symbol < 256) }
    ensures { cells.new ≡ put_from put_bytes cells.old n (cells_after (the_operation op) n x.symbol x.annotation x.rest x.below) }
{
    for i in 0..cell_steps::new_cells(op) {
        put_cell(cells, n + i, cell_steps::new_cell(op, n as u16, x, i));
    }
}
