// A step on lent cells: the cells that an operation adds, and the choices that a guided run gives them.
#![tactic(auto)]

ghost use Rattle.std.specs.Prelude.{◌≡◌, [], ◌∷◌, ◌++◌, ◌<◌, ◌≤◌, ◌+◌, ◌*◌, ◌^◌, length};
ghost use Rattle.stacks.specs.Stack.{new_cells, copy};
ghost use Rattle.walks.specs.Cell.{symbol, above, cells_after, root_after};
ghost use Rattle.case_records.specs.Values.{the_operation};
ghost use Rattle.cell_memory.specs.Memory.{cell_of, guided_in};
ghost use Rattle.cell_steps.specs.Steps.{with_cells, cell_number, symbol_of, one, all, with_all_chosen, step_chosen, step_choices, guided_by};

use case_records::Operation;
use cell_memory::Cell;

// The top of a stack in cells: a symbol, the cells of its annotation and of the order-1 stack after it, and the order-2 cell below.
#[derive(Clone, Copy)]
pub struct Top {
    pub symbol: u16,
    pub annotation: u16,
    pub rest: u16,
    pub below: u16,
}

// The new top symbol chooses `number` for order-1 state `state`, and the new root chooses `edge` for `control`.
#[derive(Clone, Copy)]
pub struct Choice {
    pub state: u64,
    pub number: u16,
    pub control: u64,
    pub edge: u16,
}

// How many cells the operation adds.
pub fn new_cells(op: Operation) -> usize
    ensures { result ≡ new_cells (the_operation op) }
{
    operations::line_of(case_records::code_of(op)).cells
}

// The root cell after the operation, where n cells are there before it.
pub fn root_after(op: Operation, n: usize, x: Top) -> usize
    requires { n ≤ 4096 }
    ensures { result ≡ root_after (the_operation op) n x.annotation x.below }
{
    match op {
        Operation::Rewrite(_) => n + 1,
        Operation::Push1(_) | Operation::Push2(_) => n + 2,
        Operation::Copy => n + 3,
        Operation::Pop1 | Operation::Collapse1 => n,
        Operation::Pop2 => x.below as usize,
        Operation::Collapse2 => x.annotation as usize,
    }
}

// ---- the new cells by value

// Cell i of two: the symbol of x, which is cell n, and the order-2 stack that it tops.
fn topping(n: u16, x: Top, i: usize) -> Cell
    requires { i < 2 }
    ensures { cell_of result ≡ cell_number (symbol x.symbol x.annotation x.rest ∷ above n x.below ∷ []) i }
{
    if i == 0 {
        return Cell::Symbol(x.symbol, x.annotation, x.rest);
    }
    Cell::Above(n, x.below)
}

// Cell i of three: the symbol of x, which is cell n, then symbol b with this annotation on it, and the order-2 stack that it tops.
fn pushed(n: u16, x: Top, b: u16, annotation: u16, i: usize) -> Cell
    requires { (i < 3) × (n ≤ 4096) }
    ensures { cell_of result ≡ cell_number (symbol x.symbol x.annotation x.rest ∷ symbol b annotation n ∷ above (n + 1) x.below ∷ []) i }
{
    if i == 0 {
        return Cell::Symbol(x.symbol, x.annotation, x.rest);
    }
    let new_top = Top {
        symbol: b,
        annotation,
        rest: n,
        below: x.below,
    };
    topping(n + 1, new_top, i - 1)
}

// Cell i of four: the top order-1 stack of x, which is cell n, twice.
fn copied(n: u16, x: Top, i: usize) -> Cell
    requires { (i < 4) × (n ≤ 4096) }
    ensures { cell_of result ≡ cell_number (cells_after copy n x.symbol x.annotation x.rest x.below) i }
{
    if i < 2 {
        return topping(n, x, i);
    }
    let upper = Top { below: n + 1, ..x };
    topping(n + 2, upper, i - 2)
}

// New cell i of the operation on x, counted from 0, where n cells are there before it.
pub fn new_cell(op: Operation, n: u16, x: Top, i: usize) -> Cell
    requires { (i < new_cells (the_operation op)) × (n ≤ 4096) × (symbol_of (the_operation op) < 2 ^ 16) }
    ensures { cell_of result ≡ cell_number (cells_after (the_operation op) n x.symbol x.annotation x.rest x.below) i }
{
    match op {
        Operation::Rewrite(b) => {
            let rewritten = Top {
                symbol: b as u16,
                ..x
            };
            topping(n, rewritten, i)
        }
        Operation::Push1(b) => pushed(n, x, b as u16, x.rest, i),
        Operation::Push2(b) => pushed(n, x, b as u16, x.below, i),
        Operation::Copy => copied(n, x, i),
        Operation::Pop1 => Cell::Above(x.rest, x.below),
        Operation::Collapse1 => Cell::Above(x.annotation, x.below),
        Operation::Pop2 | Operation::Collapse2 => Cell::Empty1,
    }
}

// ---- cells without choices

// Writes the new cells of the operation, from cell n on, without choices.
fn put_cells(cells: &mut [u16], n: usize, op: Operation, x: Top)
    requires { ((n + new_cells (the_operation op)) * 68 ≤ length cells.old) × (n ≤ 4096) × (symbol_of (the_operation op) < 2 ^ 16) }
    ensures { cells.new ≡ with_cells cells.old n (cells_after (the_operation op) n x.symbol x.annotation x.rest x.below) }
{
    for i in 0..new_cells(op) {
        cell_memory::put_cell(cells, n + i, new_cell(op, n as u16, x, i));
    }
}

// ---- choices

// The choices of a new top symbol, cell n, and of the root after it.
fn choose_top(cells: &mut [u16], n: usize, choice: Choice)
    requires { ((n + 2) * 68 ≤ length cells.old) × (choice.state < 64) × (choice.control < 64) }
    ensures { cells.new ≡ with_all_chosen cells.old n (one choice.state choice.number ∷ one choice.control choice.edge ∷ []) }
{
    cell_memory::put_choice(cells, n, choice.state, choice.number);
    cell_memory::put_choice(cells, n + 1, choice.control, choice.edge);
}

// The choices after a push: those of the symbol below, then those of the new top.
fn choose_pushed(cells: &mut [u16], n: usize, choice: Choice, chosen: &[u16])
    requires { ((n + 3) * 68 ≤ length cells.old) × (choice.state < 64) × (choice.control < 64) × (length chosen.now ≡ 64) }
    ensures { cells.new ≡ with_all_chosen cells.old n
        (all chosen.now ∷ one choice.state choice.number ∷ one choice.control choice.edge ∷ []) }
{
    cell_memory::put_choices(cells, n, chosen);
    choose_top(cells, n + 1, choice);
}

// The choices after a copy: those of the symbol and the stack below, then those of the new top.
fn choose_copied(cells: &mut [u16], n: usize, choice: Choice, edges: &[u16], chosen: &[u16])
    requires { ((n + 4) * 68 ≤ length cells.old) × (choice.state < 64) × (choice.control < 64) × (length edges.now ≡ 64) × (length chosen.now ≡ 64) }
    ensures { cells.new ≡ with_all_chosen cells.old n
        (step_chosen choice.state choice.number choice.control choice.edge edges.now chosen.now copy) }
{
    cell_memory::put_choices(cells, n, chosen);
    cell_memory::put_choices(cells, n + 1, edges);
    choose_top(cells, n + 2, choice);
}

// The choices of the operation's new cells, which have none, from cell n on.
fn put_chosen(
    cells: &mut [u16],
    n: usize,
    op: Operation,
    choice: Choice,
    edges: &[u16],
    chosen: &[u16],
)
    requires { ((n + new_cells (the_operation op)) * 68 ≤ length cells.old) × (choice.state < 64) × (choice.control < 64) × (length edges.now ≡ 64) × (length chosen.now ≡ 64) }
    ensures { cells.new ≡ with_all_chosen cells.old n
        (step_chosen choice.state choice.number choice.control choice.edge edges.now chosen.now (the_operation op)) }
{
    match op {
        Operation::Rewrite(_) => choose_top(cells, n, choice),
        Operation::Push1(_) | Operation::Push2(_) => choose_pushed(cells, n, choice, chosen),
        Operation::Copy => choose_copied(cells, n, choice, edges, chosen),
        Operation::Pop1 | Operation::Collapse1 => {
            cell_memory::put_choice(cells, n, choice.control, choice.edge)
        }
        Operation::Pop2 | Operation::Collapse2 => {}
    }
}

// ---- a step

// The new cells of the operation, from cell n on, with their choices.
// Kept (5): what may not change: it takes any two lent slices of 64 words.
pub fn put_step(
    cells: &mut [u16],
    n: usize,
    op: Operation,
    x: Top,
    choice: Choice,
    edges: &[u16],
    chosen: &[u16],
)
    requires op_in_bounds { ((n + new_cells (the_operation op)) * 68 ≤ length cells.old) × (n ≤ 4096) × (symbol_of (the_operation op) < 2 ^ 16) }
    requires state_bound { (choice.state < 64) × (choice.control < 64) × (length edges.now ≡ 64) × (length chosen.now ≡ 64) }
    ensures { guided_in (n + new_cells (the_operation op)) cells.new
        ≡ guided_in n cells.old ++ guided_by (cells_after (the_operation op) n x.symbol x.annotation x.rest x.below)
        (step_choices choice.state choice.number choice.control choice.edge edges.now chosen.now (the_operation op)) }
{
    put_cells(cells, n, op, x);
    put_chosen(cells, n, op, choice, edges, chosen);
}
