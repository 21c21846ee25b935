// The text of stacks in cells of a start file, written into lent bytes as far as they reach. The printers of order-2 cells, of order-1 cells and
// of annotations call each other, and the cell number falls. Where the lent bytes are passed they return at once.
#![tactic(auto)]

ghost use Rattle.std.specs.Prelude.{◌<◌, ◌≡◌, ◌++◌, Some};
ghost use Rattle.walks.specs.Cell.{order1, order2};
ghost use Rattle.walks.specs.Cell.Formed.{order_at};
ghost use Rattle.services.specs.Listing.{ascii, decimal};
ghost use Rattle.services.specs.Brackets.{between, symbols_text, stacks_text, annotation_text, stack_text};
ghost use Rattle.start_records.specs.Body.{cells_in};
ghost use Rattle.bounded_text.specs.Page.{page, Prints};
ghost use Rattle.stack_text.specs.Cells.{CellsStand, stack_in};

use cell_memory::Cell;

// The space before the symbols of order-1 cell n, where it has any.
fn put_between(text: &mut [u8], at: usize, cells: &[u8], count: usize, n: usize) -> Option<usize>
    requires { CellsStand count cells.now × (n < count) × (order_at (cells_in count cells.now) n ≡ 1) }
    ensures { Prints (page (Some at) text.old) (between (order1 (stack_in count cells.now n))) (page result text.new) }
{
    let cell = start_records::cell_at(cells, n);
    let Cell::Symbol(_, _, _) = cell else {
        return Some(at);
    };
    bounded_text::put_bytes(text, at, b" ")
}

// The number of a symbol, and a space.
fn put_symbol(text: &mut [u8], at: usize, a: u16) -> Option<usize>
    ensures { Prints (page (Some at) text.old) (decimal a ++ ascii " ") (page result text.new) }
{
    let space = bounded_text::put_number(text, at, a as u64)?;
    bounded_text::put_bytes(text, space, b" ")
}

// The symbols of order-1 cell n, of the first `count` cells, each with its annotation.
#[cycle(stacks)]
fn put_symbols(text: &mut [u8], at: usize, cells: &[u8], count: usize, n: usize) -> Option<usize>
    requires { CellsStand count cells.now × (n < count) × (order_at (cells_in count cells.now) n ≡ 1) }
    ensures { Prints (page (Some at) text.old) (symbols_text (order1 (stack_in count cells.now n))) (page result text.new) }
{
    let cell = start_records::cell_at(cells, n);
    let Cell::Symbol(a, u, s) = cell else {
        return Some(at);
    };
    let order = put_symbol(text, at, a)?;
    let after = put_annotation(text, order, cells, count, u as usize)?;
    let next = put_between(text, after, cells, count, s as usize)?;
    put_symbols(text, next, cells, count, s as usize)
}

// The order-1 stacks of order-2 cell n, of the first `count` cells, each in square brackets.
#[cycle(stacks)]
fn put_stacks(text: &mut [u8], at: usize, cells: &[u8], count: usize, n: usize) -> Option<usize>
    requires { CellsStand count cells.now × (n < count) × (order_at (cells_in count cells.now) n ≡ 2) }
    ensures { Prints (page (Some at) text.old) (stacks_text (order2 (stack_in count cells.now n))) (page result text.new) }
{
    let cell = start_records::cell_at(cells, n);
    let Cell::Above(w, t) = cell else {
        return Some(at);
    };
    let symbols = bounded_text::put_bytes(text, at, b"[")?;
    let close = put_symbols(text, symbols, cells, count, w as usize)?;
    let next = bounded_text::put_bytes(text, close, b"]")?;
    put_stacks(text, next, cells, count, t as usize)
}

// The stack in cell n, of the first `count` cells, as an annotation: its order, and it in braces.
#[cycle(stacks)]
fn put_annotation(text: &mut [u8], at: usize, cells: &[u8], count: usize, n: usize) -> Option<usize>
    requires { CellsStand count cells.now × (n < count) }
    ensures { Prints (page (Some at) text.old) (annotation_text (stack_in count cells.now n)) (page result text.new) }
{
    if start_records::order_at(cells, count, n) == 1 {
        let symbols = bounded_text::put_bytes(text, at, b"1{[")?;
        let close = put_symbols(text, symbols, cells, count, n)?;
        return bounded_text::put_bytes(text, close, b"]}");
    }
    let stacks = bounded_text::put_bytes(text, at, b"2{[")?;
    let close = put_stacks(text, stacks, cells, count, n)?;
    bounded_text::put_bytes(text, close, b"]}")
}

// The order-2 stack in cell n, of the first `count` cells, as nested square brackets, from the start of the text.
pub fn put_stack(text: &mut [u8], cells: &[u8], count: usize, n: usize) -> Option<usize>
    requires { CellsStand count cells.now × (n < count) × (order_at (cells_in count cells.now) n ≡ 2) }
    ensures { Prints (page (Some 0) text.old) (stack_text (order2 (stack_in count cells.now n))) (page result text.new) }
{
    let stacks = bounded_text::put_bytes(text, 0, b"[")?;
    let close = put_stacks(text, stacks, cells, count, n)?;
    bounded_text::put_bytes(text, close, b"]")
}
