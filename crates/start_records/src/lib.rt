// The records of a start file: what each one's bytes stand for, and whether it keeps the bounds of its body.
#![tactic(auto)]

ghost use Rattle.std.specs.Prelude.{◌≡◌, map, ◌≤◌, ◌+◌, ◌*◌, length};
ghost use Rattle.files.specs.Bytes.{records};
ghost use Rattle.files.specs.Start.{start_of, cell_bytes, order_of, refers_to, cell_right, start_right, cell_of};
ghost use Rattle.bytes_in.specs.Records.{record_at};
ghost use Rattle.walks.specs.Cell.Formed.{cell_order, order_at};
ghost use Rattle.cell_memory.specs.Memory;
ghost use Rattle.start_records.specs.Values.{the_start, the_fields, FieldsSmall};
ghost use Rattle.start_records.specs.Body.{cells_in};
ghost use Rattle.start_records.specs.Cells.{empty_right, symbol_right, above_right};

use cell_memory::Cell;
use limits::Limits;

// ---- values and readers

// The first cells of a body.
#[derive(Clone, Copy)]
pub struct Cells<'a> {
    pub body: &'a [u8],
    pub count: usize,
    ghost fit: { count * 6 ≤ length body.now },
    ghost few: { count ≤ 256 },
}

// A start's control and root cell.
#[derive(Clone, Copy, PartialEq, Eq)]
pub struct Start {
    pub control: u64,
    pub root: u64,
}

// Kept (1): the kind is a byte of a file, and `cell_right` answers for every byte; `cell_memory::Cell` stands for a cell that is right.
//
// A cell's kind, symbol, first and second.
#[derive(Clone, Copy, PartialEq, Eq)]
pub struct Fields {
    pub kind: u64,
    pub symbol: u64,
    pub first: u64,
    pub second: u64,
}

// A record of body 1.
fn read_start(b: &[u8]) -> Start
    requires { length b.now ≡ 3 }
    ensures { the_start result ≡ start_of b.now }
{
    Start {
        control: bytes_in::byte_at(b, 0),
        root: bytes_in::number2(b, 1),
    }
}

// A record of body 2.
fn read_fields(b: &[u8]) -> Fields
    requires { length b.now ≡ 6 }
    ensures result_value { the_fields result ≡ cell_bytes b.now }
    ensures fields_small { FieldsSmall result }
{
    Fields {
        kind: bytes_in::byte_at(b, 0),
        symbol: bytes_in::byte_at(b, 1),
        first: bytes_in::number2(b, 2),
        second: bytes_in::number2(b, 4),
    }
}

// Record number i of body 1.
pub fn start_at(body: &[u8], i: usize) -> Start
    requires { i * 3 + 3 ≤ length body.now }
    ensures { the_start result ≡ start_of (record_at 3 i body.now) }
{
    read_start(bytes_in::record(body, i, Limits::START_BYTES))
}

// Record number i of body 2.
pub fn fields_at(body: &[u8], i: usize) -> Fields
    requires { i * 6 + 6 ≤ length body.now }
    ensures result_value { the_fields result ≡ cell_bytes (record_at 6 i body.now) }
    ensures fields_small { FieldsSmall result }
{
    read_fields(bytes_in::record(body, i, Limits::CELL_BYTES))
}

// The cell of these fields.
fn cell_of(x: Fields) -> Cell
    requires { FieldsSmall x }
    ensures { Memory.cell_of result ≡ cell_of (the_fields x) }
{
    match x.kind {
        Limits::EMPTY1_CELL => Cell::Empty1,
        Limits::SYMBOL_CELL => Cell::Symbol(x.symbol as u16, x.first as u16, x.second as u16),
        Limits::EMPTY2_CELL => Cell::Empty2,
        _ => Cell::Above(x.first as u16, x.second as u16),
    }
}

// Cell number i of body 2.
pub fn cell_at(body: &[u8], i: usize) -> Cell
    requires { i * 6 + 6 ≤ length body.now }
    ensures { Memory.cell_of result ≡ cell_of (cell_bytes (record_at 6 i body.now)) }
{
    cell_of(fields_at(body, i))
}

// The order of the stack that a cell stands for.
fn cell_order(cell: Cell) -> u64
    ensures { result ≡ cell_order (Memory.cell_of cell) }
{
    match cell {
        Cell::Empty1 | Cell::Symbol(_, _, _) => 1,
        Cell::Empty2 | Cell::Above(_, _) => 2,
    }
}

// The order of cell i, of the first n in the body, and 1 where there is none.
pub fn order_at(body: &[u8], n: usize, i: usize) -> u64
    requires { n * 6 ≤ length body.now }
    ensures { result ≡ order_at (cells_in n body.now) i }
{
    if i < n {
        cell_order(cell_at(body, i))
    } else {
        1
    }
}

// ---- bounds

// The order of a cell of this kind.
fn order_of(kind: u64) -> u64
    ensures { result ≡ order_of kind }
{
    if kind <= Limits::SYMBOL_CELL { 1 } else { 2 }
}

// Cell x is one of these cells and has this order.
fn refers_to(cells: &Cells, order: u64, x: usize) -> bool
    ensures { result ≡ refers_to (map cell_bytes (records cells.now.count 6 cells.now.body.now)) cells.now.count order x }
{
    x < cells.count && order_of(fields_at(cells.body, x).kind) == order
}

// An empty stack's cell: its other fields are unused.
fn empty_right(x: Fields) -> bool
    ensures { result ≡ empty_right (the_fields x) }
{
    x.symbol == 0 && x.first == 0 && x.second == 0
}

// A symbol's cell, where there are so many symbols: its annotation and its order-1 rest are among the cells below it.
fn symbol_right(symbols: u64, below: &Cells, x: Fields) -> bool
    ensures { result ≡ symbol_right symbols (map cell_bytes (records below.now.count 6 below.now.body.now)) below.now.count (the_fields x) }
{
    x.symbol < symbols && x.first < below.count as u64 && refers_to(below, 1, x.second as usize)
}

// The cell of an order-1 stack on an order-2 stack, both among the cells below it.
fn above_right(below: &Cells, x: Fields) -> bool
    ensures { result ≡ above_right (map cell_bytes (records below.now.count 6 below.now.body.now)) below.now.count (the_fields x) }
{
    let above = x.kind == Limits::ABOVE_CELL && x.symbol == 0;
    above && refers_to(below, 1, x.first as usize) && refers_to(below, 2, x.second as usize)
}

// The cell with these cells below it keeps the bounds of its kind, where there are so many symbols.
pub fn cell_right(symbols: u64, below: &Cells, x: Fields) -> bool
    ensures { result ≡ cell_right symbols (map cell_bytes (records below.now.count 6 below.now.body.now)) below.now.count (the_fields x) }
{
    match x.kind {
        Limits::EMPTY1_CELL => empty_right(x),
        Limits::SYMBOL_CELL => symbol_right(symbols, below, x),
        Limits::EMPTY2_CELL => empty_right(x),
        _ => above_right(below, x),
    }
}

// The start names a control, of which there are so many, and one of the cells, of order 2.
pub fn start_right(controls: u64, cells: &Cells, x: Start) -> bool
    ensures { result ≡ start_right controls (map cell_bytes (records cells.now.count 6 cells.now.body.now)) (the_start x) }
{
    x.control < controls && refers_to(cells, 2, x.root as usize)
}
