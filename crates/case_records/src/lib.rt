// The records of a case file: what each one's bytes stand for, and whether it keeps the bounds of its body.
#![tactic(auto)]

ghost use Rattle.std.specs.Prelude.{◌≡◌, true, ◌<◌, ◌≤◌, ◌+◌, ◌*◌, length};
ghost use Rattle.files.specs.Case;
ghost use Rattle.files.specs.Case.{head_of, head_right, rule_bytes, rule_right, operation_of, rule_of, edge_bytes, edge_right, move_of, annotation_right, move_right, move_key};
ghost use Rattle.words.specs.Order.{less};
ghost use Rattle.bytes_in.specs.Records.{record_at};
ghost use Rattle.case_records.specs.Values.{the_head, the_operation, code_of, the_rule, the_edge};
ghost use Rattle.tables.specs.Records.{as_move};
ghost use Rattle.case_records.specs.Bounds.{first_right};
ghost use Rattle.case_records.specs.Keys.{order_byte, edge_order};

mod rules;

use limits::Limits;
pub use rules::Rules;
use tables::Move;

// ---- values

// The numbers of controls P, inner order-2 states I, inner order-1 states J and symbols A, and the final sets.
#[derive(Clone, Copy, PartialEq, Eq)]
pub struct Head {
    pub controls: u64,
    pub inner2: u64,
    pub inner1: u64,
    pub symbols: u64,
    pub final2: u64,
    pub final1: u64,
}

// A head whose numbers and final sets are in range.
#[derive(Clone, Copy)]
pub struct RightHead {
    pub head: Head,
    ghost right: { head_right (the_head head) ≡ true },
}

// The eight operations; the first three name a symbol b.
#[derive(Clone, Copy, PartialEq, Eq)]
pub enum Operation {
    Rewrite(u64),
    Push1(u64),
    Push2(u64),
    Copy,
    Pop1,
    Pop2,
    Collapse1,
    Collapse2,
}

// The rule (p, a, operation, b, p').
#[derive(Clone, Copy, PartialEq, Eq)]
pub struct Rule {
    pub control: u64,
    pub symbol: u64,
    pub operation: Operation,
    pub next: u64,
}

// An edge's order-2 state, its order-1 state or 254 or 255 (`first`, the second byte) and its set S.
#[derive(Clone, Copy, PartialEq, Eq)]
pub struct Edge {
    pub state: u64,
    pub first: u64,
    pub s: u64,
}

// ---- readers

// Body 1's record.
pub fn read_head(b: &[u8]) -> Head
    requires { length b.now ≡ 14 }
    ensures { the_head result ≡ head_of b.now }
{
    Head {
        controls: bytes_in::byte_at(b, 0),
        inner2: bytes_in::byte_at(b, 1),
        inner1: bytes_in::byte_at(b, 2),
        symbols: bytes_in::byte_at(b, 3),
        final2: bytes_in::number2(b, 4),
        final1: bytes_in::number8(b, 6),
    }
}

// The operation of our code, from 1 to 8.
// Kept (4): `From` takes one value, and the operation needs b beside the code.
fn operation_of(code: u64, b: u64) -> Operation
    ensures { the_operation result ≡ operation_of code b }
{
    match code {
        0 | 1 => Operation::Rewrite(b),
        2 => Operation::Push1(b),
        3 => Operation::Push2(b),
        4 => Operation::Copy,
        5 => Operation::Pop1,
        6 => Operation::Pop2,
        7 => Operation::Collapse1,
        _ => Operation::Collapse2,
    }
}

// Our code of the operation.
// Kept (4): `u64::from(op)` is no plainer, since it does not say that the number is our code.
pub fn code_of(op: Operation) -> u64
    ensures { result ≡ code_of (the_operation op) }
{
    match op {
        Operation::Rewrite(_) => 1,
        Operation::Push1(_) => 2,
        Operation::Push2(_) => 3,
        Operation::Copy => 4,
        Operation::Pop1 => 5,
        Operation::Pop2 => 6,
        Operation::Collapse1 => 7,
        Operation::Collapse2 => 8,
    }
}

// A record of body 2, in our codes.
fn read_rule(b: &[u8]) -> Rule
    requires { length b.now ≡ 5 }
    ensures { the_rule result ≡ rule_of (rule_bytes b.now) }
{
    let code = bytes_in::byte_at(b, 2);
    let symbol = bytes_in::byte_at(b, 3);
    let operation = operation_of(code, symbol);
    Rule {
        control: bytes_in::byte_at(b, 0),
        symbol: bytes_in::byte_at(b, 1),
        operation,
        next: bytes_in::byte_at(b, 4),
    }
}

// A record of body 3.
fn read_edge(b: &[u8]) -> Edge
    requires { length b.now ≡ 4 }
    ensures { the_edge result ≡ edge_bytes b.now }
{
    Edge {
        state: bytes_in::byte_at(b, 0),
        first: bytes_in::byte_at(b, 1),
        s: bytes_in::number2(b, 2),
    }
}

// A record of body 4.
fn read_move(b: &[u8]) -> Move
    requires { length b.now ≡ 19 }
    ensures { as_move result ≡ move_of b.now }
{
    Move {
        state: bytes_in::byte_at(b, 0),
        symbol: bytes_in::byte_at(b, 1),
        order: bytes_in::byte_at(b, 2),
        b: bytes_in::number8(b, 3),
        r: bytes_in::number8(b, 11),
    }
}

// Kept (2): tried as a trait of records; the impl for `tables::Move` is refused here (orphan-impl), and each reader is one line.

// Record number i of body 2, in our codes.
pub fn rule_at(body: &[u8], i: usize) -> Rule
    requires { i * 5 + 5 ≤ length body.now }
    ensures { the_rule result ≡ rule_of (rule_bytes (record_at 5 i body.now)) }
{
    read_rule(bytes_in::record(body, i, Limits::RULE_BYTES))
}

// Record number i of body 3.
pub fn edge_at(body: &[u8], i: usize) -> Edge
    requires { i * 4 + 4 ≤ length body.now }
    ensures { the_edge result ≡ edge_bytes (record_at 4 i body.now) }
{
    read_edge(bytes_in::record(body, i, Limits::EDGE_BYTES))
}

// Record number i of body 4.
pub fn move_at(body: &[u8], i: usize) -> Move
    requires { i * 19 + 19 ≤ length body.now }
    ensures { as_move result ≡ move_of (record_at 19 i body.now) }
{
    read_move(bytes_in::record(body, i, Limits::MOVE_BYTES))
}

// ---- bounds

// The set names inner order-1 states only.
fn inner1(h: Head, s: u64) -> bool
    requires { h.inner1 ≤ 16 }
    ensures { result ≡ Case.inner1 (the_head h) s }
{
    sets::all_below(s, h.inner1)
}

// The set names order-2 states that exist.
fn existing2(h: Head, s: u64) -> bool
    requires { (h.controls ≤ 8) × (h.inner2 ≤ 8) }
    ensures { result ≡ Case.existing2 (the_head h) s }
{
    sets::all_below(s, h.controls + h.inner2)
}

// The set names inner order-2 states only.
fn inner2(h: Head, s: u64) -> bool
    requires { (h.controls ≤ 8) × (h.inner2 ≤ 8) }
    ensures { result ≡ Case.inner2 (the_head h) s }
{
    sets::none_below(s, h.controls) && existing2(h, s)
}

// The numbers and the final sets are in range: the final order-2 set may name controls.
pub fn head_right(h: Head) -> bool
    ensures { result ≡ head_right (the_head h) }
{
    let controls = 1 <= h.controls && h.controls <= Limits::CONTROLS;
    let inner = h.inner2 <= Limits::INNER2 && h.inner1 <= Limits::INNER1;
    let symbols = 1 <= h.symbols && h.symbols <= Limits::SYMBOLS;
    controls && inner && symbols && existing2(h, h.final2) && inner1(h, h.final1)
}

// The record of body 2, in our codes, names a control, a symbol, a code, a right b and a control.
pub fn rule_right(h: Head, b: &[u8]) -> bool
    requires { length b.now ≡ 5 }
    ensures { result ≡ rule_right (the_head h) (rule_bytes b.now) }
{
    let control = bytes_in::byte_at(b, 0);
    let symbol = bytes_in::byte_at(b, 1);
    let code = bytes_in::byte_at(b, 2);
    let next = bytes_in::byte_at(b, 4);
    let exist = control < h.controls && symbol < h.symbols && next < h.controls;
    let known = 1 <= code && code <= Limits::OPERATIONS as u64;
    exist && known && operations::operand_right(code, h.symbols, bytes_in::byte_at(b, 3))
}

// Whether the second byte is right for the state: 254 or 255 for a control, and an inner order-1 state for an inner state.
fn first_right(h: Head, e: Edge) -> bool
    ensures { result ≡ first_right (the_head h) (the_edge e) }
{
    if e.state < h.controls {
        matches!(e.first, Limits::FINAL_MARK | Limits::ENTRY_MARK)
    } else {
        e.first < h.inner1
    }
}

// The edge names a state, a right second byte and inner order-2 states.
pub fn edge_right(right: RightHead, e: Edge) -> bool
    ensures { result ≡ edge_right (the_head right.head) (the_edge e) }
{
    let h = right.head;
    first_right(h, e) && e.state < h.controls + h.inner2 && inner2(h, e.s)
}

// B is empty exactly at order 0, and names inner states of the annotation's order.
fn annotation_right(right: RightHead, order: u64, b: u64) -> bool
    ensures { result ≡ annotation_right (the_head right.head) order b }
{
    match order {
        0 => b == 0,
        1 => b != 0 && inner1(right.head, b),
        2 => b != 0 && inner2(right.head, b),
        _ => false,
    }
}

// The move names an order-1 state, of which there are n, a symbol, a right B and inner order-1 states.
pub fn move_right(right: RightHead, n: u64, m: Move) -> bool
    ensures { result ≡ move_right (the_head right.head) n (as_move m) }
{
    let h = right.head;
    m.state < n && m.symbol < h.symbols && annotation_right(right, m.order, m.b) && inner1(h, m.r)
}

// ---- order

// The second byte as it counts in the order of edges: that of an entry does not, so that a second entry for the same state and S does not
// come after the first.
fn order_byte(h: Head, e: Edge) -> u64
    ensures { result ≡ order_byte (the_head h) (the_edge e) }
{
    if e.state < h.controls { 0 } else { e.first }
}

// The edge x comes before y: by (state, S, second byte), and entries by (state, S).
pub fn edge_before(h: Head, x: Edge, y: Edge) -> bool
    ensures { result ≡ less (edge_order (the_head h) (the_edge x)) (edge_order (the_head h) (the_edge y)) }
{
    (x.state, x.s, order_byte(h, x)) < (y.state, y.s, order_byte(h, y))
}

// The move x comes before y by (state, symbol, order, B, R).
pub fn move_before(x: Move, y: Move) -> bool
    ensures { result ≡ less (move_key (as_move x)) (move_key (as_move y)) }
{
    (x.state, x.symbol, x.order, x.b, x.r) < (y.state, y.symbol, y.order, y.b, y.r)
}
