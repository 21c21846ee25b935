// One step of a replay on cells in lent bytes: whether a rule exists and applies, whether there is room for its new cells, and the step.
#![tactic(auto)]

ghost use Rattle.std.specs.Prelude.{◌≡◌, ◌<◌, ◌≤◌, ◌+◌, ◌*◌, length, Some};
ghost use Rattle.stacks.specs.Stack.{new_cells};
ghost use Rattle.case_records.specs.Values.{the_operation, the_rule};
ghost use Rattle.results.specs.Collecting.{rules_in, RulesStand};
ghost use Rattle.cell_memory.specs.Memory.{cell_of};
ghost use Rattle.cell_steps.specs.Steps.{cell_number, symbol_of};
ghost use Rattle.start_records.specs.Body.{cells_in};
ghost use Rattle.replay_step.specs.Top.{found_top, top_on, top_in, takes_order, rule_fits};
ghost use Rattle.replay_step.specs.Place.{PlaceStands, Moved, RuleAnswers, StepAnswers};

use case_records::{Operation, Rule};
use cell_memory::Cell;
use cell_steps::Top;

// Where a replay stands: its control, its root cell, and the number of cells used.
#[derive(Clone, Copy)]
pub struct Place {
    pub control: u64,
    pub root: u16,
    pub cells: usize,
}

// ---- the top

// Cell i of the first n, and an empty order-1 stack where there is none.
fn cell_of(cells: &[u8], n: usize, i: u16) -> Cell
    requires { n * 6 ≤ length cells.now }
    ensures { cell_of result ≡ cell_number (cells_in n cells.now) i }
{
    let at = i as usize;
    if at < n {
        return start_records::cell_at(cells, at);
    }
    Cell::Empty1
}

// The top where order-1 cell c, of the first n, stands on order-2 cell t: none where it is empty.
fn top_on(cells: &[u8], n: usize, c: u16, t: u16) -> Option<Top>
    requires { n * 6 ≤ length cells.now }
    ensures { found_top result ≡ top_on t (cell_number (cells_in n cells.now) c) }
{
    let Cell::Symbol(symbol, annotation, rest) = cell_of(cells, n, c) else {
        return None;
    };
    Some(Top {
        symbol,
        annotation,
        rest,
        below: t,
    })
}

// The top of the stack that cell `root`, of the first n, stands for: none where the stack or its top order-1 stack is empty.
fn top_in(cells: &[u8], n: usize, root: u16) -> Option<Top>
    requires { n * 6 ≤ length cells.now }
    ensures { found_top result ≡ top_in (cells_in n cells.now) root }
{
    let Cell::Above(c, t) = cell_of(cells, n, root) else {
        return None;
    };
    top_on(cells, n, c, t)
}

// ---- whether a rule applies

// Whether the operation takes an annotation of this order: a collapse asks for its own.
fn takes_order(op: Operation, order: u64) -> bool
    ensures { result ≡ takes_order (the_operation op) order }
{
    match op {
        Operation::Rewrite(_)
        | Operation::Push1(_)
        | Operation::Push2(_)
        | Operation::Copy
        | Operation::Pop1
        | Operation::Pop2 => true,
        Operation::Collapse1 => order == 1,
        Operation::Collapse2 => order == 2,
    }
}

// Whether the rule applies at this control, to a top symbol whose annotation has this order.
fn rule_fits(rule: Rule, control: u64, symbol: u16, order: u64) -> bool
    ensures { result ≡ rule_fits (the_rule rule) control symbol order }
{
    control == rule.control && symbol as u64 == rule.symbol && takes_order(rule.operation, order)
}

// ---- the step

// Writes the new cells of the operation on x, and answers the place after it.
fn take_step(op: Operation, next: u64, x: Top, cells: &mut [u8], w: Place) -> Place
    requires { ((w.cells + new_cells (the_operation op)) * 6 ≤ length cells.old) × (w.cells ≤ 4096) × (symbol_of (the_operation op) < 256) × (x.symbol < 256) }
    ensures { Moved (the_operation op) next x w cells.old result cells.new }
{
    let n = w.cells;
    replay_cells::put_cells(cells, n, op, x);
    Place {
        control: next,
        root: cell_steps::root_after(op, n, x) as u16,
        cells: n + cell_steps::new_cells(op),
    }
}

// Why a step is not taken: its rule does not exist or does not apply, or there is no room for its new cells.
#[derive(Clone, Copy)]
pub enum Stop {
    Fails,
    Short,
}

// A step by this rule at top x, with at most so many cells.
fn step_by(rule: Rule, x: Top, cells: &mut [u8], most: usize, w: Place) -> Result<Place, Stop>
    requires place_stands { PlaceStands w cells.old × (found_top (Some x) ≡ top_in (cells_in w.cells cells.old) w.root) × (rule.symbol < 256)
        × (symbol_of (the_operation rule.operation) < 256) × (rule.next < 64) }
    requires cells_le_most { (w.cells ≤ most) × (most * 6 ≤ length cells.old) × (most ≤ 4096) }
    ensures { RuleAnswers (the_rule rule) most w cells.old result cells.new }
{
    let order = start_records::order_at(cells, w.cells, x.annotation as usize);
    if !rule_fits(rule, w.control, x.symbol, order) {
        return Err(Stop::Fails);
    }
    let op = rule.operation;
    if most < w.cells + cell_steps::new_cells(op) {
        return Err(Stop::Short);
    }
    Ok(take_step(op, rule.next, x, cells, w))
}

// A step by rule `number` of the first `count` in the body, with at most so many cells.
pub fn replay_step(
    body: &[u8],
    count: usize,
    number: u64,
    cells: &mut [u8],
    most: usize,
    w: Place,
) -> Result<Place, Stop>
    requires { RulesStand count body.now × PlaceStands w cells.old × (w.cells ≤ most) × (most * 6 ≤ length cells.old) × (most ≤ 4096) }
    ensures { StepAnswers (rules_in count body.now) most number w cells.old result cells.new }
{
    let at = number as usize;
    if count <= at {
        return Err(Stop::Fails);
    }
    let rule = case_records::rule_at(body, at);
    match top_in(cells, w.cells, w.root) {
        None => Err(Stop::Fails),
        Some(x) => step_by(rule, x, cells, most, w),
    }
}
