// The guided run on lent cells, with its halts: "a walk is tested for arrival first, then trace, then cells".
#![tactic(auto)]

ghost use Rattle.std.specs.Prelude.{◌≡◌, [], ◌<◌, ◌≤◌, ◌+◌, ◌*◌, ◌-◌, ◌^◌, length};
ghost use Rattle.automata.specs.Automaton.{move_at, entry_edge};
ghost use Rattle.stacks.specs.Stack.{new_cells};
ghost use Rattle.walks.specs.Guide.{guided};
ghost use Rattle.words.specs.Lists.{zeros};
ghost use Rattle.case_records.specs.Values.{the_operation};
ghost use Rattle.results.specs.Collecting.{rules_held};
ghost use Rattle.cell_steps.specs.Steps.Choices.{top_state};
ghost use Rattle.first_reading.specs.Words.{WordsForEach};
ghost use Rattle.guided_step.specs.Walks.{walk_in};
ghost use Rattle.saturation.specs.Held.{saturated_by};
ghost use Rattle.guided_walk.specs.Stepped.{moves_only, moves_held, BytesFit, move_choice, entry_choice, no_choice, choice_by, StepStands, Steps};
ghost use Rattle.guided_walk.specs.Turns.{RunStands, Leaves, counts_in, Walking, StepAnswers, TurnAnswers};

use case_records::{Operation, Rule, Rules};
use cell_steps::{Choice, Top};
use guided_step::{Next, Walk};
use limits::Limits;
use replies::{Counts, Halt, Reply};
use saturation::AfterRounds;
use tables::{Table, Tables};

// ---- a step

// The number of entry `entry` as an edge.
fn entry_edge(z: Table, entry: u64) -> u16
    requires { (z.edges ≤ 64) × (entry < 1024) }
    ensures { result ≡ entry_edge (moves_only z []) entry }
{
    (z.edges as u64 + entry) as u16
}

// The choices of the new cells where the premise is a move.
fn by_move(tables: &Tables<'_>, next: u64, premise: u64) -> Choice
    requires { (tables.now.table.edges ≤ 64) × (premise < 1024) × ((move_at (moves_held tables.now) premise).state < 64) }
    ensures { result ≡ move_choice (moves_held tables.now) next premise }
{
    let z = tables.table;
    let m = tables.move_of(premise as usize);
    Choice {
        state: m.state,
        number: premise as u16,
        control: next,
        edge: entry_edge(z, m.state.saturating_sub(z.inner1)),
    }
}

// The choices of the new root where the premise is an entry.
fn by_entry(z: Table, next: u64, premise: u64) -> Choice
    requires { (z.edges ≤ 64) × (premise < 1024) }
    ensures { result ≡ entry_choice (moves_only z []) next premise }
{
    Choice {
        state: 0,
        number: premise as u16,
        control: next,
        edge: entry_edge(z, premise),
    }
}

// No choices, where there are no new cells.
fn by_none(next: u64, premise: u64) -> Choice
    requires { premise < 1024 }
    ensures { result ≡ no_choice next premise }
{
    Choice {
        state: 0,
        number: premise as u16,
        control: next,
        edge: 0,
    }
}

// The choices of the operation's new cells.
fn by_operation(tables: &Tables<'_>, op: Operation, next: u64, premise: u64) -> Choice
    requires { (tables.now.table.edges ≤ 64) × (premise < 1024) × (top_state (moves_held tables.now) (the_operation op) premise < 64) }
    ensures { result ≡ choice_by (moves_held tables.now) next premise (the_operation op) }
{
    match op {
        Operation::Rewrite(_) | Operation::Push1(_) | Operation::Push2(_) | Operation::Copy => {
            by_move(tables, next, premise)
        }
        Operation::Pop1 | Operation::Collapse1 => by_entry(tables.table, next, premise),
        Operation::Pop2 | Operation::Collapse2 => by_none(next, premise),
    }
}

// Writes the new cells of a step with their choices, and answers the walk after it.
fn take_step(
    tables: &Tables<'_>,
    op: Operation,
    next: u64,
    premise: u64,
    x: Top,
    cells: &mut [u16],
    w: Walk,
    edges: &[u16],
    chosen: &[u16],
) -> Walk
    requires step_stands { StepStands (moves_held tables.now) (the_operation op) next premise x × (tables.now.table.edges ≤ 64)
        × ((w.cells + new_cells (the_operation op)) * 68 ≤ length cells.old) × (w.cells ≤ 4096) × (w.steps + 1 < 2 ^ 64) }
    requires edges_len { WordsForEach edges.now chosen.now }
    ensures { Steps (moves_held tables.now) (the_operation op) next premise x edges.now chosen.now w cells.old result cells.new }
{
    let n = w.cells;
    let choice = by_operation(tables, op, next, premise);
    cell_steps::put_step(cells, n, op, x, choice, edges, chosen);
    Walk {
        control: next,
        root: cell_steps::root_after(op, n, x) as u16,
        cells: n + cell_steps::new_cells(op),
        steps: w.steps + 1,
    }
}

// ---- a turn

// Kept (4): no plainer as `From<Walk> for Counts`, for which `guided_step` would need `replies`.
//
// The counts of a walk.
fn counts(w: Walk) -> Counts
    ensures { result ≡ counts_in w }
{
    Counts {
        steps: w.steps as u64,
        cells: w.cells as u64,
    }
}

// What a turn answers: the walk halts, is stuck, or goes on.
#[derive(Clone, Copy)]
enum Going {
    Halted(Halt),
    Stuck,
    On(Walk),
}

// A step by this rule, where there is room for it in the trace and the cells.
fn go_on(
    tables: &Tables<'_>,
    rule: Rule,
    n: u64,
    premise: u64,
    x: Top,
    cells: &mut [u16],
    most: usize,
    trace: &mut [u16],
    w: Walk,
    edges: &[u16],
    chosen: &[u16],
) -> Going
    requires step_stands { StepStands (moves_held tables.now) (the_operation rule.operation) rule.next premise x × (tables.now.table.edges ≤ 64)
        × (n < 2 ^ 16) × (most * 68 ≤ length cells.old) × (most ≤ 4096) × Walking most w trace.old }
    requires edges_len { WordsForEach edges.now chosen.now }
    ensures { StepAnswers most (moves_held tables.now) (the_operation rule.operation) rule.next n premise x edges.now chosen.now
        w cells.old trace.old result cells.new trace.new }
{
    let steps = w.steps;
    if trace.len() <= steps {
        return Going::Halted(Halt::TraceFull(counts(w)));
    }
    let op = rule.operation;
    if most < w.cells + cell_steps::new_cells(op) {
        return Going::Halted(Halt::CellsShort(counts(w)));
    }
    trace[steps] = n as u16;
    Going::On(take_step(tables, op, rule.next, premise, x, cells, w, edges, chosen))
}

// The bytes of a slice are below 256. Nothing is done: the type says so, and the symbol of a rule is small by it.
fn bytes_fit(body: &[u8])
    ensures { BytesFit body.now }
{}

// One turn of the walk.
fn advance(
    run: &AfterRounds<'_>,
    rules: &Rules<'_>,
    cells: &mut [u16],
    most: usize,
    trace: &mut [u16],
    w: Walk,
) -> Going
    requires { RunStands run.now.tables.table rules.now.body.now rules.now.count cells.old most × Walking most w trace.old }
    ensures { TurnAnswers (rules_held rules.now) (saturated_by run.now) most w cells.old trace.old result cells.new trace.new }
{
    let mut edges = [0u16; Limits::STATES1];
    let mut chosen = [0u16; Limits::STATES1];
    match guided_step::next_step(run, rules, cells, w, &mut edges, &mut chosen) {
        Next::Arrived => Going::Halted(Halt::Arrived(counts(w))),
        Next::Stuck => Going::Stuck,
        Next::To(x, n, premise) => {
            bytes_fit(rules.body);
            let rule = rules.rule_at(n as usize);
            go_on(
                &run.tables,
                rule,
                n,
                premise,
                x,
                cells,
                most,
                trace,
                w,
                &edges,
                &chosen,
            )
        }
    }
}

// The guided run: what it answers, with the numbers of its steps' rules in the trace. The cells of the walk stand before it, and the trace is
// all zero.
pub fn walk(
    run: &AfterRounds<'_>,
    rules: &Rules<'_>,
    cells: &mut [u16],
    most: usize,
    trace: &mut [u16],
    w: Walk,
) -> Reply
    requires run_stands { RunStands run.now.tables.table rules.now.body.now rules.now.count cells.old most }
    requires cells_le_most { (w.cells ≤ most) × (w.steps ≡ 0) × (trace.old ≡ zeros (length trace.old)) }
    ensures { Leaves (guided (rules_held rules.now) (saturated_by run.now) most (length trace.old) []
        (walk_in w cells.old)) (length trace.old) result trace.new }
{
    let mut v = w;
    loop {
        match advance(run, rules, cells, most, trace, v) {
            Going::Halted(h) => return Reply::Walked(h),
            Going::Stuck => {
                zeroing::zero(trace);
                return Reply::NoRun;
            }
            Going::On(next) => v = next,
        }
    }
}
