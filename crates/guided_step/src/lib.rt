// One step of the guided run: the top of the walk with its chosen move, and the move's first derivation from the table before its round.
#![tactic(auto)]

ghost use Rattle.std.specs.Prelude.{◌≡◌, [], ◌<◌, ◌≤◌, ◌+◌, ◌*◌, length, get_or, replicate};
ghost use Rattle.automata.specs.Automaton.{no_edge};
ghost use Rattle.automata.specs.Derivation.{result_of};
ghost use Rattle.automata.specs.Saturation.{own_moves, last_up_to, before};
ghost use Rattle.walks.specs.Guide.{no_guided, guided_at, top_of, top_on};
ghost use Rattle.tables.specs.Records.{as_move, as_result};
ghost use Rattle.tables.specs.Held.{automaton_of, edges_in};
ghost use Rattle.tables.specs.View.{entries_in};
ghost use Rattle.cell_memory.specs.Memory.{cell_of, guided_in};
ghost use Rattle.results.specs.Collecting.{rules_held};
ghost use Rattle.first_reading.specs.Words.{TablesFew, WordsForEach};
ghost use Rattle.first_derivation.specs.Derived.{StatesSmall};
ghost use Rattle.saturation.specs.Sizes.{the_size, as_size};
ghost use Rattle.saturation.specs.Held.{saturated_by};
ghost use Rattle.guided_step.specs.Walks.{walk_in, tip_of};
ghost use Rattle.guided_step.specs.Earlier.{table_up_to};
ghost use Rattle.guided_step.specs.Step.{FindsBefore, AtTop, NextIs};

use case_records::Rules;
use cell_memory::Cell;
use cell_steps::Top;
use first_derivation::Derivation;
use saturation::{AfterRounds, Size};
use tables::{Move, Result, Table, Tables};

// The state of a walk: its control, its root cell, and the numbers of cells used and steps taken.
#[derive(Clone, Copy)]
pub struct Walk {
    pub control: u64,
    pub root: u16,
    pub cells: usize,
    pub steps: usize,
}

impl Walk {
    // A walk that has taken no step, on the cells of a start file.
    pub fn start(control: u64, root: u16, cells: usize) -> Walk
        ensures { (result.control ≡ control) × (result.root ≡ root) × (result.cells ≡ cells) × (result.steps ≡ 0) }
    {
        Walk {
            control,
            root,
            cells,
            steps: 0,
        }
    }
}

// ---- the top of a walk

// Kept (2): `replay_step` has the same on cells of six bytes: the two read different memory, and share no crate but those of values.
//
// Cell i of the first n, and an empty order-1 stack where there is none.
fn cell_of(cells: &[u16], n: usize, i: u16) -> Cell
    requires { n * 68 ≤ length cells.now }
    ensures { cell_of result ≡ (get_or (guided_in n cells.now) i no_guided).cell }
{
    let at = i as usize;
    if at < n {
        return cell_memory::cell_at(cells, at);
    }
    Cell::Empty1
}

// The choice of cell i of the first n for state q, and 0 where there is none.
fn choice_of(cells: &[u16], n: usize, i: u16, q: u64) -> u16
    requires { n * 68 ≤ length cells.now }
    ensures { result ≡ (get_or (guided_in n cells.now) i no_guided).choice q }
{
    let at = i as usize;
    if at < n {
        return cell_memory::choice_at(cells, at, q);
    }
    0
}

// The order-1 state of edge n, and 0 where there is no such edge.
fn first_of(tables: &Tables<'_>, n: u16) -> u64
    ensures { result ≡ (get_or (edges_in tables.now.table tables.now.inner.now tables.now.entries.now) n no_edge).first }
{
    let k = n as usize;
    if k < tables.edge_count() {
        return tables.edge_of(k).first;
    }
    0
}

// The top of a walk with the number of its chosen move.
#[derive(Clone, Copy)]
struct Tip {
    top: Top,
    number: u16,
}

// The top where order-1 cell c, to be accepted by order-1 state r, stands on order-2 cell t: there is none where the top order-1 stack is empty.
fn top_on(cells: &[u16], w: Walk, c: u16, r: u64, t: u16) -> Option<Tip>
    requires { w.cells * 68 ≤ length cells.now }
    ensures { tip_of result ≡ top_on (walk_in w cells.now) c r t (guided_at (walk_in w cells.now) c).cell }
{
    let n = w.cells;
    match cell_of(cells, n, c) {
        Cell::Symbol(symbol, annotation, rest) => Some(Tip {
            top: Top {
                symbol,
                annotation,
                rest,
                below: t,
            },
            number: choice_of(cells, n, c, r),
        }),
        Cell::Empty1 | Cell::Empty2 | Cell::Above(_, _) => None,
    }
}

// The top of a walk: there is none where its stack is empty.
fn top_of(tables: &Tables<'_>, cells: &[u16], w: Walk) -> Option<Tip>
    requires { w.cells * 68 ≤ length cells.now }
    ensures { tip_of result ≡ top_of (automaton_of tables.now.table tables.now.inner.now tables.now.entries.now []) (walk_in w cells.now)
        (guided_at (walk_in w cells.now) w.root).cell }
{
    let n = w.cells;
    let root = w.root;
    match cell_of(cells, n, root) {
        Cell::Above(c, t) => {
            let e = choice_of(cells, n, root, w.control);
            let r = first_of(tables, e);
            top_on(cells, w, c, r, t)
        }
        Cell::Empty1 | Cell::Empty2 | Cell::Symbol(_, _, _) => None,
    }
}

// ---- the table before a move's round

// The last of the sizes that has no more than i moves.
fn last_up_to(run: &AfterRounds<'_>, i: u16) -> Size
    ensures { as_size result ≡ last_up_to (the_size 0 0) (saturated_by run.now).sizes i }
{
    let mut last = Size {
        moves: 0,
        entries: 0,
    };
    for j in 0..run.count {
        let y = saturation::size_at(run.sizes, j);
        if (i as u64) < y.moves {
            return last;
        }
        last = y;
    }
    last
}

// The table before the round of move i.
fn table_before(run: &AfterRounds<'_>, i: u16) -> Table
    ensures { result ≡ table_up_to run.now.tables.table (last_up_to (the_size 0 0) (saturated_by run.now).sizes i) }
{
    let z = run.tables.table;
    let s = last_up_to(run, i);
    Table {
        entries: s.entries.min(z.entries as u64) as usize,
        moves: s.moves.min(z.moves as u64) as usize,
        ..z
    }
}

// The number of moves of round 0.
fn own_moves(run: &AfterRounds<'_>) -> u64
    ensures { result ≡ own_moves (saturated_by run.now).sizes }
{
    if 0 < run.count {
        return saturation::size_at(run.sizes, 0).moves;
    }
    0
}

// ---- the result that a move stands for

// The result that a move stands for.
fn result_of(tables: &Tables<'_>, m: Move) -> Result
    ensures { as_result result ≡ result_of (entries_in tables.now) (as_move m) }
{
    let e = tables.entry_for(m.state);
    Result {
        control: e.control,
        s: e.s,
        symbol: m.symbol,
        order: m.order,
        b: m.b,
        r: m.r,
    }
}

// ---- the step

// What a walk does next: it has arrived, it is stuck, or it goes on from a top by the derivation of these numbers of a rule and a premise.
#[derive(Clone, Copy)]
pub enum Next {
    Arrived,
    Stuck,
    To(Top, u64, u64),
}

// The first derivation of the result that move i stands for, from the table before its round.
fn first_before(
    run: &AfterRounds<'_>,
    rules: &Rules<'_>,
    i: u16,
    edges: &mut [u16],
    chosen: &mut [u16],
) -> Option<Derivation>
    requires tables_few { TablesFew run.now.tables.table }
    requires edges_len { WordsForEach edges.old chosen.old }
    ensures finds_before { FindsBefore (rules_held rules.now) (saturated_by run.now) i result
        edges.old edges.new chosen.old chosen.new }
    ensures small { StatesSmall (before (saturated_by run.now) i) }
{
    let tables = run.tables;
    let before = table_before(run, i);
    let earlier = Tables {
        table: before,
        inner: tables.inner,
        entries: tables.entries,
        moves: tables.moves,
    };
    let m = tables.move_of(i as usize);
    let x = result_of(&tables, m);
    first_derivation::first_derivation(&earlier, rules, x, edges, chosen)
}

// The step at a top with its chosen move. Where it goes on, the numbers of the edges that the derivation chooses stand in `edges`, and those
// of the moves in `chosen`.
fn step_of(
    run: &AfterRounds<'_>,
    rules: &Rules<'_>,
    tip: Tip,
    edges: &mut [u16],
    chosen: &mut [u16],
) -> Next
    requires tables_few { TablesFew run.now.tables.table }
    requires edges_value { (edges.old ≡ replicate 64 0) × (chosen.old ≡ replicate 64 0) }
    ensures { AtTop (rules_held rules.now) (saturated_by run.now) tip.top tip.number result edges.new chosen.new }
{
    if (tip.number as u64) < own_moves(run) {
        return Next::Arrived;
    }
    match first_before(run, rules, tip.number, edges, chosen) {
        None => Next::Stuck,
        Some(d) => Next::To(tip.top, d.rule, d.premise),
    }
}

// The next step of a walk. Where there is no top, no move is needed and it has arrived. Where it goes on, the numbers of the edges that the
// derivation chooses stand in `edges`, and those of the moves in `chosen`, by state.
pub fn next_step(
    run: &AfterRounds<'_>,
    rules: &Rules<'_>,
    cells: &[u16],
    w: Walk,
    edges: &mut [u16],
    chosen: &mut [u16],
) -> Next
    requires tables_few { TablesFew run.now.tables.table × (w.cells * 68 ≤ length cells.now) }
    requires edges_value { (edges.old ≡ replicate 64 0) × (chosen.old ≡ replicate 64 0) }
    ensures { NextIs (rules_held rules.now) (saturated_by run.now) (walk_in w cells.now) result edges.new chosen.new }
{
    match top_of(&run.tables, cells, w) {
        None => Next::Arrived,
        Some(tip) => step_of(run, rules, tip, edges, chosen),
    }
}
