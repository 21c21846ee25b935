// The first derivation of a known result, found by a search nested over rules, premises, edges and moves.
#![tactic(auto)]

ghost use Rattle.std.specs.Prelude.{◌≡◌, ◌<◌, ◌≤◌, ◌+◌, ◌*◌, length, eqb};
ghost use Rattle.words.specs.Sets.{single};
ghost use Rattle.words.specs.Order.{same};
ghost use Rattle.automata.specs.Derivation.{no_joins};
ghost use Rattle.tables.specs.Records.{as_move, as_result};
ghost use Rattle.tables.specs.View.{automaton_in, entries_in};
ghost use Rattle.first_reading.specs.First.{is_some};
ghost use Rattle.first_reading.specs.Search.{joins_key, wanted};
ghost use Rattle.first_reading.specs.Words.{moves_in, ReadyToRead, TablesFew, WordsForEach};
ghost use Rattle.case_records.specs.Values.{the_operation, the_rule};
ghost use Rattle.results.specs.Collecting.{rules_held};
ghost use Rattle.first_derivation.specs.Search.{first_entry, entry_joins, by_none};
ghost use Rattle.first_derivation.specs.Premises.{rewritten, entry_gives, premise_in, premise_of};
ghost use Rattle.first_derivation.specs.Premises.{FindsPush, FindsDerivation, TriesPremise, FindsMove, FindsStep, FindsByRule};
ghost use Rattle.first_derivation.specs.Derived.{FindsFirst, StatesSmall, WordsFit};

use case_records::{Operation, Rule, Rules};
use limits::Limits;
use tables::{Move, Result, Tables};

// ---- a move as the premise

// Whether a move m of an entry with set s gives x by a rewrite.
fn by_rewrite(s: u64, m: Move, x: Result) -> bool
    ensures { result ≡ rewritten s (as_move m) (as_result x) }
{
    s == x.s && first_reading::is_wanted(m.order, m.b, m.r, x)
}

// Whether a move m gives x by a push of order k, where S is s and the rest sets are joined to r. On success the numbers of the moves read
// stand in `chosen`.
fn by_push(
    moves: &[u64],
    n: usize,
    a: u64,
    k: u64,
    s: u64,
    r: u64,
    m: Move,
    x: Result,
    chosen: &mut [u16],
) -> bool
    requires { ReadyToRead n moves.now chosen.old }
    ensures { FindsPush (moves_in n moves.now) a (as_result x) k s r (as_move m) result chosen.old chosen.new }
{
    s == x.s
        && premises::order_fits(k, m.order)
        && first_reading::first_reading(moves, n, a, m.r, 0, 0, r, x, chosen)
}

// Whether move i, of an entry, gives x by the operation of a rule on a. On success the numbers of the edges chosen stand in `edges`
// and those of the moves in `chosen`.
fn by_move(
    tables: &Tables<'_>,
    a: u64,
    op: Operation,
    i: usize,
    x: Result,
    edges: &mut [u16],
    chosen: &mut [u16],
) -> bool
    requires { TablesFew tables.now.table × (i < tables.now.table.moves) × WordsForEach edges.old chosen.old }
    ensures { FindsDerivation (automaton_in tables.now) a (as_result x) (the_operation op) i result
        edges.old edges.new chosen.old chosen.new }
{
    let (moves, n) = (tables.moves, tables.table.moves);
    let m = tables.move_at(i);
    let s = tables.entry_set(m.state);
    match op {
        Operation::Rewrite(_) => by_rewrite(s, m, x),
        Operation::Push1(_) => by_push(moves, n, a, 1, s, m.b, m, x, chosen),
        Operation::Push2(_) => by_push(moves, n, a, 2, sets::join(s, m.b), 0, m, x, chosen),
        Operation::Copy => {
            first_reading::first_edges(tables, a, s, 0, 0, m.order, m.b, m.r, x, edges, chosen)
        }
        Operation::Pop1 | Operation::Pop2 | Operation::Collapse1 | Operation::Collapse2 => false,
    }
}

// Whether move i is a premise of a rule to control p that reads b, and gives x.
fn try_move(
    tables: &Tables<'_>,
    a: u64,
    op: Operation,
    p: u64,
    b: u64,
    i: usize,
    x: Result,
    edges: &mut [u16],
    chosen: &mut [u16],
) -> bool
    requires { TablesFew tables.now.table × (i < tables.now.table.moves) × WordsForEach edges.old chosen.old }
    ensures { TriesPremise (automaton_in tables.now) a (as_result x) (the_operation op) p b i result
        edges.old edges.new chosen.old chosen.new }
{
    let m = tables.move_at(i);
    m.symbol == b && tables.entry_of(p, m.state) && by_move(tables, a, op, i, x, edges, chosen)
}

// The number of the first move that is a premise of a rule to control p that reads b, and gives x.
fn first_move(
    tables: &Tables<'_>,
    a: u64,
    op: Operation,
    p: u64,
    b: u64,
    x: Result,
    edges: &mut [u16],
    chosen: &mut [u16],
) -> Option<u64>
    requires { TablesFew tables.now.table × WordsForEach edges.old chosen.old }
    ensures { FindsMove (automaton_in tables.now) a (as_result x) (the_operation op) p b result
        edges.old edges.new chosen.old chosen.new }
{
    for i in 0..tables.table.moves {
        if try_move(tables, a, op, p, b, i, x, edges, chosen) {
            return Some(i as u64);
        }
    }
    None
}

// ---- an entry as the premise, and no premise

// Whether s is the set whose only member is n.
fn is_single(n: u64, s: u64) -> bool
    ensures { result ≡ eqb (single n) s }
{
    n < (Limits::WORD_BITS as u64) && sets::one_bit(n) == s
}

// Whether x has no annotation set and the rest set whose only member is r.
fn rest_is(r: u64, x: Result) -> bool
    ensures { result ≡ same (joins_key (record { order = 0; B = 0; R = single r })) (wanted (as_result x)) }
{
    x.order == 0 && x.b == 0 && is_single(r, x.r)
}

// Whether x has the annotation set of order k whose only member is r, and no rest set.
fn annotation_is(k: u64, r: u64, x: Result) -> bool
    ensures { result ≡ same (joins_key (record { order = k; B = single r; R = 0 })) (wanted (as_result x)) }
{
    x.order == k && is_single(r, x.b) && x.r == 0
}

// Kept (7): no plainer as a closure: the definition `entry_joins` takes the same `collapse`, here and in the two functions below.
//
// Whether order-1 state r as the premise gives the sets of x, by pop 1 or by collapse 1.
fn entry_joins(collapse: bool, r: u64, x: Result) -> bool
    ensures { result ≡ same (joins_key (entry_joins collapse r)) (wanted (as_result x)) }
{
    if collapse {
        return annotation_is(1, r, x);
    }
    rest_is(r, x)
}

// Whether entry e is a premise of a rule to control p by pop 1 or by collapse 1, and gives x.
fn try_entry(tables: &Tables<'_>, collapse: bool, p: u64, e: usize, x: Result) -> bool
    requires { e < tables.now.table.entries }
    ensures { result ≡ is_some (entry_gives (entries_in tables.now) (as_result x) (entry_joins collapse) p e) }
{
    let g = tables.entry_at(e);
    g.control == p && g.s == x.s && entry_joins(collapse, tables.table.inner1 + e as u64, x)
}

// The number of the first entry that is a premise of a rule to control p by pop 1 or by collapse 1, and gives x.
fn first_entry(tables: &Tables<'_>, collapse: bool, p: u64, x: Result) -> Option<u64>
    ensures { premise_in result ≡ premise_of (first_entry (entries_in tables.now) (as_result x) (entry_joins collapse) p) }
{
    for e in 0..tables.table.entries {
        if try_entry(tables, collapse, p, e, x) {
            return Some(e as u64);
        }
    }
    None
}

// Pop 2, to control p.
fn by_pop2(p: u64, x: Result) -> Option<u64>
    ensures { premise_in result ≡ premise_of (by_none (as_result x) (single p) no_joins) }
{
    if is_single(p, x.s) && first_reading::is_wanted(0, 0, 0, x) {
        return Some(0);
    }
    None
}

// Collapse 2, to control p.
fn by_collapse2(p: u64, x: Result) -> Option<u64>
    ensures { premise_in result ≡ premise_of (by_none (as_result x) 0 (record { order = 2; B = single p; R = 0 })) }
{
    if x.s == 0 && annotation_is(2, p, x) {
        return Some(0);
    }
    None
}

// ---- a rule

// The first derivation of x by a rule on a with this operation, to control p.
fn first_step(
    tables: &Tables<'_>,
    a: u64,
    op: Operation,
    p: u64,
    x: Result,
    edges: &mut [u16],
    chosen: &mut [u16],
) -> Option<u64>
    requires { TablesFew tables.now.table × WordsForEach edges.old chosen.old }
    ensures { FindsStep (automaton_in tables.now) a (as_result x) (the_operation op) p result
        edges.old edges.new chosen.old chosen.new }
{
    match op {
        Operation::Rewrite(b) | Operation::Push1(b) | Operation::Push2(b) => {
            first_move(tables, a, op, p, b, x, edges, chosen)
        }
        Operation::Copy => first_move(tables, a, op, p, a, x, edges, chosen),
        Operation::Pop1 => first_entry(tables, false, p, x),
        Operation::Pop2 => by_pop2(p, x),
        Operation::Collapse1 => first_entry(tables, true, p, x),
        Operation::Collapse2 => by_collapse2(p, x),
    }
}

// The first derivation of x by this rule.
fn by_rule(
    tables: &Tables<'_>,
    rule: Rule,
    x: Result,
    edges: &mut [u16],
    chosen: &mut [u16],
) -> Option<u64>
    requires { TablesFew tables.now.table × WordsForEach edges.old chosen.old }
    ensures { FindsByRule (automaton_in tables.now) (as_result x) (the_rule rule) result
        edges.old edges.new chosen.old chosen.new }
{
    if rule.control != x.control || rule.symbol != x.symbol {
        return None;
    }
    first_step(
        tables,
        rule.symbol,
        rule.operation,
        rule.next,
        x,
        edges,
        chosen,
    )
}

// The numbers of a derivation's rule and of its premise, which is 0 where the rule has none.
#[derive(Clone, Copy)]
pub struct Derivation {
    pub rule: u64,
    pub premise: u64,
}

// The words of a slice are below 2 ^ 64. Nothing is done: the type says so, and the states of choices are small by it.
fn words_fit(words: &[u64])
    ensures { WordsFit words.now }
{}

// The first derivation of x by these rules. On success the numbers of the edges chosen stand in `edges` and those of the moves in `chosen`, by
// their states, which are below 64.
pub fn first_derivation(
    tables: &Tables<'_>,
    rules: &Rules<'_>,
    x: Result,
    edges: &mut [u16],
    chosen: &mut [u16],
) -> Option<Derivation>
    requires { TablesFew tables.now.table × WordsForEach edges.old chosen.old }
    ensures finds_first { FindsFirst (automaton_in tables.now) (rules_held rules.now) (as_result x) result
        edges.old edges.new chosen.old chosen.new }
    ensures small { StatesSmall (automaton_in tables.now) }
{
    words_fit(tables.entries);
    words_fit(tables.moves);
    for i in 0..rules.count {
        let rule = rules.rule_at(i);
        if let Some(premise) = by_rule(tables, rule, x, edges, chosen) {
            return Some(Derivation {
                rule: i as u64,
                premise,
            });
        }
    }
    None
}
