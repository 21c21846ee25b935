// The results of readings from sets of order-2 states: one choice of an edge for each state, then the readings from the order-1 states that
// these edges name. The index of the moves, the table of the round before and the memo table are those of `readings::read_from`.
#![tactic(auto)]

ghost use Rattle.std.specs.Prelude.{◌≡◌, ◌||◌, ◌∷◌, ◌+◌, ◌<◌, leb};
ghost use Rattle.words.specs.Sets.{members};
ghost use Rattle.chains.specs.Chains.{number_after};
ghost use Rattle.move_index.specs.View.{automaton_in};
ghost use Rattle.joins.specs.Joining.{the_joins};
ghost use Rattle.readings.specs.Readings.{edges_to};
ghost use Rattle.readings.specs.Before.{HeldBefore};
ghost use Rattle.readings.specs.Gathering.{CanCollect, CollectsAll};
ghost use Rattle.edge_readings.specs.Naming.{named_with};

use joins::Joins;
use move_index::Indexed;
use readings::{Before, Goal};

// The order-1 states named with one more, unless its choices all leave the joins as they are, which the oldest of them tells (see
// `choices::unchanged`): its reading would add nothing.
fn name(named: u64, first: u64, oldest: Option<usize>) -> u64
    requires { first < 64 }
    ensures { result ≡ named_with named first (number_after oldest) }
{
    match oldest {
        Some(_) => named,
        None => sets::join(named, sets::one_bit(first)),
    }
}

// Whether something is new: it was so far, or the oldest choice, where there is one, is a newer move.
fn is_newest(new: bool, t: Before, oldest: Option<usize>) -> bool
    ensures { result ≡ new || leb (t.moves + 1) (number_after oldest) }
{
    let Some(i) = oldest else {
        return new;
    };
    readings::is_newer(new, t.moves, i)
}

// Collects the results of the readings of the goal's symbol from the order-2 states left, joined to (order, b, r): one choice of an edge for
// each state, then the readings from the order-1 states that these edges and `named` name, for the join of the edges' sets and s. States in
// `memo` are passed over.
// Kept (5): document 01 has what is joined so far as plain words order, b and r in this recursion.
#[cycle(edges)]
pub fn read_edges(
    by: &Indexed<'_>,
    to: Goal,
    s: u64,
    new: bool,
    order: u64,
    b: u64,
    r: u64,
    left: u64,
    named: u64,
    memo: &mut [u64],
    out: &mut [u64],
    n: usize,
) -> usize
    requires { CanCollect (automaton_in by.now) to.room n out.old memo.old
        × HeldBefore (automaton_in by.now) to new (edges_to to s (the_joins order b r) (members left) named) }
    ensures { CollectsAll (automaton_in by.now) to.room n out.old
        (edges_to to s (the_joins order b r) (members left) named) result out.new memo.new }
{
    if left == 0 {
        return readings::read_from(&by.moves, to, s, new, named, order, b, r, memo, out, n);
    }
    choose_left(by, to, s, new, order, b, r, left, named, memo, out, n)
}

// The same where some state is left, unless it stands in `memo`: by the least of them.
#[cycle(edges)]
fn choose_left(
    by: &Indexed<'_>,
    to: Goal,
    s: u64,
    new: bool,
    order: u64,
    b: u64,
    r: u64,
    left: u64,
    named: u64,
    memo: &mut [u64],
    out: &mut [u64],
    n: usize,
) -> usize
    requires { CanCollect (automaton_in by.now) to.room n out.old memo.old × (0 < left)
        × HeldBefore (automaton_in by.now) to new (edges_to to s (the_joins order b r) (members left) named) }
    ensures { CollectsAll (automaton_in by.now) to.room n out.old
        (edges_to to s (the_joins order b r) (members left) named) result out.new memo.new }
{
    if to.room < n {
        return n;
    }
    let count = by.moves.held.table.moves as u64;
    let x = memo_table::edges_state(count, to.control, to.symbol, s, left, named, order, b, r);
    let row = memo_table::place(memo, x);
    if memo_table::holds(memo, row, x) {
        return n;
    }
    let part = sets::least_member(left);
    let k = read_choices(by, to, s, new, order, b, r, part, named, memo, out, n);
    memo_table::put(memo, row, x);
    k
}

// Collects the results of the readings of the goal's symbol from an order-2 state and the others, joined to (order, b, r): by each edge of
// the state the readings from the others.
#[cycle(edges)]
fn read_choices(
    by: &Indexed<'_>,
    to: Goal,
    s: u64,
    new: bool,
    order: u64,
    b: u64,
    r: u64,
    part: sets::Split,
    named: u64,
    memo: &mut [u64],
    out: &mut [u64],
    n: usize,
) -> usize
    requires { CanCollect (automaton_in by.now) to.room n out.old memo.old
        × HeldBefore (automaton_in by.now) to new (edges_to to s (the_joins order b r) (part.member ∷ members part.others) named) }
    ensures { CollectsAll (automaton_in by.now) to.room n out.old
        (edges_to to s (the_joins order b r) (part.member ∷ members part.others) named) result out.new memo.new }
{
    let j = Joins { order, b, r };
    let held = &by.moves.held;
    let states = by.moves.states;
    let mut k = n;
    for i in 0..held.table.edges + held.table.entries {
        let e = tables::edge_of(held.table, by.inner, held.entries, i);
        if e.state == part.member {
            let oldest = choices::unchanged(held.table, held.moves, states, e.first, to.symbol, j);
            let newer = readings::is_newer(new, held.table.edges + to.before.entries, i);
            let newest = is_newest(newer, to.before, oldest);
            let more = name(named, e.first, oldest);
            let t = sets::join(s, e.s);
            k = read_edges(
                by,
                to,
                t,
                newest,
                order,
                b,
                r,
                part.others,
                more,
                memo,
                out,
                k,
            );
        }
    }
    k
}
