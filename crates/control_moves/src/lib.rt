// The moves of a control's entries as premises: which of them have to be looked at, by what the last round added, and what they give, collected.
#![tactic(auto)]

ghost use Rattle.std.specs.Prelude.{◌≡◌, ◌<◌, ◌%◌, ltb};
ghost use Rattle.words.specs.Sets.{member};
ghost use Rattle.move_index.specs.View.{automaton_in};
ghost use Rattle.readings.specs.Before.{table_before};
ghost use Rattle.readings.specs.Gathering.{CanCollect, CollectsAll};
ghost use Rattle.round_news.specs.News.{HasSymbols};
ghost use Rattle.premises.specs.Premises.{source_gives};
ghost use Rattle.premises.specs.Settled.{SettledBy, SourceHeld};
ghost use Rattle.control_moves.specs.First.{reads_new, first_move, settled_on, HeldBelow};
ghost use Rattle.control_moves.specs.Control.{entry_gives};

use move_index::Indexed;
use premises::{MoveUse, Source};
use readings::{Before, Goal};

// Collects what the moves of entry number e give, where they come from this source. They are found along a chain; the index
// and `memo` are those of `readings::read_from`, here and in the functions that follow.
fn by_entry_moves(
    by: &Indexed<'_>,
    to: Goal,
    from: Source,
    e: usize,
    memo: &mut [u64],
    out: &mut [u64],
    n: usize,
) -> usize
    requires { CanCollect (automaton_in by.now) to.room n out.old memo.old
        × SourceHeld (automaton_in by.now) to from × (e < by.now.moves.held.table.entries) }
    ensures { CollectsAll (automaton_in by.now) to.room n out.old
        (entry_gives to from e) result out.new memo.new }
{
    let held = &by.moves.held;
    if tables::entry_at(held.entries, e).control != from.control {
        return n;
    }
    let r = held.table.inner1 + e as u64;
    let mut k = n;
    let mut next = chains::last(by.moves.states, move_index::state_key(r, from.symbol));
    while let Some(i) = next {
        k = premises::by_move(by, to, from, i, memo, out, k);
        next = chains::before(by.moves.states, i);
    }
    k
}

// Kept (2): no plainer as one with `by_newer`: one goes entry by entry along chains, the other over numbers.
//
// Collects what all moves from this source give, entry by entry.
fn by_control(
    by: &Indexed<'_>,
    to: Goal,
    from: Source,
    memo: &mut [u64],
    out: &mut [u64],
    n: usize,
) -> usize
    requires { CanCollect (automaton_in by.now) to.room n out.old memo.old
        × SourceHeld (automaton_in by.now) to from }
    ensures { CollectsAll (automaton_in by.now) to.room n out.old
        (source_gives to from) result out.new memo.new }
{
    let mut k = n;
    for e in 0..by.moves.held.table.entries {
        k = by_entry_moves(by, to, from, e, memo, out, k);
    }
    k
}

// Collects what all moves from this source give, where what those below number `first` give is held.
fn by_newer(
    by: &Indexed<'_>,
    to: Goal,
    from: Source,
    first: usize,
    memo: &mut [u64],
    out: &mut [u64],
    n: usize,
) -> usize
    requires { CanCollect (automaton_in by.now) to.room n out.old memo.old
        × SourceHeld (automaton_in by.now) to from × HeldBelow (automaton_in by.now) to from first }
    ensures { CollectsAll (automaton_in by.now) to.room n out.old
        (source_gives to from) result out.new memo.new }
{
    let mut k = n;
    for i in first..by.moves.held.table.moves {
        k = premises::by_move(by, to, from, i, memo, out, k);
    }
    k
}

// Kept (7): no plainer as closures: `MoveUse` is in the definitions, and ARCHITECTURE says how an operation is added to it; so in `premises` and `results`.
//
// Whether an old premise can give something new, where the symbols of the newer moves are given.
fn reads_new(kind: MoveUse, z: tables::Table, t: Before, symbols: u64, a: u64) -> bool
    ensures { result ≡ reads_new kind (member symbols (a % 64)) (ltb t.entries z.entries) }
{
    match kind {
        MoveUse::Rewritten => false,
        MoveUse::Pushed1 | MoveUse::Pushed2 => round_news::has_symbol(symbols, a),
        MoveUse::Copied => round_news::has_symbol(symbols, a) || t.entries < z.entries,
    }
}

// The first move that has to be looked at as a premise on b, where no old one has.
fn first_move(z: tables::Table, t: Before, symbols: u64, b: u64) -> usize
    ensures { result ≡ first_move (member symbols (b % 64)) t.moves z.moves }
{
    if round_news::has_symbol(symbols, b) {
        return t.moves;
    }
    z.moves
}

// The same goal, where the states of s have no newer move on its symbol.
fn settled_goal(to: Goal, s: u64) -> Goal
    ensures { result ≡ settled_on to s }
{
    Goal {
        before: Before {
            settled: s,
            ..to.before
        },
        ..to
    }
}

// Collects what the moves from this source give: all are looked at where an old premise can give something new, otherwise the newer ones. The
// symbols of the newer moves are given.
pub fn by_moves(
    by: &Indexed<'_>,
    to: Goal,
    symbols: u64,
    from: Source,
    memo: &mut [u64],
    out: &mut [u64],
    n: usize,
) -> usize
    requires { CanCollect (automaton_in by.now) to.room n out.old memo.old
        × SettledBy (automaton_in by.now) to.before (source_gives to from (table_before to.before (automaton_in by.now)))
        × HasSymbols by.now.moves.held.moves.now to.before.moves by.now.moves.held.table.moves symbols × (to.before.settled ≡ 0) }
    ensures { CollectsAll (automaton_in by.now) to.room n out.old
        (source_gives to from) result out.new memo.new }
{
    let held = &by.moves.held;
    let z = held.table;
    let t = to.before;
    if reads_new(from.kind, z, t, symbols, to.symbol) {
        let s = round_news::settled_states(held.moves, t.moves, z.moves, to.symbol);
        let goal = settled_goal(to, s);
        return by_control(by, goal, from, memo, out, n);
    }
    let first = first_move(z, t, symbols, from.symbol);
    by_newer(by, to, from, first, memo, out, n)
}
