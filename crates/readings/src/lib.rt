// The results of readings, from the table of the earlier rounds: by one choice of a move for each state of a set. The automaton's tables are
// only read. Moves are found by an index, and what the table of the round before gives is passed over: it is held.
#![tactic(auto)]

ghost use Rattle.std.specs.Prelude.{◌≡◌, ◌||◌, ◌&&◌, not, ◌∷◌, ◌<◌, leb};
ghost use Rattle.words.specs.Sets.{part_of, members};
ghost use Rattle.move_index.specs.View.{table_in};
ghost use Rattle.joins.specs.Joining.{the_joins};
ghost use Rattle.readings.specs.Readings.{the_result, reads_to};
ghost use Rattle.readings.specs.Before.{HeldBefore};
ghost use Rattle.readings.specs.Gathering.{CanReadIn, ReadsAllIn};

use joins::Joins;
use move_index::MovesIndexed;

// The table of the round before: so many moves and entries. What it gives is held, so only what the last round added is looked at, as in
// semi-naive evaluation; in round 1, where there is none, all is `new`. No move on a goal's symbol of a state of `settled` is newer.
#[derive(Clone, Copy)]
pub struct Before {
    pub new: bool,
    pub moves: usize,
    pub entries: usize,
    pub settled: u64,
}

// Where results go: to this symbol of entries of this control, as far as there is room for them; and the table of the round before.
#[derive(Clone, Copy)]
pub struct Goal {
    pub control: u64,
    pub symbol: u64,
    pub room: usize,
    pub before: Before,
}

// The result (order, b, r) to the goal's symbol of its entry with the set s.
pub fn result(to: Goal, s: u64, order: u64, b: u64, r: u64) -> tables::Result
    ensures { result ≡ the_result to.control s to.symbol order b r }
{
    tables::Result {
        control: to.control,
        s,
        symbol: to.symbol,
        order,
        b,
        r,
    }
}

// ---- what is new

// Whether nothing is new: nothing was so far, and none of the order-1 states left has a newer move.
fn is_settled(new: bool, left: u64, t: Before) -> bool
    ensures { result ≡ not new && part_of left t.settled }
{
    !new && sets::part_of(left, t.settled)
}

// Whether something is new: it was so far, or number i is one of the newer ones, which begin with number `first`.
pub fn is_newer(new: bool, first: usize, i: usize) -> bool
    ensures { result ≡ new || leb first i }
{
    new || first <= i
}

// ---- readings

// Collects the results of the readings of the goal's symbol from the order-1 states left, joined to (order, b, r), for the set s: one choice
// of a move for each state, beginning with a state that has few. Where nothing new was used so far, what the earlier table gives is held, and
// readings without a newer move are passed over. The rows of `memo` hold states of this recursion that were worked through: all their results
// are held or collected, so such a state is passed over too. Which states stand there at the end is left open.
// Kept (5): document 01 has what is joined so far as plain words order, b and r in this recursion.
#[cycle(readings)]
pub fn read_from(
    by: &MovesIndexed<'_>,
    to: Goal,
    s: u64,
    new: bool,
    left: u64,
    order: u64,
    b: u64,
    r: u64,
    memo: &mut [u64],
    out: &mut [u64],
    n: usize,
) -> usize
    requires { CanReadIn by.now to.room n out.old memo.old
        × HeldBefore (table_in by.now.held) to new (reads_to to s (members left) (the_joins order b r)) }
    ensures { ReadsAllIn by.now to.room n out.old memo.old
        (reads_to to s (members left) (the_joins order b r)) result out.new memo.new }
{
    if to.room < n {
        return n;
    }
    if is_settled(new, left, to.before) {
        return n;
    }
    if left == 0 {
        let x = result(to, s, order, b, r);
        return offers::offer(&by.held, x, out, n, to.room);
    }
    read_left(by, to, s, new, left, order, b, r, memo, out, n)
}

// The same where some state is left, unless it stands in `memo`: by the state that has the fewest choices.
#[cycle(readings)]
fn read_left(
    by: &MovesIndexed<'_>,
    to: Goal,
    s: u64,
    new: bool,
    left: u64,
    order: u64,
    b: u64,
    r: u64,
    memo: &mut [u64],
    out: &mut [u64],
    n: usize,
) -> usize
    requires { CanReadIn by.now to.room n out.old memo.old × (0 < left)
        × HeldBefore (table_in by.now.held) to new (reads_to to s (members left) (the_joins order b r)) }
    ensures { ReadsAllIn by.now to.room n out.old memo.old
        (reads_to to s (members left) (the_joins order b r)) result out.new memo.new }
{
    let count = by.held.table.moves as u64;
    let x = memo_table::read_state(count, to.control, to.symbol, s, left, order, b, r);
    let row = memo_table::place(memo, x);
    if memo_table::holds(memo, row, x) {
        return n;
    }
    let j = Joins { order, b, r };
    let q = choices::fewest(by.held.table, by.held.moves, by.states, left, to.symbol, j);
    let part = sets::Split {
        member: q,
        others: sets::without(left, q),
    };
    let k = read_moves(by, to, s, new, part, order, b, r, memo, out, n);
    memo_table::put(memo, row, x);
    k
}

// Collects the results of the readings of the goal's symbol from a state and the others, joined to (order, b, r): by each move of the state
// the readings from the others.
#[cycle(readings)]
fn read_moves(
    by: &MovesIndexed<'_>,
    to: Goal,
    s: u64,
    new: bool,
    part: sets::Split,
    order: u64,
    b: u64,
    r: u64,
    memo: &mut [u64],
    out: &mut [u64],
    n: usize,
) -> usize
    requires { CanReadIn by.now to.room n out.old memo.old
        × HeldBefore (table_in by.now.held) to new (reads_to to s (part.member ∷ members part.others) (the_joins order b r)) }
    ensures { ReadsAllIn by.now to.room n out.old memo.old
        (reads_to to s (part.member ∷ members part.others) (the_joins order b r)) result out.new memo.new }
{
    let j = Joins { order, b, r };
    let mut k = n;
    let mut next = chains::last(by.states, move_index::state_key(part.member, to.symbol));
    while let Some(i) = next {
        let m = tables::move_at(by.held.moves, i);
        if let Some(more) = joins::candidate(m, part.member, to.symbol, j) {
            let newer = is_newer(new, to.before.moves, i);
            k = read_from(
                by,
                to,
                s,
                newer,
                part.others,
                more.order,
                more.b,
                more.r,
                memo,
                out,
                k,
            );
        }
        next = chains::before(by.states, i);
    }
    k
}
