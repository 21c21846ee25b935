// What a move of an entry gives as the premise of a rule, collected. What an old premise gave in the round before is held.
#![tactic(auto)]

ghost use Rattle.std.specs.Prelude.{◌≡◌, ◌||◌, ◌<◌, eqb};
ghost use Rattle.tables.specs.Rows.{row_at};
ghost use Rattle.tables.specs.Records.{as_move};
ghost use Rattle.tables.specs.Layouts.{move_row};
ghost use Rattle.move_index.specs.View.{automaton_in, table_in};
ghost use Rattle.readings.specs.Before.{HeldBefore};
ghost use Rattle.readings.specs.Gathering.{CanReadIn, ReadsAllIn, CanCollect, CollectsAll};
ghost use Rattle.premises.specs.Premises.{premise_gives};
ghost use Rattle.premises.specs.Reads.{reads_of, push_gives, copy_gives};
ghost use Rattle.premises.specs.Steps.{move_gives};
ghost use Rattle.premises.specs.Settled.{SourceHeld};

use move_index::{Indexed, MovesIndexed};
use readings::Goal;

// How an operation uses a move of an entry.
#[derive(Clone, Copy)]
pub enum MoveUse {
    Rewritten,
    Pushed1,
    Pushed2,
    Copied,
}

// Where an operation takes its premises from, and how it uses them: the moves on this symbol of the entries of this control.
#[derive(Clone, Copy)]
pub struct Source {
    pub kind: MoveUse,
    pub symbol: u64,
    pub control: u64,
}

// Whether an annotation set of this order is empty or of order k.
pub fn order_fits(k: u64, order: u64) -> bool
    ensures { result ≡ eqb order 0 || eqb order k }
{
    order == 0 || order == k
}

// A push of this order for the set s, whose readings are joined to the rest set `rest`.
#[derive(Clone, Copy)]
struct Push {
    order: u64,
    s: u64,
    rest: u64,
}

// What is read for a premise: nothing, the move's rest set by a push, or the edges of its entry's set.
#[derive(Clone, Copy)]
enum Reads {
    Nothing,
    Rest(Push),
    Edges,
}

// What is read where move m of an entry with the set s is used in this way.
fn reads_of(kind: MoveUse, s: u64, m: tables::Move) -> Reads
    ensures { result ≡ reads_of kind s (as_move m) }
{
    match kind {
        MoveUse::Rewritten => Reads::Nothing,
        MoveUse::Pushed1 => Reads::Rest(Push {
            order: 1,
            s,
            rest: m.b,
        }),
        MoveUse::Pushed2 => Reads::Rest(Push {
            order: 2,
            s: sets::join(s, m.b),
            rest: 0,
        }),
        MoveUse::Copied => Reads::Edges,
    }
}

// Collects what a push gives by move m: the readings from the move's rest set. The index of the moves, `new` and `memo` are those of
// `readings::read_from`, here and in the functions that follow.
fn by_push(
    by: &MovesIndexed<'_>,
    to: Goal,
    new: bool,
    push: Push,
    m: tables::Move,
    memo: &mut [u64],
    out: &mut [u64],
    n: usize,
) -> usize
    requires { CanReadIn by.now to.room n out.old memo.old
        × HeldBefore (table_in by.now.held) to new (push_gives to push (as_move m)) }
    ensures { ReadsAllIn by.now to.room n out.old memo.old
        (push_gives to push (as_move m)) result out.new memo.new }
{
    if !order_fits(push.order, m.order) {
        return n;
    }
    let s = push.s;
    readings::read_from(by, to, s, new, m.r, 0, 0, push.rest, memo, out, n)
}

// Collects what a copy gives by move m of an entry with the set s: the readings from the set's order-2 states, joined to the move.
fn by_copy(
    by: &Indexed<'_>,
    to: Goal,
    new: bool,
    s: u64,
    m: tables::Move,
    memo: &mut [u64],
    out: &mut [u64],
    n: usize,
) -> usize
    requires { CanCollect (automaton_in by.now) to.room n out.old memo.old
        × HeldBefore (automaton_in by.now) to new (copy_gives to s (as_move m)) }
    ensures { CollectsAll (automaton_in by.now) to.room n out.old
        (copy_gives to s (as_move m)) result out.new memo.new }
{
    edge_readings::read_edges(by, to, 0, new, m.order, m.b, m.r, s, 0, memo, out, n)
}

// Collects what move m of an entry with the set s gives.
fn by_premise(
    by: &Indexed<'_>,
    to: Goal,
    new: bool,
    kind: MoveUse,
    s: u64,
    m: tables::Move,
    memo: &mut [u64],
    out: &mut [u64],
    n: usize,
) -> usize
    requires { CanCollect (automaton_in by.now) to.room n out.old memo.old
        × HeldBefore (automaton_in by.now) to new (premise_gives to kind s (as_move m)) }
    ensures { CollectsAll (automaton_in by.now) to.room n out.old
        (premise_gives to kind s (as_move m)) result out.new memo.new }
{
    match reads_of(kind, s, m) {
        Reads::Nothing => {
            let x = readings::result(to, s, m.order, m.b, m.r);
            offers::offer(&by.moves.held, x, out, n, to.room)
        }
        Reads::Rest(push) => by_push(&by.moves, to, new, push, m, memo, out, n),
        Reads::Edges => by_copy(by, to, new, s, m, memo, out, n),
    }
}

// Collects what move number i gives, where it comes from this source.
pub fn by_move(
    by: &Indexed<'_>,
    to: Goal,
    from: Source,
    i: usize,
    memo: &mut [u64],
    out: &mut [u64],
    n: usize,
) -> usize
    requires { CanCollect (automaton_in by.now) to.room n out.old memo.old
        × SourceHeld (automaton_in by.now) to from × (i < by.now.moves.held.table.moves) }
    ensures { CollectsAll (automaton_in by.now) to.room n out.old
        (move_gives to from (row_at move_row by.now.moves.held.moves.now i)) result out.new memo.new }
{
    let held = &by.moves.held;
    let m = tables::move_at(held.moves, i);
    if m.symbol != from.symbol
        || !tables::entry_of(held.table, held.entries, from.control, m.state)
    {
        return n;
    }
    let s = tables::entry_set(held.table, held.entries, m.state);
    let new = to.before.moves <= i;
    by_premise(by, to, new, from.kind, s, m, memo, out, n)
}
