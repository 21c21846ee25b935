// Results offered: those that are not yet held are collected in a table of their own, sorted, each once. Whether a result is held is told by an
// index of the moves.
#![tactic(auto)]

ghost use Rattle.std.specs.Prelude.{◌≡◌, [], ◌∷◌, ◌<◌};
ghost use Rattle.automata.specs.Saturation.{held};
ghost use Rattle.tables.specs.Records.{as_result};
ghost use Rattle.move_index.specs.View.{table_in};
ghost use Rattle.offers.specs.Offers.{Collects, Room};
ghost use Rattle.offers.specs.Holding.{held_by};

use move_index::WordsIndexed;
use tables::{Move, Result};

// Whether a move of entry number k is this result.
fn held_by(by: &WordsIndexed<'_>, x: Result, k: usize) -> bool
    requires { k < by.now.table.entries }
    ensures { result ≡ held_by (table_in by.now) (as_result x) k }
{
    let e = tables::entry_at(by.entries, k);
    if e.control != x.control || e.s != x.s {
        return false;
    }
    let m = Move {
        state: by.table.inner1 + k as u64,
        symbol: x.symbol,
        order: x.order,
        b: x.b,
        r: x.r,
    };
    move_index::has_move(by.table, by.moves, by.words, m)
}

// Whether the automaton holds this result.
fn is_held(by: &WordsIndexed<'_>, x: Result) -> bool
    ensures { result ≡ held (table_in by.now) (as_result x) }
{
    for k in 0..by.table.entries {
        if held_by(by, x, k) {
            return true;
        }
    }
    false
}

// Kept (6): memory is fixed and lent, so the number of rows and the room stand beside `out`, here and in all that collect.
//
// Collects a result: unless it is held, it is inserted among the first n rows of `out`. Answers the number of rows then, as
// `tables::insert_result` does.
pub fn offer(by: &WordsIndexed<'_>, x: Result, out: &mut [u64], n: usize, room: usize) -> usize
    requires { Room room n out.old }
    ensures { Collects (table_in by.now) room n out.old (as_result x ∷ []) result out.new }
{
    if room < n || is_held(by, x) {
        return n;
    }
    tables::insert_result(out, n, room, x)
}
