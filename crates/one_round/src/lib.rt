// One round of saturation on lent tables: its results are collected first, and then added; and whether a round would add a move.
#![tactic(auto)]

ghost use Rattle.std.specs.Prelude.{◌≡◌, ◌≤◌, ◌*◌, length};
ghost use Rattle.automata.specs.Saturation.{adds_move};
ghost use Rattle.tables.specs.Held.{automaton_of};
ghost use Rattle.readings.specs.Memo.{MemoUpTo};
ghost use Rattle.results.specs.Collecting.{rules_in, RoundReady};
ghost use Rattle.added_results.specs.Adding.{StatesExist};
ghost use Rattle.one_round.specs.Rounding.{Standing, Rounded};

use move_index::{Indexed, MovesIndexed, WordsIndexed};
use readings::Before;
use tables::Table;

// The most moves and entries that there may be.
#[derive(Clone, Copy)]
pub struct Capacity {
    pub moves: usize,
    pub entries: usize,
}

// One round: the results of the first `count` rules of a body that are not yet held are added: none, where that passes a limit. The
// index of the moves, the table of the round before and the memo table are those of `results::collect`.
// Kept (5): no plainer with `Indexed`, which lends the entries and moves to be read: they are changed here.
pub fn add_round<'x>(
    z: Table,
    inner: &'x [u64],
    entries: &'x mut [u64],
    moves: &'x mut [u64],
    states: &'x [u16],
    words: &'x [u16],
    t: Before,
    body: &[u8],
    count: usize,
    memo: &mut [u64],
    pending: &mut [u64],
    most: Capacity,
) -> Option<Table>
    requires { RoundReady z inner.now entries.old moves.old states.now words.now t count body.now memo.old
        × Standing z most.moves most.entries inner.now entries.old moves.old × (most.moves * 6 ≤ length pending.old)
        × StatesExist (automaton_of z inner.now entries.old moves.old) }
    ensures rounded { Rounded (rules_in count body.now) inner.now z most.moves most.entries entries.old moves.old
        result entries.new moves.new }
    ensures memo { MemoUpTo z.moves memo.new }
{
    let room = most.moves - z.moves;
    let by = Indexed {
        moves: MovesIndexed {
            held: WordsIndexed {
                table: z,
                entries,
                moves,
                words,
            },
            states,
        },
        inner,
    };
    let n = results::collect(&by, t, body, count, memo, pending, room);
    if room < n {
        return None;
    }
    added_results::add_results(z, entries, moves, most.entries, pending, n)
}

// Whether a round would add a move: its results are collected with no room for any. The index of the moves, the table of the round before and the memo
// table are those of `results::collect`.
// Kept (5): tried with `Indexed`; the borrow checker does not cover its building in `saturation::take_turn`, whose tables are lent to be changed.
pub fn would_add<'x>(
    z: Table,
    inner: &'x [u64],
    entries: &'x [u64],
    moves: &'x [u64],
    states: &'x [u16],
    words: &'x [u16],
    t: Before,
    body: &[u8],
    count: usize,
    memo: &mut [u64],
    pending: &mut [u64],
) -> bool
    requires { RoundReady z inner.now entries.now moves.now states.now words.now t count body.now memo.old }
    ensures { result ≡ adds_move (rules_in count body.now) (automaton_of z inner.now entries.now moves.now) }
{
    let by = Indexed {
        moves: MovesIndexed {
            held: WordsIndexed {
                table: z,
                entries,
                moves,
                words,
            },
            states,
        },
        inner,
    };
    let n = results::collect(&by, t, body, count, memo, pending, 0);
    0 < n
}
