// Rounds of saturation on lent tables, as many as are asked for; the numbers of moves and entries after each round are reported, and whether a round
// more would add a move.
#![tactic(auto)]

ghost use Rattle.std.specs.Prelude.{◌≡◌, ◌≤◌, ◌+◌, ◌*◌, length};
ghost use Rattle.tables.specs.Rows.{row_at, put_row};
ghost use Rattle.move_index.specs.Keys.{ByState, ByWords};
ghost use Rattle.readings.specs.Memo.{MemoBefore};
ghost use Rattle.results.specs.Collecting.{rules_in};
ghost use Rattle.saturation.specs.Running.{most_moves, most_entries, Given, WorkLent, Ends};
ghost use Rattle.saturation.specs.Prepared.{round_before, Prepared};
ghost use Rattle.saturation.specs.Turns.{after_round, Underway, TurnLeaves};
ghost use Rattle.saturation.specs.Sizes.{the_size, as_size};
ghost use Rattle.saturation.specs.Layout.{size_row};

mod after_rounds;

pub use after_rounds::AfterRounds;
use limits::Limits;
use one_round::Capacity;
use readings::Before;
use std::ops::ControlFlow;
use tables::Table;

// The limits of tables of so many words, where there are so many inner order-1 states: only whole records count, there are at most 1,024 moves
// and at most 64 order-1 states.
fn limits_of(moves: usize, entries: usize, states: u64) -> Capacity
    requires { states ≤ 64 }
    ensures { (result.moves ≡ most_moves moves) × (result.entries ≡ most_entries entries states) }
{
    Capacity {
        moves: (moves / Limits::MOVE_WORDS).min(Limits::MOVES),
        entries: (entries / Limits::ENTRY_WORDS).min(Limits::STATES1 - states as usize),
    }
}

// Kept (6): sizes stand in rows of a lent slice, as memory is fixed.
// Writes the numbers of moves and entries after a round into row i.
fn put_sizes(t: &mut [u64], i: usize, moves: usize, entries: usize)
    requires { i * 2 + 2 ≤ length t.old }
    ensures { t.new ≡ put_row size_row t.old i (the_size moves entries) }
{
    let at = i * Limits::SIZE_WORDS;
    t[at] = moves as u64;
    t[at + 1] = entries as u64;
}

// Numbers of moves and entries.
#[derive(Clone, Copy)]
pub struct Size {
    pub moves: u64,
    pub entries: u64,
}

// The numbers of moves and entries after round i.
pub fn size_at(sizes: &[u64], i: usize) -> Size
    requires { i * 2 + 2 ≤ length sizes.now }
    ensures { as_size result ≡ row_at size_row sizes.now i }
{
    let at = i * Limits::SIZE_WORDS;
    Size {
        moves: sizes[at],
        entries: sizes[at + 1],
    }
}

// A table after rounds, the number of those that added a move, and whether a round more would.
#[derive(Clone, Copy)]
pub struct Saturated {
    pub table: Table,
    pub rounds: usize,
    pub more: bool,
}

// What follows the round that was run on table z, that after k rounds: the rounds break off with no table where a limit is passed, and with this one
// where no move was added.
fn after_round(z: Table, k: usize, grown: Option<Table>) -> ControlFlow<Option<Saturated>, Table>
    ensures { result ≡ after_round z k grown }
{
    let Some(next) = grown else {
        return ControlFlow::Break(None);
    };
    if next.moves == z.moves {
        return ControlFlow::Break(Some(Saturated {
            table: next,
            rounds: k,
            more: false,
        }));
    }
    ControlFlow::Continue(next)
}

// How far the rounds are: so many are run, the table that they left, and that of the round before.
#[derive(Clone, Copy)]
struct Progress {
    run: usize,
    table: Table,
    before: Before,
}

// What is known in the next round of this table.
fn round_before(z: Table) -> Before
    ensures { result ≡ round_before z }
{
    Before {
        new: false,
        moves: z.moves,
        entries: z.entries,
        settled: 0,
    }
}

// Kept (5): `rounds`, `pending` and `sizes` stay apart from it: they are lent from outside, and this is the call's own.
//
// The working memory of rounds: an index of the moves by state and by their words, and the memo table.
#[derive(Drop)]
struct Work {
    states: [u16; Limits::CHAIN_WORDS],
    words: [u16; Limits::CHAIN_WORDS],
    memo: [u64; Limits::MEMO_TABLE],
}

// The next turn: the size of the table is written and its moves are indexed; then one round more is run, or, where as many are run as are asked for, only
// asked whether it would add a move. `work` has the index of the moves of the table of the round before.
fn take_turn(
    rounds: u64,
    at: Progress,
    inner: &[u64],
    entries: &mut [u64],
    moves: &mut [u64],
    body: &[u8],
    count: usize,
    pending: &mut [u64],
    sizes: &mut [u64],
    work: &mut Work,
    most: Capacity,
) -> ControlFlow<Option<Saturated>, Table>
    requires { Underway inner.now rounds at.table at.run entries.old moves.old
        × Prepared (rules_in count body.now) inner.now at.table entries.old moves.old at.before
        work.old.states work.old.words work.old.memo
        × WorkLent count body.now pending.old sizes.old
        × (most.moves ≡ most_moves (length moves.old)) × (most.entries ≡ most_entries (length entries.old) at.table.inner1) }
    ensures { TurnLeaves (rules_in count body.now) inner.now rounds at.table at.run
        entries.old moves.old sizes.old result
        entries.new moves.new sizes.new work.new.states work.new.words work.new.memo }
{
    let k = at.run;
    let z = at.table;
    let before = at.before;
    put_sizes(sizes, k, z.moves, z.entries);
    let states = &mut work.states;
    let words = &mut work.words;
    let memo = &mut work.memo;
    move_index::extend(moves, before.moves, z.moves, states, words);
    if k as u64 == rounds {
        let more = one_round::would_add(
            z, inner, entries, moves, states, words, before, body, count, memo, pending,
        );
        return ControlFlow::Break(Some(Saturated {
            table: z,
            rounds: k,
            more: more,
        }));
    }
    let grown = one_round::add_round(
        z, inner, entries, moves, states, words, before, body, count, memo, pending, most,
    );
    after_round(z, k, grown)
}

// At most `rounds` rounds, until one adds no move, by the first `count` rules of a body: none, where a limit is passed. The numbers of moves and entries after round 0, 1 and so on
// are left in the first rows of `sizes`.
fn run_rounds(
    rounds: u64,
    z: Table,
    inner: &[u64],
    entries: &mut [u64],
    moves: &mut [u64],
    body: &[u8],
    count: usize,
    pending: &mut [u64],
    sizes: &mut [u64],
    work: &mut Work,
) -> Option<Saturated>
    requires { Given z inner.now entries.old moves.old × WorkLent count body.now pending.old sizes.old
        × ByState 0 moves.old work.old.states × ByWords 0 moves.old work.old.words × MemoBefore z.moves work.old.memo }
    ensures { Ends (rules_in count body.now) rounds inner.now z entries.old moves.old
        result entries.new moves.new sizes.new }
{
    let most = limits_of(moves.len(), entries.len(), z.inner1);
    let mut at = Progress {
        run: 0,
        table: z,
        before: Before {
            new: true,
            moves: 0,
            entries: 0,
            settled: 0,
        },
    };
    loop {
        let turn = take_turn(
            rounds, at, inner, entries, moves, body, count, pending, sizes, work, most,
        );
        match turn {
            ControlFlow::Break(r) => return r,
            ControlFlow::Continue(next) => {
                at = Progress {
                    run: at.run + 1,
                    table: next,
                    before: round_before(at.table),
                };
            }
        }
    }
}

// Saturates the tables by the first `count` rules of a body: at most `rounds` rounds, until one adds no move. Answers none where a limit is passed. The
// numbers of moves and entries after round 0, 1 and so on are left in the first rows of `sizes`. The index of the moves and the memo table, of 15,360 rows, are this call's own. The
// number of rounds in the result is that of the definition's table.
pub fn saturate_tables(
    rounds: u64,
    z: Table,
    inner: &[u64],
    entries: &mut [u64],
    moves: &mut [u64],
    body: &[u8],
    count: usize,
    pending: &mut [u64],
    sizes: &mut [u64],
) -> Option<Saturated>
    requires { Given z inner.now entries.old moves.old × WorkLent count body.now pending.old sizes.old }
    ensures { Ends (rules_in count body.now) rounds inner.now z entries.old moves.old
        result entries.new moves.new sizes.new }
{
    let mut work = Work {
        states: [0u16; Limits::CHAIN_WORDS],
        words: [0u16; Limits::CHAIN_WORDS],
        memo: [0u64; Limits::MEMO_TABLE],
    };
    run_rounds(
        rounds, z, inner, entries, moves, body, count, pending, sizes, &mut work,
    )
}
