// An index of the moves of a table: chains of the moves by state and symbol, and by all their words, so that a search looks at few moves.
#![tactic(auto)]

ghost use Rattle.std.specs.Prelude.{◌≡◌, ◌<◌, ◌≤◌, ◌+◌, ◌*◌, length};
ghost use Rattle.words.specs.Lists.{some_of};
ghost use Rattle.tables.specs.Rows.{rows_in};
ghost use Rattle.tables.specs.Records.{as_move};
ghost use Rattle.tables.specs.Layouts.{move_row};
ghost use Rattle.tables.specs.Held.{MovesStand};
ghost use Rattle.move_index.specs.Keys.{state_key, words_key, same_move, ByState, ByWords};

mod indexed;

pub use indexed::{Indexed, MovesIndexed, WordsIndexed};
use limits::Limits;

// The key of the moves of state r on symbol a.
pub fn state_key(r: u64, a: u64) -> usize
    ensures value { result ≡ state_key r a }
    ensures below { result < 2048 }
{
    ((r % Limits::STATES1 as u64) * Limits::SYMBOLS + a % Limits::SYMBOLS) as usize
}

// The key of a move by all its words.
fn words_key(m: tables::Move) -> usize
    ensures value { result ≡ words_key (as_move m) }
    ensures below { result < 2048 }
{
    let sets = (m.b % 65521) * 1021 + (m.r % 65521) * 577;
    let rest = (m.order % 4) * 683 + state_key(m.state, m.symbol) as u64;
    ((sets + rest) % 2039) as usize
}

// Enters move i behind the moves below i.
fn enter(moves: &[u64], i: usize, states: &mut [u16], words: &mut [u16])
    requires { (i < 1024) × (i * 5 + 5 ≤ length moves.now) × ByState i moves.now states.old × ByWords i moves.now words.old }
    ensures by_state { ByState (i + 1) moves.now states.new }
    ensures words { ByWords (i + 1) moves.now words.new }
{
    let m = tables::move_at(moves, i);
    chains::add(states, state_key(m.state, m.symbol), i);
    chains::add(words, words_key(m), i);
}

// Enters the moves from number `from` up to `to`.
pub fn extend(moves: &[u64], from: usize, to: usize, states: &mut [u16], words: &mut [u16])
    requires { (from ≤ to) × (to ≤ 1024) × (to * 5 ≤ length moves.now) × ByState from moves.now states.old × ByWords from moves.now words.old }
    ensures by_state { ByState to moves.now states.new }
    ensures words { ByWords to moves.now words.new }
{
    for i in from..to {
        enter(moves, i, states, words);
    }
}

// Whether m is one of the moves.
// Kept (5): `WordsIndexed` would ask for entries too, which this search does not read.
pub fn has_move(z: tables::Table, moves: &[u64], words: &[u16], m: tables::Move) -> bool
    requires { MovesStand z moves.now × ByWords z.moves moves.now words.now }
    ensures { result ≡ some_of (same_move (as_move m)) (rows_in move_row z.moves moves.now) }
{
    let mut next = chains::last(words, words_key(m));
    while let Some(i) = next {
        if m == tables::move_at(moves, i) {
            return true;
        }
        next = chains::before(words, i);
    }
    false
}
