// An index of a table's moves by rising number: chains of the moves by state and symbol, and of those of entries by control and symbol. Element
// 1,023 - i of a chain is move i, so that the last element with a key is the least move with it, and the element before that the next one.
#![tactic(auto)]

ghost use Rattle.std.specs.Prelude.{◌≡◌, ℕ, ◌<◌, ◌≤◌, ◌+◌, ◌-◌, [], length, replicate, IfSome};
ghost use Rattle.chains.specs.Chains.{Chained};
ghost use Rattle.move_index.specs.Keys.{state_key, state_key_at};
ghost use Rattle.tables.specs.Held.{table_of, EntriesStand, MovesStand};
ghost use Rattle.tables.specs.Records.{as_move};
ghost use Rattle.rising_moves.specs.Rising.{number_of, next_from, from_last, Rising, Rises, MovesRise, control_key, control_key_at};

use limits::Limits;
use tables::{Move, Table};

// The least move with the key of r and symbol a, where r is a state or a control as in the chains.
pub fn first(chains: &[u16], r: u64, a: u64) -> Option<usize>
    requires { Rises chains.now }
    ensures next { (key : ℕ → ℕ) → Rising key chains.now → number_of result ≡ next_from key (state_key r a) 0 }
    ensures there { IfSome result (λ i. i < 1024) }
{
    let j = chains::last(chains, move_index::state_key(r, a))?;
    Some(Limits::MOVES - 1 - j)
}

// The least move after move i with its key.
pub fn after(chains: &[u16], i: usize) -> Option<usize>
    requires { Rises chains.now × (i < 1024) }
    ensures next { (key : ℕ → ℕ) → Rising key chains.now → number_of result ≡ next_from key (key i) (i + 1) }
    ensures there { IfSome result (λ i. i < 1024) }
{
    let j = chains::before(chains, Limits::MOVES - 1 - i)?;
    Some(Limits::MOVES - 1 - j)
}

// Kept (5): `tables::Tables` would ask for inner edges too, which this index does not read: here and in the two functions below.
//
// The key of move m by the control of its entry and its symbol. A move of an inner state has one that no move of an entry has.
fn control_key(z: Table, entries: &[u64], m: Move) -> usize
    requires { EntriesStand z entries.now }
    ensures value { result ≡ control_key (table_of z entries.now []) (as_move m) }
    ensures below { result < 2048 }
{
    if m.state < z.inner1 {
        return move_index::state_key(Limits::CONTROLS, m.symbol);
    }
    let e = tables::entry_for(z, entries, m.state);
    move_index::state_key(e.control, m.symbol)
}

// Enters move i before the moves above i.
fn enter(
    z: Table,
    entries: &[u64],
    moves: &[u64],
    i: usize,
    states: &mut [u16],
    controls: &mut [u16],
)
    requires { EntriesStand z entries.now × MovesStand z moves.now × (i < z.moves) × (i < 1024) × (length states.old ≡ 3072) × (length controls.old ≡ 3072) }
    ensures by_index { (key : ℕ → ℕ) → key i ≡ state_key_at moves.now i → Chained (from_last key) (1023 - i) states.old
        → Chained (from_last key) (1023 - i + 1) states.new }
    ensures controls { (key : ℕ → ℕ) → key i ≡ control_key_at z entries.now moves.now i
        → Chained (from_last key) (1023 - i) controls.old → Chained (from_last key) (1023 - i + 1) controls.new }
{
    let m = tables::move_at(moves, i);
    let j = Limits::MOVES - 1 - i;
    chains::add(states, move_index::state_key(m.state, m.symbol), j);
    chains::add(controls, control_key(z, entries, m), j);
}

// Enters all moves of a table into chains that have none.
pub fn build(z: Table, entries: &[u64], moves: &[u64], states: &mut [u16], controls: &mut [u16])
    requires { EntriesStand z entries.now × MovesStand z moves.now × (z.moves ≤ 1024) × (states.old ≡ replicate 3072 0) × (controls.old ≡ replicate 3072 0) }
    ensures { MovesRise z entries.now moves.now states.new controls.new }
{
    for i in (0..z.moves).rev() {
        enter(z, entries, moves, i, states, controls);
    }
}
