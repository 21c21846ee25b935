// The choices of a state: its moves on a symbol that join with what is joined so far. Which member of a set is read next, and whether a
// state's choices leave the joins as they are.
#![tactic(auto)]

ghost use Rattle.std.specs.Prelude.{◌≡◌, true, ◌<◌};
ghost use Rattle.words.specs.Sets.{member};
ghost use Rattle.automata.specs.Automaton.{Automaton};
ghost use Rattle.tables.specs.Rows.{rows_in};
ghost use Rattle.tables.specs.Layouts.{move_row};
ghost use Rattle.tables.specs.Held.{MovesStand};
ghost use Rattle.move_index.specs.Keys.{ByState};
ghost use Rattle.chains.specs.Chains.{number_after};
ghost use Rattle.joins.specs.Joining.{as_joins};
ghost use Rattle.choices.specs.Unchanged.{Unchanged};

use joins::Joins;
use limits::Limits;

// Kept (5): `move_index::MovesIndexed` would ask more than this clause does: entries, and chains by all words; so in the two functions below.

// How many choices state q has, of which equal ones that follow each other count once; `most` where there are as many or more. A guide for
// the order of work alone: no result depends on it, so nothing is said of it.
fn count(
    z: tables::Table,
    moves: &[u64],
    states: &[u16],
    q: u64,
    a: u64,
    j: Joins,
    most: usize,
) -> usize
    requires { MovesStand z moves.now × ByState z.moves moves.now states.now }
{
    let mut n: usize = 0;
    let mut latest = None;
    let mut next = chains::last(states, move_index::state_key(q, a));
    while let Some(i) = next {
        if most <= n {
            return most;
        }
        let x = joins::candidate(tables::move_at(moves, i), q, a, j);
        if x.is_some() && x != latest {
            n += 1;
            latest = x;
        }
        next = chains::before(states, i);
    }
    n
}

// The member of a set that has the fewest choices; of equals the least. A member with none or one is taken at once.
pub fn fewest(z: tables::Table, moves: &[u64], states: &[u16], left: u64, a: u64, j: Joins) -> u64
    requires { MovesStand z moves.now × ByState z.moves moves.now states.now × (0 < left) }
    ensures result_value { member left result ≡ true }
    ensures upper_bound { result < 64 }
{
    let first = sets::least_member(left);
    let mut best = first.member;
    let mut rest = first.others;
    let mut n = count(z, moves, states, best, a, j, Limits::MOVES);
    while rest != 0 {
        if n < 2 {
            return best;
        }
        let part = sets::least_member(rest);
        let k = count(z, moves, states, part.member, a, j, n);
        if k < n {
            n = k;
            best = part.member;
        }
        rest = part.others;
    }
    best
}

// The oldest of the choices of state q, where they all leave j as it is.
pub fn unchanged(
    z: tables::Table,
    moves: &[u64],
    states: &[u16],
    q: u64,
    a: u64,
    j: Joins,
) -> Option<usize>
    requires { MovesStand z moves.now × ByState z.moves moves.now states.now }
    ensures { (A : Automaton) → A.moves ≡ rows_in move_row z.moves moves.now → Unchanged A q a (as_joins j) (number_after result) }
{
    let mut oldest = None;
    let mut next = chains::last(states, move_index::state_key(q, a));
    while let Some(i) = next {
        if let Some(k) = joins::candidate(tables::move_at(moves, i), q, a, j) {
            if k != j {
                return None;
            }
            oldest = next;
        }
        next = chains::before(states, i);
    }
    oldest
}
