// Joins of moves: their annotation sets, which are of one order, and their rest sets, each joined.
#![tactic(auto)]

ghost use Rattle.std.specs.Prelude.{◌≡◌};
ghost use Rattle.automata.specs.Derivation.{clash, join_move};
ghost use Rattle.tables.specs.Records.{as_move};
ghost use Rattle.joins.specs.Joining.{as_joins, as_joined, candidate_of};

use tables::Move;

// Joined annotation sets, of one order, and joined rest sets.
#[derive(Clone, Copy, PartialEq, Eq)]
pub struct Joins {
    pub order: u64,
    pub b: u64,
    pub r: u64,
}

// Whether one order is 1 and the other 2.
fn clashes(k: u64, l: u64) -> bool
    ensures { result ≡ clash k l }
{
    k != 0 && l != 0 && k != l
}

// The joins with the sets of a move, unless orders clash.
fn join_move(j: Joins, m: Move) -> Option<Joins>
    ensures { as_joined result ≡ join_move (as_joins j) (as_move m) }
{
    if clashes(j.order, m.order) {
        return None;
    }
    Some(Joins {
        order: j.order.max(m.order),
        b: sets::join(j.b, m.b),
        r: sets::join(j.r, m.r),
    })
}

// The joins with the sets of a move, where it is one of state q on symbol a and orders do not clash.
pub fn candidate(m: Move, q: u64, a: u64, j: Joins) -> Option<Joins>
    ensures { as_joined result ≡ candidate_of q a (as_joins j) (as_move m) }
{
    if m.state != q || m.symbol != a {
        return None;
    }
    join_move(j, m)
}
