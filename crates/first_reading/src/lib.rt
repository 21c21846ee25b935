// The first reading, and the first choice of edges with a reading, whose joined sets are those of a known result. Each is found by recursion
// over the states left, with the joins carried along. A reading is searched no further where the states left can not reach the result.
#![tactic(auto)]

ghost use Rattle.std.specs.Prelude.{◌≡◌, ◌<◌, ◌≤◌, ◌+◌, ◌*◌, length};
ghost use Rattle.words.specs.Sets.{members};
ghost use Rattle.words.specs.Order.{same};
ghost use Rattle.tables.specs.Records.{as_move, as_result};
ghost use Rattle.joins.specs.Joining.{the_joins, as_joined};
ghost use Rattle.first_reading.specs.Search.{joins_key, wanted, within};
ghost use Rattle.first_reading.specs.Words.{moves_in, ReadyToRead, TablesFew, WordsForEach, TriesMove, FindsReading, FollowsEdge, FindsEdges};
ghost use Rattle.tables.specs.View.{automaton_in};
ghost use Rattle.first_reading.specs.Reach.{reach_with, can_fill};

use joins::Joins;
use limits::Limits;
use sets::Split;
use tables::{Move, Result, Tables};

// The joins, where there are any and their sets are parts of those of x.
fn parts_within(j: Option<Joins>, x: Result) -> Option<Joins>
    ensures { as_joined result ≡ within (as_result x) (as_joined j) }
{
    let k = j?;
    if !(sets::part_of(k.b, x.b) && sets::part_of(k.r, x.r)) {
        return None;
    }
    Some(k)
}

// Whether these joins are those of x.
pub fn is_wanted(order: u64, b: u64, r: u64, x: Result) -> bool
    ensures { result ≡ same (joins_key (the_joins order b r)) (wanted (as_result x)) }
{
    order == x.order && b == x.b && r == x.r
}

// What moves reach together: the states that they are of, and their sets, joined.
#[derive(Clone, Copy)]
struct Reach {
    states: u64,
    b: u64,
    r: u64,
}

// What z and move m reach, where m is a move on a of a state left that joins to (order, b, r) within the sets of x, and z otherwise.
fn reach_with(z: Reach, m: Move, a: u64, left: u64, order: u64, b: u64, r: u64, x: Result) -> Reach
    ensures { result ≡ reach_with a (as_result x) left (the_joins order b r) z (as_move m) }
{
    let q = m.state;
    if (Limits::WORD_BITS as u64) <= q || !sets::has(left, q) {
        return z;
    }
    let j = Joins { order, b, r };
    let Some(_) = parts_within(joins::candidate(m, q, a, j), x) else {
        return z;
    };
    Reach {
        states: sets::join(z.states, sets::one_bit(q)),
        b: sets::join(z.b, m.b),
        r: sets::join(z.r, m.r),
    }
}

// Whether the states left can still reach x: each has a move on a that joins to (order, b, r) within the sets of x, and the sets of all
// these moves, joined to b and r, fill those of x. If not, there is no reading.
fn can_fill(
    moves: &[u64],
    n: usize,
    a: u64,
    left: u64,
    order: u64,
    b: u64,
    r: u64,
    x: Result,
) -> bool
    requires { n * 5 ≤ length moves.now }
    ensures { result ≡ can_fill (moves_in n moves.now) a (as_result x) left (the_joins order b r) }
{
    let mut z = Reach { states: 0, b, r };
    for i in 0..n {
        z = reach_with(z, tables::move_at(moves, i), a, left, order, b, r, x);
    }
    sets::part_of(left, z.states) && sets::part_of(x.b, z.b) && sets::part_of(x.r, z.r)
}

// Kept (5): the joins are carried as plain words order, b and r here and in the three searches below: DECISIONS.md, 18.
//
// Reads on with move i for a state, the others being left. On success the numbers of the moves stand in `chosen`.
#[cycle(readings)]
fn read_with(
    moves: &[u64],
    n: usize,
    a: u64,
    part: Split,
    i: usize,
    order: u64,
    b: u64,
    r: u64,
    x: Result,
    chosen: &mut [u16],
) -> bool
    requires { ReadyToRead n moves.now chosen.old × (i < n) × (part.member < 64) }
    ensures { TriesMove (moves_in n moves.now) a (as_result x) part.member (members part.others) (the_joins order b r) i result
        chosen.old chosen.new }
{
    let m = tables::move_at(moves, i);
    let q = part.member;
    let j = Joins { order, b, r };
    let Some(k) = parts_within(joins::candidate(m, q, a, j), x) else {
        return false;
    };
    if first_reading(moves, n, a, part.others, k.order, k.b, k.r, x, chosen) {
        let at = q as usize;
        chosen[at] = i as u16;
        return true;
    }
    false
}

// The first reading of a from the states left whose sets, joined to those given, are those of x: whether there is one. On success the
// number of each state's move stands in `chosen`.
#[cycle(readings)]
pub fn first_reading(
    moves: &[u64],
    n: usize,
    a: u64,
    left: u64,
    order: u64,
    b: u64,
    r: u64,
    x: Result,
    chosen: &mut [u16],
) -> bool
    requires { ReadyToRead n moves.now chosen.old }
    ensures { FindsReading (moves_in n moves.now) a (as_result x) (members left) (the_joins order b r) result
        chosen.old chosen.new }
{
    if left == 0 {
        return is_wanted(order, b, r, x);
    }
    if !can_fill(moves, n, a, left, order, b, r, x) {
        return false;
    }
    let part = sets::least_member(left);
    for i in 0..n {
        if read_with(moves, n, a, part, i, order, b, r, x, chosen) {
            return true;
        }
    }
    false
}

// Goes on with edge e for a state, the others being left. On success the numbers of the edges stand in `edges` and those of the moves in
// `chosen`.
#[cycle(edges)]
fn follow(
    tables: &Tables<'_>,
    a: u64,
    part: Split,
    e: usize,
    names: u64,
    s: u64,
    order: u64,
    b: u64,
    r: u64,
    x: Result,
    edges: &mut [u16],
    chosen: &mut [u16],
) -> bool
    requires { TablesFew tables.now.table
        × (e < tables.now.table.edges + tables.now.table.entries) × (part.member < 64)
        × WordsForEach edges.old chosen.old }
    ensures { FollowsEdge (automaton_in tables.now) a (as_result x) (the_joins order b r)
        part.member (members part.others) names s e result edges.old edges.new chosen.old chosen.new }
{
    let q = part.member;
    let g = tables.edge_of(e);
    if g.state != q {
        return false;
    }
    let below = sets::join(s, g.s);
    if !sets::part_of(below, x.s) {
        return false;
    }
    let named = sets::join(names, sets::one_bit(g.first));
    if first_edges(
        tables,
        a,
        part.others,
        named,
        below,
        order,
        b,
        r,
        x,
        edges,
        chosen,
    ) {
        let at = q as usize;
        edges[at] = e as u16;
        return true;
    }
    false
}

// The first choice of an edge for each of the states left whose sets, joined to s, are that of x, with the first reading of a from the
// states that these edges and `names` name, joined to (order, b, r): whether there is one. On success the numbers of the edges stand in
// `edges` and those of the moves in `chosen`.
//
// Kept (5): what may not change: these functions take any two lent slices of 64 words.
#[cycle(edges)]
pub fn first_edges(
    tables: &Tables<'_>,
    a: u64,
    left: u64,
    names: u64,
    s: u64,
    order: u64,
    b: u64,
    r: u64,
    x: Result,
    edges: &mut [u16],
    chosen: &mut [u16],
) -> bool
    requires { TablesFew tables.now.table × WordsForEach edges.old chosen.old }
    ensures { FindsEdges (automaton_in tables.now) a (as_result x) (the_joins order b r)
        (members left) names s result edges.old edges.new chosen.old chosen.new }
{
    if left == 0 {
        let (moves, n) = (tables.moves, tables.table.moves);
        return s == x.s && first_reading(moves, n, a, names, order, b, r, x, chosen);
    }
    let part = sets::least_member(left);
    let n = tables.edge_count();
    for e in 0..n {
        if follow(tables, a, part, e, names, s, order, b, r, x, edges, chosen) {
            return true;
        }
    }
    false
}
