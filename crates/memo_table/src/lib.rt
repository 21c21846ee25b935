// A memo table: states of a recursion that were worked through already, in rows of nine words. A state's words give its place in the table;
// a state put into a row takes the place of what stood there. Each round has a table of moves of its own length, which stands in a state's
// kind: rows of earlier rounds are told by it, and the memo table is never cleared.
#![tactic(auto)]

ghost use Rattle.std.specs.Prelude.{◌≡◌, ◌+◌, ◌*◌, ◌≤◌, length};
ghost use Rattle.words.specs.Order.{same};
ghost use Rattle.tables.specs.Rows.{row_at, put_row};
ghost use Rattle.memo_table.specs.States.{state_words, read_state, edges_state};
ghost use Rattle.memo_table.specs.Layout.{state_row};

use limits::Limits;

// A state of the recursion over readings of a symbol, to entries of a control, in a table of n moves. Kind 2 * n + 1: the order-1 states
// `left` are still to be read, for the set s. Kind 2 * n + 2: an edge is still to be chosen for each of the order-2 states `left`; the edges
// so far name the order-1 states `named` and lead into s. Joined so far: (order, b, r). A row of kind 0 is empty.
// Kept (1): a row is words, and its kind also tells the round of the state, so it is a number.
#[derive(Clone, Copy, PartialEq, Eq)]
pub struct State {
    pub kind: u64,
    pub control: u64,
    pub symbol: u64,
    pub s: u64,
    pub left: u64,
    pub named: u64,
    pub order: u64,
    pub b: u64,
    pub r: u64,
}

// The state in which order-1 states are left, in a table of so many moves.
pub fn read_state(
    moves: u64,
    control: u64,
    symbol: u64,
    s: u64,
    left: u64,
    order: u64,
    b: u64,
    r: u64,
) -> State
    requires { moves ≤ 1024 }
    ensures { result ≡ read_state moves control symbol s left order b r }
{
    State {
        kind: moves * 2 + 1,
        ..edges_state(moves, control, symbol, s, left, 0, order, b, r)
    }
}

// The state in which order-2 states are left, in a table of so many moves.
pub fn edges_state(
    moves: u64,
    control: u64,
    symbol: u64,
    s: u64,
    left: u64,
    named: u64,
    order: u64,
    b: u64,
    r: u64,
) -> State
    requires { moves ≤ 1024 }
    ensures { result ≡ edges_state moves control symbol s left named order b r }
{
    State {
        kind: moves * 2 + 2,
        control,
        symbol,
        s,
        left,
        named,
        order,
        b,
        r,
    }
}

// A word that depends on every bit of h and of w.
fn mixed(h: u64, w: u64) -> u64 {
    let x = h.wrapping_add(w);
    let low = (x % 4294967296) * 2654435761;
    let high = (x >> 32u64) * 2246822519;
    let y = low.wrapping_add(high);
    y ^ (y >> 29u64)
}

// A word that depends on every word of a state.
fn digest(x: State) -> u64 {
    let mut h = x.kind;
    for w in [x.control, x.symbol, x.s, x.left, x.named, x.order, x.b, x.r] {
        h = mixed(h, w);
    }
    h
}

// The row of a state. Which row it is matters to no result, so nothing more is said of it.
pub fn place(t: &[u64], x: State) -> usize
    requires { 9 ≤ length t.now }
    ensures { result * 9 + 9 ≤ length t.now }
{
    let rows = t.len() / Limits::MEMO_WORDS;
    (digest(x) % rows as u64) as usize
}

// Kept (6): memory is fixed, so states stand in rows of words.
//
// The state in row i.
fn state_at(t: &[u64], i: usize) -> State
    requires { i * 9 + 9 ≤ length t.now }
    ensures { result ≡ row_at state_row t.now i }
{
    let at = i * Limits::MEMO_WORDS;
    State {
        kind: t[at],
        control: t[at + 1],
        symbol: t[at + 2],
        s: t[at + 3],
        left: t[at + 4],
        named: t[at + 5],
        order: t[at + 6],
        b: t[at + 7],
        r: t[at + 8],
    }
}

// Whether row i holds state x.
pub fn holds(t: &[u64], i: usize, x: State) -> bool
    requires { i * 9 + 9 ≤ length t.now }
    ensures { result ≡ same (state_words (row_at state_row t.now i)) (state_words x) }
{
    state_at(t, i) == x
}

// Writes a state into row i.
pub fn put(t: &mut [u64], i: usize, x: State)
    requires { i * 9 + 9 ≤ length t.old }
    ensures { t.new ≡ put_row state_row t.old i x }
{
    let at = i * Limits::MEMO_WORDS;
    t[at] = x.kind;
    t[at + 1] = x.control;
    t[at + 2] = x.symbol;
    t[at + 3] = x.s;
    t[at + 4] = x.left;
    t[at + 5] = x.named;
    t[at + 6] = x.order;
    t[at + 7] = x.b;
    t[at + 8] = x.r;
}
