// What the last round added: the moves from one number up to another. On which symbols there are such moves, and which states have none on
// a symbol.
#![tactic(auto)]

ghost use Rattle.std.specs.Prelude.{◌≡◌, ◌≤◌, ◌*◌, ◌%◌, length};
ghost use Rattle.words.specs.Sets.{member};
ghost use Rattle.tables.specs.Records.{as_move};
ghost use Rattle.round_news.specs.News.{HasSymbols, NoneHas, unsettled};

use limits::Limits;

// The symbols of the moves from number `from` up to `to`, as the members of a word: symbol a as a % 64.
pub fn new_symbols(moves: &[u64], from: usize, to: usize) -> u64
    requires { to * 5 ≤ length moves.now }
    ensures { HasSymbols moves.now from to result }
{
    let mut s: u64 = 0;
    for i in from..to {
        let m = tables::move_at(moves, i);
        s = sets::join(s, sets::one_bit(m.symbol % Limits::WORD_BITS as u64));
    }
    s
}

// Whether a move on symbol a may be among those whose symbols are given.
pub fn has_symbol(symbols: u64, a: u64) -> bool
    ensures { result ≡ member symbols (a % 64) }
{
    sets::has(symbols, a % Limits::WORD_BITS as u64)
}

// The states s, without the state of move m where m is on symbol a.
fn unsettle(s: u64, m: tables::Move, a: u64) -> u64
    ensures { result ≡ unsettled s (as_move m) a }
{
    if m.symbol != a {
        return s;
    }
    let q = m.state % Limits::WORD_BITS as u64;
    if !sets::has(s, q) {
        return s;
    }
    sets::without(s, q)
}

// States none of which has a move on symbol a among the moves from number `from` up to `to`, as the members of a word: all but r % 64 for
// every state r that has one.
pub fn settled_states(moves: &[u64], from: usize, to: usize, a: u64) -> u64
    requires { to * 5 ≤ length moves.now }
    ensures { NoneHas moves.now from to a result }
{
    let mut s = sets::full();
    for n in from..to {
        s = unsettle(s, tables::move_at(moves, n), a);
    }
    s
}
