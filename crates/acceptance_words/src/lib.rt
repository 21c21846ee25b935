// Since when a cell is accepted from a state: for each of 64 states the least round whose table accepts the cell, as a word of 16 bits: 0 where no
// table does, otherwise that round plus 1. What the words say of a state, a set, a move and an edge; one word written.
#![tactic(auto)]

ghost use Rattle.std.specs.Prelude.{◌≡◌, ◌<◌, ◌≤◌, ◌+◌, ◌*◌, length};
ghost use Rattle.words.specs.Sets.{members};
ghost use Rattle.replies.specs.Numbers.{answer_word};
ghost use Rattle.rounds.specs.Won as won;
ghost use Rattle.rounds.specs.Won.{is_won, latest, final_round, annotation_round, move_round, edge_round};
ghost use Rattle.tables.specs.Records.{as_move, as_edge};
ghost use Rattle.acceptance_words.specs.Rows.{round_in, with_earlier};

use limits::Limits;
use replies::Acceptance;
use tables::{Edge, Move};

// ---- answers

// The earlier of two answers.
fn earlier(a: Acceptance, b: Acceptance) -> Acceptance
    ensures { result ≡ won.earlier a b }
{
    match (a, b) {
        (Acceptance::Never, _) => b,
        (_, Acceptance::Never) => a,
        (Acceptance::Since(m), Acceptance::Since(n)) => Acceptance::Since(m.min(n)),
    }
}

// Kept (2): no plainer as one with `earlier`: they differ in what `Never` does.
//
// The later of two answers.
pub fn later(a: Acceptance, b: Acceptance) -> Acceptance
    ensures { result ≡ won.later a b }
{
    match (a, b) {
        (Acceptance::Never, _) => a,
        (_, Acceptance::Never) => b,
        (Acceptance::Since(m), Acceptance::Since(n)) => Acceptance::Since(m.max(n)),
    }
}

// Whether the answer is a round.
pub fn is_won(a: Acceptance) -> bool
    ensures { result ≡ is_won a }
{
    matches!(a, Acceptance::Since(_))
}

// The word of an answer.
pub fn word_of(a: Acceptance) -> u16
    requires { answer_word a < 65536 }
    ensures { result ≡ answer_word a }
{
    match a {
        Acceptance::Never => 0,
        Acceptance::Since(r) => (r + 1) as u16,
    }
}

// ---- the words of a cell

// Since when the cell is accepted from the state.
pub fn accepted(rounds: &[u16], cell: usize, state: u64) -> Acceptance
    requires { (cell * 64 + 64 ≤ length rounds.now) × (state < 64) }
    ensures value { result ≡ round_in rounds.now cell state }
    ensures small { answer_word result < 65536 }
{
    let word = rounds[cell * Limits::STATES1 + state as usize];
    if word == 0 {
        return Acceptance::Never;
    }
    Acceptance::Since(u64::from(word - 1))
}

// Since when the cell is accepted from every state of the set.
fn accepted_by_all(rounds: &[u16], cell: usize, set: u64) -> Acceptance
    requires { cell * 64 + 64 ≤ length rounds.now }
    ensures value { result ≡ latest (round_in rounds.now cell) (members set) }
    ensures small { answer_word result < 65536 }
{
    let mut left = set;
    let mut all = Acceptance::Since(0);
    while 0 < left {
        let part = sets::least_member(left);
        all = later(all, accepted(rounds, cell, part.member));
        left = part.others;
    }
    all
}

// Since when annotation u, of order k, is as a move of this order and annotation set b asks.
fn annotation_accepted(rounds: &[u16], u: usize, k: u64, order: u64, b: u64) -> Acceptance
    requires { u * 64 + 64 ≤ length rounds.now }
    ensures value { result ≡ annotation_round k (round_in rounds.now u) order b }
    ensures small { answer_word result < 65536 }
{
    if order == 0 {
        return Acceptance::Since(0);
    }
    if order == 1 {
        if k != 1 {
            return Acceptance::Never;
        }
        return accepted_by_all(rounds, u, b);
    }
    if k != 2 {
        return Acceptance::Never;
    }
    accepted_by_all(rounds, u, b)
}

// Since when annotation u, of order k, and rest s are as a move asks.
pub fn move_accepted(rounds: &[u16], m: Move, k: u64, u: usize, s: usize) -> Acceptance
    requires { (u * 64 + 64 ≤ length rounds.now) × (s * 64 + 64 ≤ length rounds.now) }
    ensures value { result ≡ move_round k (round_in rounds.now u) (round_in rounds.now s) (as_move m) }
    ensures small { answer_word result < 65536 }
{
    later(
        annotation_accepted(rounds, u, k, m.order, m.b),
        accepted_by_all(rounds, s, m.r),
    )
}

// Since when top w and rest t are as an edge asks.
pub fn edge_accepted(rounds: &[u16], e: Edge, w: usize, t: usize) -> Acceptance
    requires { (w * 64 + 64 ≤ length rounds.now) × (t * 64 + 64 ≤ length rounds.now) × (e.first < 64) }
    ensures value { result ≡ edge_round (round_in rounds.now w) (round_in rounds.now t) (as_edge e) }
    ensures small { answer_word result < 65536 }
{
    later(
        accepted(rounds, w, e.first),
        accepted_by_all(rounds, t, e.s),
    )
}

// The cell is accepted from the state since this or what stands there, the earlier.
pub fn put_earlier(rounds: &mut [u16], cell: usize, state: u64, a: Acceptance)
    requires { (cell * 64 + 64 ≤ length rounds.old) × (state < 64) × (answer_word a < 65536) }
    ensures { rounds.new ≡ with_earlier rounds.old cell state a }
{
    let b = earlier(accepted(rounds, cell, state), a);
    rounds[cell * Limits::STATES1 + state as usize] = word_of(b);
}

// Since when an empty stack is accepted from the state, where these are final.
pub fn final_accepted(set: u64, state: u64) -> Acceptance
    requires { state < 64 }
    ensures value { result ≡ final_round set state }
    ensures small { answer_word result < 65536 }
{
    if sets::has(set, state) {
        return Acceptance::Since(0);
    }
    Acceptance::Never
}
