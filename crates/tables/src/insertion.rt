// Sorted insertion into the first rows of a table, for rows of any width: rows stand by rising words, each once.

ghost use Rattle.std.specs.Prelude.{◌≡◌, ◌<◌, ◌≤◌, ◌+◌, ◌-◌, ◌*◌, length, drop};
ghost use Rattle.std.proofs.Math.Seq.{paste};
ghost use Rattle.words.specs.Order.{less};
ghost use Rattle.tables.specs.Insertion.{row_words, word_rows, leading, reached, with_row, inserted_in, Inserted};
ghost use Rattle.tables.specs.Pending.{pending_in, insert_within};
ghost use Rattle.tables.specs.Records.{as_edge, as_result};
ghost use Rattle.tables.specs.Layouts.{edge_row};

use crate::{Edge, Result};

// Whether words x come before words y: the first that differ decide.
fn words_before(x: &[u64], y: &[u64]) -> bool
    requires { length x.now ≡ length y.now }
    ensures { result ≡ less x.now y.now }
{
    // Kept (3): no plainer as a chain, and `<` on slices goes through an option for each word, in more than twice the instructions.
    for i in 0..y.len() {
        if x[i] != y[i] {
            return x[i] < y[i];
        }
    }
    false
}

// The words of row i, where a row has so many.
fn row_words(t: &[u64], width: usize, i: usize) -> &[u64]
    requires { i * width + width ≤ length t.now }
    ensures { result.now ≡ row_words width t.now i }
{
    let at = i * width;
    &t[at..at + width]
}

// The number of leading rows, of the first n, that come before x.
fn place(t: &[u64], n: usize, x: &[u64]) -> usize
    requires { n * length x.now ≤ length t.now }
    ensures { result ≡ leading x.now (word_rows (length x.now) n t.now) }
{
    for i in 0..n {
        if !words_before(row_words(t, x.len(), i), x) {
            return i;
        }
    }
    n
}

// Whether row i, which is the first of n that does not come before x, is x.
fn holds(t: &[u64], n: usize, i: usize, x: &[u64]) -> bool
    requires { (n * length x.now ≤ length t.now) × (i ≡ leading x.now (word_rows (length x.now) n t.now)) }
    ensures { result ≡ reached x.now (word_rows (length x.now) n t.now) }
{
    i < n && !words_before(x, row_words(t, x.len(), i))
}

// Moves what stands from `at` up to `end` so many places further.
fn open_words(t: &mut [u64], at: usize, end: usize, places: usize)
    requires { (at ≤ end) × (end + places ≤ length t.old) }
    ensures { t.new ≡ paste t.old (at + places) (drop at t.old) (end - at) }
{
    // Kept (3): `copy_within` would have the archive for C need `memmove` from outside; so where words are copied below, and in `replay_cells::copy_cells`.
    for j in (at..end).rev() {
        t[j + places] = t[j];
    }
}

// Writes the words x from `at` on, and what stood from there up to `end` behind them.
fn put_between(t: &mut [u64], at: usize, end: usize, x: &[u64])
    requires { (at ≤ end) × (end + length x.now ≤ length t.old) }
    ensures { t.new ≡ paste (paste t.old (at + length x.now) (drop at t.old) (end - at)) at x.now (length x.now) }
{
    open_words(t, at, end, x.len());
    for i in 0..x.len() {
        t[at + i] = x[i];
    }
}

// Inserts the row x into the first n rows, which are sorted, unless it is there. Answers the number of rows then. It is more than `room` where
// there is no room for x.
fn insert_row(t: &mut [u64], n: usize, room: usize, x: &[u64]) -> usize
    requires { (room * length x.now ≤ length t.old) × (n ≤ room) × (1 < length x.now) }
    ensures value { result ≡ length (with_row n x.now t.old) }
    ensures t_after { t.new ≡ inserted_in room n x.now t.old }
{
    let i = place(t, n, x);
    if holds(t, n, i, x) {
        return n;
    }
    if n == room {
        return n + 1;
    }
    put_between(t, i * x.len(), n * x.len(), x);
    n + 1
}

// Kept (1): a number above `room` for no room is what this function promises, and `Collects` says it of all that collect.
//
// Inserts a result into the first n rows, as `insert_row` does. Where there was no room before, there is none now.
pub fn insert_result(t: &mut [u64], n: usize, room: usize, x: Result) -> usize
    requires { (room * 6 ≤ length t.old) × (n ≤ room + 1) }
    ensures t_after { pending_in room result t.new ≡ insert_within room (as_result x) (pending_in room n t.old) }
    ensures upper_bound { result ≤ room + 1 }
{
    if room < n {
        return n;
    }
    insert_row(t, n, room, &[x.control, x.s, x.symbol, x.order, x.b, x.r])
}

// Inserts an edge into the first n rows, which are sorted, unless it is there. Answers the number of rows then.
pub fn insert_edge(t: &mut [u64], n: usize, e: Edge) -> usize
    requires { n * 3 + 3 ≤ length t.old }
    ensures { Inserted edge_row t.old t.new n result (as_edge e) }
{
    insert_row(t, n, n + 1, &[e.state, e.first, e.s])
}
