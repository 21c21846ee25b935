// The automaton in its slices: edges, entries and moves by their numbers.

ghost use Rattle.std.specs.Prelude.{◌≡◌, ◌<◌, ◌+◌, [], get_or};
ghost use Rattle.automata.specs.Automaton.{no_edge, no_move, entry_at, entry_of, entry_set};
ghost use Rattle.tables.specs.Rows.{rows_in};
ghost use Rattle.tables.specs.Held.{table_of, edges_in, found_entry, entry_for, EdgesStand, EntriesStand, MovesStand};
ghost use Rattle.tables.specs.Records.{as_move, as_entry, as_edge};
ghost use Rattle.tables.specs.Layouts.{move_row};

use crate::{Edge, Entry, Move, Table};

// Kept (2): `Tables` has methods of these names; the functions here ask only for the slices that they read.
//
// The edge of number n: an inner edge, or an entry as an edge.
pub fn edge_of(z: Table, inner: &[u64], entries: &[u64], n: usize) -> Edge
    requires { EdgesStand z inner.now × EntriesStand z entries.now × (n < z.edges + z.entries) }
    ensures result_value { as_edge result ≡ get_or (edges_in z inner.now entries.now) n no_edge }
    ensures small { result.first < 64 }
{
    let edges = z.edges;
    if n < edges {
        return crate::edge_at(inner, n);
    }
    let k = n - edges;
    let e = crate::entry_at(entries, k);
    Edge {
        state: e.control,
        first: z.inner1 + k as u64,
        s: e.s,
    }
}

// The entry that order-1 state r is, where it is one.
fn find_entry(z: Table, entries: &[u64], r: u64) -> Option<Entry>
    requires { EntriesStand z entries.now }
    ensures { found_entry result ≡ entry_at (table_of z entries.now []) r }
{
    if r < z.inner1 {
        return None;
    }
    let k = (r - z.inner1) as usize;
    if z.entries <= k {
        return None;
    }
    Some(crate::entry_at(entries, k))
}

// Whether order-1 state r is an entry of control p.
pub fn entry_of(z: Table, entries: &[u64], p: u64, r: u64) -> bool
    requires { EntriesStand z entries.now }
    ensures { result ≡ entry_of (table_of z entries.now []) p r }
{
    match find_entry(z, entries, r) {
        Some(e) => e.control == p,
        None => false,
    }
}

// The entry that order-1 state r is, and the entry of zeros where r is none.
pub fn entry_for(z: Table, entries: &[u64], r: u64) -> Entry
    requires { EntriesStand z entries.now }
    ensures { as_entry result ≡ entry_for (table_of z entries.now []) r }
{
    find_entry(z, entries, r).unwrap_or(Entry { control: 0, s: 0 })
}

// The set S of the entry that order-1 state r is, and the empty set where r is none.
pub fn entry_set(z: Table, entries: &[u64], r: u64) -> u64
    requires { EntriesStand z entries.now }
    ensures { result ≡ entry_set (table_of z entries.now []) r }
{
    entry_for(z, entries, r).s
}

// Move i, and the move of zeros where there is none.
pub fn move_of(z: Table, moves: &[u64], i: usize) -> Move
    requires { MovesStand z moves.now }
    ensures { as_move result ≡ get_or (rows_in move_row z.moves moves.now) i no_move }
{
    if i < z.moves {
        return crate::move_at(moves, i);
    }
    Move {
        state: 0,
        symbol: 0,
        order: 0,
        b: 0,
        r: 0,
    }
}
