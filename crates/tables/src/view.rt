// An automaton in lent memory, which is only read: its numbers, and its inner edges, entries and moves in the first rows of three slices.

ghost use Rattle.std.specs.Prelude.{◌≡◌, ◌<◌, ◌+◌, [], get_or};
ghost use Rattle.automata.specs.Automaton.{no_edge, no_move, entry_of, entry_set};
ghost use Rattle.tables.specs.Rows.{row_at, rows_in};
ghost use Rattle.tables.specs.Held.{table_of, edges_in, entry_for, EdgesStand, EntriesStand, MovesStand};
ghost use Rattle.tables.specs.Records.{as_move, as_entry, as_edge};
ghost use Rattle.tables.specs.Layouts.{move_row, entry_row};

use crate::{Edge, Entry, Move, Table};

// The tables of an automaton: all their rows stand in the slices, and there are at most 64 order-1 states.
#[derive(Clone, Copy)]
pub struct Tables<'a> {
    pub table: Table,
    pub inner: &'a [u64],
    pub entries: &'a [u64],
    pub moves: &'a [u64],
    pub ghost edges_stand: { EdgesStand table inner.now },
    pub ghost entries_stand: { EntriesStand table entries.now },
    pub ghost moves_stand: { MovesStand table moves.now },
}

impl<'a> Tables<'a> {
    // How many edges there are: inner edges, and entries as edges.
    pub fn edge_count(&self) -> usize
        ensures { result ≡ self.now.table.edges + self.now.table.entries }
    {
        self.table.edges + self.table.entries
    }

    // The edge of number n: an inner edge, or an entry as an edge.
    pub fn edge_of(&self, n: usize) -> Edge
        requires { n < self.now.table.edges + self.now.table.entries }
        ensures result_value { as_edge result ≡ get_or (edges_in self.now.table self.now.inner.now self.now.entries.now) n no_edge }
        ensures small { result.first < 64 }
    {
        crate::edge_of(self.table, self.inner, self.entries, n)
    }

    // The entry in row k.
    pub fn entry_at(&self, k: usize) -> Entry
        requires { k < self.now.table.entries }
        ensures { as_entry result ≡ row_at entry_row self.now.entries.now k }
    {
        crate::entry_at(self.entries, k)
    }

    // Whether order-1 state r is an entry of control p.
    pub fn entry_of(&self, p: u64, r: u64) -> bool
        ensures { result ≡ entry_of (table_of self.now.table self.now.entries.now []) p r }
    {
        crate::entry_of(self.table, self.entries, p, r)
    }

    // The entry that order-1 state r is, and the entry of zeros where r is none.
    pub fn entry_for(&self, r: u64) -> Entry
        ensures { as_entry result ≡ entry_for (table_of self.now.table self.now.entries.now []) r }
    {
        crate::entry_for(self.table, self.entries, r)
    }

    // The set S of the entry that order-1 state r is, and the empty set where r is none.
    pub fn entry_set(&self, r: u64) -> u64
        ensures { result ≡ entry_set (table_of self.now.table self.now.entries.now []) r }
    {
        crate::entry_set(self.table, self.entries, r)
    }

    // The move in row i.
    pub fn move_at(&self, i: usize) -> Move
        requires { i < self.now.table.moves }
        ensures { as_move result ≡ row_at move_row self.now.moves.now i }
    {
        crate::move_at(self.moves, i)
    }

    // Move i, and the move of zeros where there is none.
    pub fn move_of(&self, i: usize) -> Move
        ensures { as_move result ≡ get_or (rows_in move_row self.now.table.moves self.now.moves.now) i no_move }
    {
        crate::move_of(self.table, self.moves, i)
    }
}
