// The tables of a round, which are only read, with the index of their moves: each of three structs has what the one before it has, and more.

ghost use Rattle.tables.specs.Held.{EdgesStand, EntriesStand, MovesStand};
ghost use Rattle.move_index.specs.Keys.{ByState, ByWords};

use tables::Table;

// The entries and moves, and the chains of all moves by all their words: whether a result is held can be told.
#[derive(Clone, Copy)]
pub struct WordsIndexed<'a> {
    pub table: Table,
    pub entries: &'a [u64],
    pub moves: &'a [u64],
    pub words: &'a [u16],
    pub ghost entries_stand: { EntriesStand table entries.now },
    pub ghost moves_stand: { MovesStand table moves.now },
    pub ghost by_words: { ByWords table.moves moves.now words.now },
}

// The same with the chains of all moves by state and symbol: the moves of a state can be found.
#[derive(Clone, Copy)]
pub struct MovesIndexed<'a> {
    pub held: WordsIndexed<'a>,
    pub states: &'a [u16],
    pub ghost by_state: { ByState held.table.moves held.moves.now states.now },
}

// The same with the inner edges.
#[derive(Clone, Copy)]
pub struct Indexed<'a> {
    pub moves: MovesIndexed<'a>,
    pub inner: &'a [u64],
    pub ghost edges_stand: { EdgesStand moves.held.table inner.now },
}
