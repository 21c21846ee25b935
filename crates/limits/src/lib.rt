// The papers' limits, the sizes of their records in files and in lent memory, and what follows from these: the lengths of files and of working
// memory. Constants only; nothing else in the code names these numbers.
#![tactic(auto)]

#[derive(Clone, Copy)]
pub struct Limits {}

impl Limits {
    // ---- what a case may have: controls P, inner order-2 states I, inner order-1 states J, symbols A; rules, edges, moves; order-1 states

    pub const CONTROLS: u64 = 8;

    pub const INNER2: u64 = 8;

    pub const INNER1: u64 = 16;

    pub const SYMBOLS: u64 = 32;

    pub const RULES: usize = 256;

    pub const EDGES: usize = 64;

    pub const MOVES: usize = 1024;

    pub const STATES1: usize = 64;

    // The bits of a word: the members that a set can have are below it.
    pub const WORD_BITS: usize = 64;

    // ---- as many rounds are all rounds: each but the last adds a move

    pub const ALL_ROUNDS: u64 = 1025;

    // ---- judge's word for an open start

    pub const OPEN_WORD: u16 = 65535;

    // ---- what a start file may have, and how many lent cells count

    pub const STARTS: usize = 64;

    pub const START_CELLS: usize = 256;

    pub const CELLS: usize = 4096;

    // ---- operations, each with a code

    pub const OPERATIONS: usize = 8;

    // ---- the first byte of a case, of a case with a record of operation codes, of a start file

    pub const CASE_FIRST: u64 = 4;

    pub const CODED_FIRST: u64 = 5;

    pub const START_FIRST: u64 = 2;

    // ---- lines of the contents of a case, of a case with a record of operation codes, of a start file

    pub const CASE_CONTENTS: usize = 4;

    pub const CODED_CONTENTS: usize = 5;

    pub const START_CONTENTS: usize = 2;

    // ---- the kinds of a cell: an empty order-1 stack, a symbol, an empty order-2 stack, an order-1 stack on an order-2 stack

    pub const EMPTY1_CELL: u64 = 1;

    pub const SYMBOL_CELL: u64 = 2;

    pub const EMPTY2_CELL: u64 = 3;

    pub const ABOVE_CELL: u64 = 4;

    // ---- bytes of a line of a table of contents, and of a record of each body

    pub const LINE_BYTES: usize = 8;

    pub const HEAD_BYTES: usize = 14;

    pub const RULE_BYTES: usize = 5;

    pub const EDGE_BYTES: usize = 4;

    pub const MOVE_BYTES: usize = 19;

    pub const START_BYTES: usize = 3;

    pub const CELL_BYTES: usize = 6;

    // ---- bytes of a rule number in a trace that is replayed

    pub const NUMBER_BYTES: usize = 2;

    // ---- the numbers of the bodies, from 0: five of a case, the last only where it has a record of operation codes; two of a start file

    pub const HEAD_BODY: usize = 0;

    pub const RULE_BODY: usize = 1;

    pub const EDGE_BODY: usize = 2;

    pub const MOVE_BODY: usize = 3;

    pub const CODE_BODY: usize = 4;

    pub const START_BODY: usize = 0;

    pub const CELL_BODY: usize = 1;

    // ---- the second byte of an edge that is an entry

    pub const ENTRY_MARK: u64 = 255;

    pub const FINAL_MARK: u64 = 254;

    // ---- words of a move, an entry, an edge, a result, the sizes after a round, a state of the memo table; 16-bit words of a cell, of which
    // the first are its fields

    pub const MOVE_WORDS: usize = 5;

    pub const ENTRY_WORDS: usize = 3;

    pub const EDGE_WORDS: usize = 3;

    pub const RESULT_WORDS: usize = 6;

    pub const SIZE_WORDS: usize = 2;

    pub const MEMO_WORDS: usize = 9;

    pub const FIELD_WORDS: usize = 4;

    pub const CELL_WORDS: usize = Limits::FIELD_WORDS + Limits::STATES1;

    // ---- working memory: the rules in our codes, inner edges, the results of a round, the sizes after round 0 and each round that adds a move,
    // the memo table

    pub const RULE_TABLE: usize = Limits::RULES * Limits::RULE_BYTES;

    pub const INNER_TABLE: usize = Limits::EDGES * Limits::EDGE_WORDS;

    pub const PENDING_TABLE: usize = Limits::MOVES * Limits::RESULT_WORDS;

    pub const SIZE_TABLE: usize = (Limits::MOVES + 1) * Limits::SIZE_WORDS;

    pub const MEMO_TABLE: usize = 15360 * Limits::MEMO_WORDS;

    // ---- chains of moves by a key: a 16-bit word for each key, and one for each move

    pub const CHAIN_KEYS: usize = 2048;

    pub const CHAIN_WORDS: usize = Limits::CHAIN_KEYS + Limits::MOVES;

    // ---- the longest sound files

    pub const CASE_FILE: usize = 1
        + Limits::CODED_CONTENTS * Limits::LINE_BYTES
        + Limits::HEAD_BYTES
        + Limits::RULES * Limits::RULE_BYTES
        + Limits::EDGES * Limits::EDGE_BYTES
        + Limits::MOVES * Limits::MOVE_BYTES
        + Limits::OPERATIONS;

    pub const START_FILE: usize = 1
        + Limits::START_CONTENTS * Limits::LINE_BYTES
        + Limits::STARTS * Limits::START_BYTES
        + Limits::START_CELLS * Limits::CELL_BYTES;

    // ---- what the printing program lends, and the bytes of its text: a line of sizes, the line of the largest count and a line for
    // each start, each as long as it can be

    pub const LISTING_CELLS: usize = 512;

    pub const LISTING_TRACE: usize = 1024;

    pub const SIZE_LINE: usize = 56;

    pub const MOST_LINE: usize = 26;

    pub const START_LINE: usize = 66;

    pub const LISTING_TEXT: usize = Limits::SIZE_LINE
        + Limits::MOST_LINE
        + Limits::STARTS * Limits::START_LINE;

    // ---- what the program `run` lends beside the moves, entries and cells that count, and the bytes of its text: six for each trace word, a
    // start's line, and what a number may take

    pub const RUN_TRACE: usize = 65536;

    pub const RUN_TEXT: usize = Limits::RUN_TRACE * 6 + 80;

    // ---- what the program `show` lends, and the bytes of its text: with a line end

    pub const SHOW_BYTES: usize = 65536;

    pub const SHOW_TEXT: usize = Limits::SHOW_BYTES + 1;
}
