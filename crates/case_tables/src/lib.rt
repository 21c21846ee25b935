// The inner edges, entries and moves of a case, decoded once into tables of words.
#![tactic(auto)]

ghost use Rattle.std.specs.Prelude.{◌≡◌, true, [], ◌∷◌, map, ℕ, ◌<◌, ◌≤◌, ◌+◌, ◌*◌, ◌^◌, length};
ghost use Rattle.words.specs.Sets.{set_of};
ghost use Rattle.files.specs.Bytes.{records};
ghost use Rattle.files.specs.Case.{case_placed, edge_bytes, entries_of, final_entries, inner_edges, move_of, own_of};
ghost use Rattle.services.specs.Memory.{entry_width, with_counts, counted};
ghost use Rattle.tables.specs.Rows.{row_at, rows_in};
ghost use Rattle.tables.specs.Layouts.{edge_row, entry_row, counted_row, move_row};
ghost use Rattle.tables.specs.Counts.{CountsAre, CountsStand};
ghost use Rattle.tables.specs.Held.{automaton_of};
ghost use Rattle.case_records.specs.Values.{the_head, the_edge};
ghost use Rattle.case_tables.specs.WrittenRows.{written};
ghost use Rattle.case_tables.specs.Decoded.{MoreInner};
ghost use Rattle.case_tables.specs.Counting.{move_counted};
ghost use Rattle.case_tables.specs.Own.{RoomForOwn};

use case_records::Head;
use limits::Limits;
use tables::Table;

// ---- inner edges

// Inserts the edge into the first n rows, if it is one of an inner state. Answers the number of rows then.
fn add_inner(h: Head, e: case_records::Edge, t: &mut [u64], n: usize) -> usize
    requires { n * 3 + 3 ≤ length t.old }
    ensures { MoreInner (the_head h) (the_edge e) t.old t.new n result }
{
    if e.state < h.controls {
        return n;
    }
    let x = tables::Edge {
        state: e.state,
        first: e.first,
        s: e.s,
    };
    tables::insert_edge(t, n, x)
}

// Writes the inner edges among the n edges of the body, by (state, order-1 state, S). Answers their number.
fn load_inner(h: Head, body: &[u8], n: usize, t: &mut [u64]) -> usize
    requires { (n * 4 ≤ length body.now) × (n ≤ 64) × (n * 3 ≤ length t.old) }
    ensures t_after { t.new ≡ written edge_row t.old 0 (inner_edges (the_head h) (map edge_bytes (records n 4 body.now))) }
    ensures value { result ≡ length (inner_edges (the_head h) (map edge_bytes (records n 4 body.now))) }
    ensures upper_bound { result ≤ n }
{
    let mut k: usize = 0;
    for i in (0..n).rev() {
        k = add_inner(h, case_records::edge_at(body, i), t, k);
    }
    k
}

// ---- entries

// Writes the edge into row k, if it is an entry. Answers the number of rows then.
fn add_entry(h: Head, e: case_records::Edge, t: &mut [u64], k: usize) -> usize
    requires { (k ≤ 64) × (e.state < h.controls → k * entry_width + entry_width ≤ length t.old) }
    ensures t_after { t.new ≡ written entry_row t.old k (entries_of (the_head h) (the_edge e ∷ [])) }
    ensures value { result ≡ k + length (entries_of (the_head h) (the_edge e ∷ [])) }
    ensures upper_bound { result ≤ k + 1 }
{
    if e.state < h.controls {
        let x = tables::Entry {
            control: e.state,
            s: e.s,
        };
        tables::put_entry(t, k, x);
        k + 1
    } else {
        k
    }
}

// Writes the entries among the n edges of the body. Answers their number.
fn load_entries(h: Head, body: &[u8], n: usize, t: &mut [u64]) -> usize
    requires { (n * 4 ≤ length body.now) × (n ≤ 64) × (length (entries_of (the_head h) (map edge_bytes (records n 4 body.now))) * entry_width ≤ length t.old) }
    ensures t_after { t.new ≡ written entry_row t.old 0 (entries_of (the_head h) (map edge_bytes (records n 4 body.now))) }
    ensures value { result ≡ length (entries_of (the_head h) (map edge_bytes (records n 4 body.now))) }
{
    let mut k: usize = 0;
    for i in 0..n {
        k = add_entry(h, case_records::edge_at(body, i), t, k);
    }
    k
}

// ---- final entries

// The set of order-1 state r where the edge is a final entry, which has that number, and otherwise the empty set.
fn final_entry(h: Head, e: case_records::Edge, r: u64) -> u64
    requires { e.state < h.controls → r < 64 }
    ensures { result ≡ set_of (final_entries (the_head h) r (the_edge e ∷ [])) }
{
    if e.state < h.controls && e.first == Limits::FINAL_MARK {
        sets::one_bit(r)
    } else {
        0
    }
}

// The set of the final entries among the n edges of the body, as order-1 states.
fn final_entries(h: Head, body: &[u8], n: usize) -> u64
    requires { (n * 4 ≤ length body.now) × (n ≤ 64) × (h.inner1 + length (entries_of (the_head h) (map edge_bytes (records n 4 body.now))) ≤ 64) }
    ensures { result ≡ set_of (final_entries (the_head h) h.inner1 (map edge_bytes (records n 4 body.now))) }
{
    let mut r = h.inner1;
    let mut set: u64 = 0;
    for i in 0..n {
        let e = case_records::edge_at(body, i);
        set = sets::join(set, final_entry(h, e, r));
        r += case_file::entry_count(h, e);
    }
    set
}

// ---- moves

// Raises the number of moves of the entry that order-1 state r is, among the first n. Inner states have no such number.
fn count_move(entries: &mut [u64], n: usize, inner1: u64, r: u64)
    requires { (n * entry_width ≤ length entries.old) × ((i : ℕ) → i < n → (row_at counted_row entries.old i).moves + 1 < 2 ^ 64) }
    ensures { entries.new ≡ move_counted inner1 n r entries.old }
{
    if let Some(k) = r.checked_sub(inner1) {
        if k < n as u64 {
            tables::raise_count(entries, k as usize);
        }
    }
}

// Writes the n moves of the body, and counts each with its entry. There are `known` entries, from order-1 state `inner1` on, without moves.
fn load_moves(body: &[u8], n: usize, t: &mut [u64], inner1: u64, known: usize, entries: &mut [u64])
    requires { (n * 19 ≤ length body.now) × (n ≤ 1024) × (n * 5 ≤ length t.old) × (known * entry_width ≤ length entries.old) × CountsAre inner1 known entries.old [] }
    ensures t_after { t.new ≡ written move_row t.old 0 (map move_of (records n 19 body.now)) }
    ensures entries_after { entries.new ≡ written counted_row entries.old 0
        (with_counts (map move_of (records n 19 body.now)) inner1 (rows_in entry_row known entries.old)) }
{
    for i in 0..n {
        let m = case_records::move_at(body, i);
        tables::put_move(t, i, m);
        count_move(entries, known, inner1, m.state);
    }
}

// ---- the case's own automaton

// Decodes the automaton of a file whose bodies are in place, and keeps the number of moves with each entry.
pub fn load_case(file: &[u8], inner: &mut [u64], entries: &mut [u64], moves: &mut [u64]) -> Table
    requires { (case_placed file.now ≡ true) × RoomForOwn file.now inner.old entries.old moves.old }
    ensures moves_after { automaton_of result inner.new entries.new moves.new ≡ own_of file.now }
    ensures inner_after { inner.new ≡ written edge_row inner.old 0 (own_of file.now).inner }
    ensures entries_after { entries.new ≡ written counted_row entries.old 0 (counted (own_of file.now)) }
    ensures moves_after_2 { moves.new ≡ written move_row moves.old 0 (own_of file.now).moves }
    ensures counted { CountsStand result entries.new moves.new }
{
    let h = case_file::head_of(file);
    let n = bytes_in::count_of(file, Limits::EDGE_BODY);
    let m = bytes_in::count_of(file, Limits::MOVE_BODY);
    let inner_count = load_inner(h, case_file::edge_body(file), n, inner);
    let entry_count = load_entries(h, case_file::edge_body(file), n, entries);
    load_moves(
        case_file::move_body(file),
        m,
        moves,
        h.inner1,
        entry_count,
        entries,
    );
    let finals = final_entries(h, case_file::edge_body(file), n);
    Table {
        inner1: h.inner1,
        final1: sets::join(h.final1, finals),
        final2: h.final2,
        edges: inner_count,
        entries: entry_count,
        moves: m,
    }
}
