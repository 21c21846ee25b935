// Results added to tables, one after another: each as the last move, with its entry where it is new.
#![tactic(auto)]

ghost use Rattle.std.specs.Prelude.{◌≡◌, [], ◌∷◌, ◌≤◌, ◌<◌, ◌+◌, ◌*◌, length, unwrap_or, IfSome, None};
ghost use Rattle.services.specs.Memory.{entry_width};
ghost use Rattle.tables.specs.Rows.{rows_in};
ghost use Rattle.tables.specs.Records.{as_entry, as_result};
ghost use Rattle.tables.specs.Layouts.{result_row};
ghost use Rattle.tables.specs.Held.{automaton_of};
ghost use Rattle.tables.specs.Counts.{CountsStand};
ghost use Rattle.added_results.specs.Adding.{Entered, Growing, StatesExist, Added, CountsKept};

use tables::Table;

// The number of entry e among the first n. Where it is not there, it is appended; none, where there are as many as `most`.
fn enter(entries: &mut [u64], n: usize, most: usize, e: tables::Entry) -> Option<usize>
    requires { (n ≤ most) × (most * entry_width ≤ length entries.old) }
    ensures entered { Entered entries.old n most (as_entry e) (unwrap_or result n) entries.new }
    ensures room { IfSome result (λ i. i < most) }
    ensures full { result ≡ None → most ≤ n }
{
    if let Some(i) = tables::entry_number(entries, n, e) {
        return Some(i);
    }
    if most <= n {
        return None;
    }
    tables::put_entry(entries, n, e);
    Some(n)
}

// Adds one result as the last move, and its entry where it is new, unless there are as many as `most`. The number of moves of its entry, and of no
// other, is raised: it equals the count by walking before and after.
fn add_result(
    z: Table,
    entries: &mut [u64],
    moves: &mut [u64],
    most: usize,
    x: tables::Result,
) -> Option<Table>
    requires { Growing z most entries.old × StatesExist (automaton_of z [] entries.old moves.old) × CountsStand z entries.old moves.old
        × (z.moves * 5 + 5 ≤ length moves.old) }
    ensures added { Added z most entries.old moves.old (as_result x ∷ []) result entries.new moves.new }
    ensures counted { CountsKept z most entries.old moves.old (as_result x ∷ []) result entries.new moves.new }
{
    let e = tables::Entry {
        control: x.control,
        s: x.s,
    };
    let i = enter(entries, z.entries, most, e)?;
    let m = tables::Move {
        state: z.inner1 + i as u64,
        symbol: x.symbol,
        order: x.order,
        b: x.b,
        r: x.r,
    };
    tables::put_move(moves, z.moves, m);
    tables::raise_count(entries, i);
    Some(Table {
        inner1: z.inner1,
        final1: z.final1,
        final2: z.final2,
        edges: z.edges,
        entries: z.entries.max(i + 1),
        moves: z.moves + 1,
    })
}

// Kept (6): the results stand in rows of a lent slice, their number beside it, as memory is fixed.
// Adds the results in the first n rows of `pending`, one after another. There may be `most` entries: none, where there is no room for one more.
pub fn add_results(
    z: Table,
    entries: &mut [u64],
    moves: &mut [u64],
    most: usize,
    pending: &[u64],
    n: usize,
) -> Option<Table>
    requires { Growing z most entries.old × StatesExist (automaton_of z [] entries.old moves.old) × CountsStand z entries.old moves.old
        × ((z.moves + n) * 5 ≤ length moves.old) × (n * 6 ≤ length pending.now) }
    ensures added { Added z most entries.old moves.old (rows_in result_row n pending.now) result entries.new moves.new }
    ensures counted { CountsKept z most entries.old moves.old (rows_in result_row n pending.now) result entries.new moves.new }
{
    let mut table = z;
    for i in 0..n {
        table = add_result(table, entries, moves, most, tables::result_at(pending, i))?;
    }
    Some(table)
}
