// The results of all rules from the table of the earlier rounds, collected: those that are not yet held, sorted, each once. What the table of
// the round before gives is held, so only what the last round added is looked at.
#![tactic(auto)]

ghost use Rattle.std.specs.Prelude.{◌≡◌, [], ◌∷◌, ◌<◌, ◌≤◌, ◌+◌, ◌*◌, length};
ghost use Rattle.tables.specs.Rows.{row_at};
ghost use Rattle.tables.specs.Records.{as_result};
ghost use Rattle.tables.specs.Layouts.{entry_row};
ghost use Rattle.tables.specs.Pending.{pending_in, limited};
ghost use Rattle.move_index.specs.View.{automaton_in, table_in};
ghost use Rattle.offers.specs.Offers.{Room, Collects};
ghost use Rattle.readings.specs.Before.{table_before, Known};
ghost use Rattle.readings.specs.Memo.{MemoUpTo};
ghost use Rattle.readings.specs.Gathering.{CanCollect, CollectsAll};
ghost use Rattle.round_news.specs.News.{HasSymbols};
ghost use Rattle.premises.specs.Settled.{SettledBy};
ghost use Rattle.case_records.specs.Values.{the_operation, the_rule};
ghost use Rattle.results.specs.Rules.{entry_result, entries_results, rule_gives};
ghost use Rattle.results.specs.Entries.{EntriesKnown};
ghost use Rattle.results.specs.Collecting.{rules_in, new_results, RoundKnown};
ghost use Rattle.results.specs.Steps.{entry_step};
ghost use Rattle.results.specs.Uses.{use_of, use_gives};

use move_index::{Indexed, WordsIndexed};
use premises::{MoveUse, Source};
use readings::{Before, Goal};

// How an operation uses an entry itself.
#[derive(Clone, Copy)]
enum EntryUse {
    Popped,
    Collapsed,
}

// What order-1 state r, an entry with the set s, gives.
fn entry_result(to: Goal, kind: EntryUse, s: u64, r: u64) -> tables::Result
    requires { r < 64 }
    ensures { as_result result ≡ entry_result to.control to.symbol kind s r }
{
    let bit = sets::one_bit(r);
    match kind {
        EntryUse::Popped => readings::result(to, s, 0, 0, bit),
        EntryUse::Collapsed => readings::result(to, s, 1, bit, 0),
    }
}

// Collects what entry number i gives, where its control is q.
fn by_entry(
    by: &WordsIndexed<'_>,
    to: Goal,
    kind: EntryUse,
    q: u64,
    i: usize,
    out: &mut [u64],
    n: usize,
) -> usize
    requires { Room to.room n out.old × (i < by.now.table.entries) }
    ensures { Collects (table_in by.now) to.room n out.old
        (entry_step (table_in by.now) to.control to.symbol kind q i (row_at entry_row by.now.entries.now i)) result out.new }
{
    let e = tables::entry_at(by.entries, i);
    if e.control != q {
        return n;
    }
    let x = entry_result(to, kind, e.s, by.table.inner1 + i as u64);
    offers::offer(by, x, out, n, to.room)
}

// Collects what the entries of control q give. What the entries below number `first` give is held.
fn by_entries(
    by: &WordsIndexed<'_>,
    to: Goal,
    kind: EntryUse,
    q: u64,
    first: usize,
    out: &mut [u64],
    n: usize,
) -> usize
    requires { Room to.room n out.old
        × EntriesKnown (table_in by.now) to.control to.symbol kind q first }
    ensures { Collects (table_in by.now) to.room n out.old
        (entries_results (table_in by.now) to.control to.symbol kind q) result out.new }
{
    let mut k = n;
    for i in first..by.table.entries {
        k = by_entry(by, to, kind, q, i, out, k);
    }
    k
}

// Collects a result that a rule gives from nothing. It is held if there was a round before.
fn by_nothing(
    by: &WordsIndexed<'_>,
    to: Goal,
    x: tables::Result,
    out: &mut [u64],
    n: usize,
) -> usize
    requires { Room to.room n out.old
        × Known (table_in by.now) to.before.new (as_result x ∷ []) }
    ensures { Collects (table_in by.now) to.room n out.old (as_result x ∷ []) result out.new }
{
    if !to.before.new {
        return n;
    }
    offers::offer(by, x, out, n, to.room)
}

// What a rule's operation uses: moves on a symbol of the entries of the control that it goes to, these entries, or nothing, for one result.
#[derive(Clone, Copy)]
enum Use {
    Moves(MoveUse, u64),
    Entries(EntryUse),
    Nothing(tables::Result),
}

// What a rule's operation uses.
fn use_of(to: Goal, rule: case_records::Rule) -> Use
    requires { (rule.next < 64) × (to.control ≡ rule.control) × (to.symbol ≡ rule.symbol) }
    ensures { result ≡ use_of rule.control rule.symbol rule.next (the_operation rule.operation) }
{
    let bit = sets::one_bit(rule.next);
    match rule.operation {
        case_records::Operation::Rewrite(b) => Use::Moves(MoveUse::Rewritten, b),
        case_records::Operation::Push1(b) => Use::Moves(MoveUse::Pushed1, b),
        case_records::Operation::Push2(b) => Use::Moves(MoveUse::Pushed2, b),
        case_records::Operation::Copy => Use::Moves(MoveUse::Copied, rule.symbol),
        case_records::Operation::Pop1 => Use::Entries(EntryUse::Popped),
        case_records::Operation::Pop2 => Use::Nothing(readings::result(to, bit, 0, 0, 0)),
        case_records::Operation::Collapse1 => Use::Entries(EntryUse::Collapsed),
        case_records::Operation::Collapse2 => Use::Nothing(readings::result(to, 0, 2, bit, 0)),
    }
}

// Collects what an operation gives that uses this and goes to control q. The table of the round before, t, and the symbols of the newer moves
// are those of `control_moves::by_moves`, here and in the functions that follow; so are the index and `memo`.
fn by_use(
    by: &Indexed<'_>,
    to: Goal,
    symbols: u64,
    q: u64,
    used: Use,
    memo: &mut [u64],
    out: &mut [u64],
    n: usize,
) -> usize
    requires { CanCollect (automaton_in by.now) to.room n out.old memo.old
        × SettledBy (automaton_in by.now) to.before (use_gives to q used (table_before to.before (automaton_in by.now)))
        × HasSymbols by.now.moves.held.moves.now to.before.moves by.now.moves.held.table.moves symbols × (to.before.settled ≡ 0) }
    ensures { CollectsAll (automaton_in by.now) to.room n out.old
        (use_gives to q used) result out.new memo.new }
{
    let old = to.before.entries;
    match used {
        Use::Moves(kind, b) => {
            let from = Source {
                kind,
                symbol: b,
                control: q,
            };
            control_moves::by_moves(by, to, symbols, from, memo, out, n)
        }
        Use::Entries(k) => by_entries(&by.moves.held, to, k, q, old, out, n),
        Use::Nothing(x) => by_nothing(&by.moves.held, to, x, out, n),
    }
}

// Collects the results of a rule.
fn by_rule(
    by: &Indexed<'_>,
    t: Before,
    symbols: u64,
    rule: case_records::Rule,
    room: usize,
    memo: &mut [u64],
    out: &mut [u64],
    n: usize,
) -> usize
    requires { CanCollect (automaton_in by.now) room n out.old memo.old
        × SettledBy (automaton_in by.now) t (rule_gives (the_rule rule) (table_before t (automaton_in by.now)))
        × HasSymbols by.now.moves.held.moves.now t.moves by.now.moves.held.table.moves symbols × (rule.next < 64) × (t.settled ≡ 0) }
    ensures { CollectsAll (automaton_in by.now) room n out.old
        (rule_gives (the_rule rule)) result out.new memo.new }
{
    let to = Goal {
        control: rule.control,
        symbol: rule.symbol,
        room,
        before: t,
    };
    let used = use_of(to, rule);
    by_use(by, to, symbols, rule.next, used, memo, out, n)
}

// Collects the results of the first `count` rules of a body that are not yet held: sorted, each once, in the first rows of `out`. Answers
// their number, and a number above `room` where there is no room for them. t is the table of the round before, all of whose results are held.
// States that were worked through stand in `memo`, in rows of this round.
pub fn collect(
    by: &Indexed<'_>,
    t: Before,
    body: &[u8],
    count: usize,
    memo: &mut [u64],
    out: &mut [u64],
    room: usize,
) -> usize
    requires { RoundKnown (automaton_in by.now) t count body.now memo.old × (room * 6 ≤ length out.old) }
    ensures out_after { pending_in room result out.new
        ≡ limited room (new_results (rules_in count body.now) (automaton_in by.now)) }
    ensures upper_bound { result ≤ room + 1 }
    ensures memo { MemoUpTo by.now.moves.held.table.moves memo.new }
{
    let held = &by.moves.held;
    let symbols = round_news::new_symbols(held.moves, t.moves, held.table.moves);
    let mut n: usize = 0;
    for i in 0..count {
        let rule = case_records::rule_at(body, i);
        n = by_rule(by, t, symbols, rule, room, memo, out, n);
    }
    n
}
