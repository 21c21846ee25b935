// Whether a configuration lies in a case's target, by the case's own automaton, for a stack in cells of six bytes. Nothing is lent for it.
#![tactic(auto)]

ghost use Rattle.std.specs.Prelude.{◌≡◌};
ghost use Rattle.automata.specs.Acceptance.{in_target};
ghost use Rattle.files.specs.Case.{case_refusal, own_of};
ghost use Rattle.tables.specs.View.{automaton_in};
ghost use Rattle.acceptance.specs.Named.{NamedIn};
ghost use Rattle.own_target.specs.Target.{configuration_in, RootStands};

use limits::Limits;
use tables::Tables;

// Control `control` with the stack of cell `root`, of the first n, is accepted by the automaton in these tables. It has no rounds, so there are no
// sizes.
fn root_accepted(tables: &Tables<'_>, cells: &[u8], n: usize, control: u64, root: usize) -> bool
    requires { NamedIn tables.now × RootStands n cells.now control root }
    ensures { result ≡ in_target (automaton_in tables.now) (configuration_in n cells.now control root) }
{
    let mut rounds = [0u16; Limits::CELLS * Limits::STATES1];
    let sizes = [0u64; 0];
    acceptance::fill_rounds(tables, &sizes, 0, cells, n, &mut rounds);
    acceptance_words::is_won(acceptance_words::accepted(&rounds, root, control))
}

// Control `control` with the stack of cell `root`, of the first n, lies in the target of a sound case.
pub fn in_target(case: &[u8], cells: &[u8], n: usize, control: u64, root: usize) -> bool
    requires { (case_refusal case.now ≡ 0) × RootStands n cells.now control root }
    ensures { result ≡ in_target (own_of case.now) (configuration_in n cells.now control root) }
{
    let mut inner = [0u64; Limits::INNER_TABLE];
    let mut entries = [0u64; Limits::STATES1 * Limits::ENTRY_WORDS];
    let mut moves = [0u64; Limits::MOVES * Limits::MOVE_WORDS];
    let table = case_tables::load_case(case, &mut inner, &mut entries, &mut moves);
    let tables = Tables {
        table,
        inner: &inner,
        entries: &entries,
        moves: &moves,
    };
    root_accepted(&tables, cells, n, control, root)
}
