// The answers of guide, replay and brackets as numbers, for a caller that has no enums.
#![tactic(auto)]

ghost use Rattle.std.specs.Prelude.{◌≡◌};
ghost use Rattle.replies.specs.Numbers.{number_of, reply_counts, replay_number, replay_step, brackets_number, brackets_length};

use replies::{Brackets, Counts, Halt, Replayed, Reply};

// The number of an answer of guide.
pub fn number_of(reply: Reply) -> u64
    ensures { result ≡ number_of reply }
{
    match reply {
        Reply::Refused(n) => n,
        Reply::NoRun => 258,
        Reply::Open => 259,
        Reply::Walked(Halt::Arrived(_)) => 0,
        Reply::Walked(Halt::TraceFull(_)) => 256,
        Reply::Walked(Halt::CellsShort(_)) => 257,
    }
}

// The steps and cells of an answer of guide.
pub fn counts_of(reply: Reply) -> Counts
    ensures { result ≡ reply_counts reply }
{
    match reply {
        Reply::Walked(Halt::Arrived(c) | Halt::TraceFull(c) | Halt::CellsShort(c)) => c,
        Reply::Refused(_) | Reply::NoRun | Reply::Open => Counts { steps: 0, cells: 0 },
    }
}

// The number of an answer of replay.
pub fn replay_number(reply: Replayed) -> u64
    ensures { result ≡ replay_number reply }
{
    match reply {
        Replayed::Refused(n) => n,
        Replayed::Accepted => 0,
        Replayed::FailsAt(_) => 260,
    }
}

// The step that fails, and 0 where none does.
pub fn replay_step(reply: Replayed) -> u64
    ensures { result ≡ replay_step reply }
{
    match reply {
        Replayed::Refused(_) | Replayed::Accepted => 0,
        Replayed::FailsAt(n) => n,
    }
}

// The number of an answer of brackets.
pub fn brackets_number(reply: Brackets) -> u64
    ensures { result ≡ brackets_number reply }
{
    match reply {
        Brackets::Refused(n) => n,
        Brackets::Printed(_) => 0,
    }
}

// The length of the text that brackets has printed, and 0 where it has printed none.
pub fn brackets_length(reply: Brackets) -> usize
    ensures { result ≡ brackets_length reply }
{
    match reply {
        Brackets::Refused(_) => 0,
        Brackets::Printed(length) => length,
    }
}
