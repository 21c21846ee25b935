// The text of what guide answers for a start: its line in the listing's form, and the rule numbers of its run on the next line.
#![tactic(auto)]

ghost use Rattle.std.specs.Prelude.{◌≡◌, ◌+◌, ◌*◌, ◌≤◌, ◌<◌, length};
ghost use Rattle.replies.specs.Numbers.{counts_of};
ghost use Rattle.replies.specs.declared.Reply.TheVariants.{Walked};
ghost use Rattle.text.specs.Written.{Written};
ghost use Rattle.services.specs.Run.{answer_text};
ghost use Rattle.answer_text.specs.Bounds.{Bounded};

use replies::{Halt, Reply};

// The steps of a walk.
#[tactic(auto, unfolding(replies::specs::Numbers::counts_of))]
fn steps_of(halt: Halt) -> u64
    ensures { result ≡ (counts_of halt).steps }
{
    match halt {
        Halt::Arrived(c) | Halt::TraceFull(c) | Halt::CellsShort(c) => c.steps,
    }
}

// The line of a start that was won in this round, whose walk halted so, and the rule numbers of its steps on the next line. Answers the
// length of both.
fn put_walk(text: &mut [u8], number: usize, round: u64, halt: Halt, trace: &[u16]) -> usize
    requires { Bounded number (length trace.now) (Walked halt) × (round < 10000) × (6 * length trace.now + 80 ≤ length text.old) }
    ensures written { Written text.old 0 (answer_text number round (Walked halt) trace.now) text.new result }
    ensures within { result ≤ 6 * length trace.now + 80 }
{
    let steps = steps_of(halt) as usize;
    let line = text::put_reply_line(text, 0, number as u64, round, Reply::Walked(halt));
    let end = number_text::put_numbers(text, line, &trace[..steps]);
    text::put_text(text, end, b"\n")
}

// The text of what guide answers for a start that was won in this round. Answers its length.
pub fn put_answer(text: &mut [u8], number: usize, round: u64, reply: Reply, trace: &[u16]) -> usize
    requires { Bounded number (length trace.now) reply × (round < 10000) × (6 * length trace.now + 80 ≤ length text.old) }
    ensures written { Written text.old 0 (answer_text number round reply trace.now) text.new result }
    ensures within { result ≤ 6 * length trace.now + 80 }
{
    match reply {
        Reply::Refused(n) => text::put_refused(text, 0, n),
        Reply::NoRun | Reply::Open => text::put_reply_line(text, 0, number as u64, round, reply),
        Reply::Walked(halt) => put_walk(text, number, round, halt, trace),
    }
}
