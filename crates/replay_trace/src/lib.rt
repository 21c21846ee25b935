// The replay of a trace, step by step, on cells in lent bytes.
#![tactic(auto)]

ghost use Rattle.std.specs.Prelude.{◌≡◌, ◌≤◌, ◌*◌, length};
ghost use Rattle.services.specs.Replay.{rule_numbers};
ghost use Rattle.results.specs.Collecting.{rules_in, RulesStand};
ghost use Rattle.replay_step.specs.Place.{PlaceStands};
ghost use Rattle.replay_trace.specs.Turns.{TraceEnds};

use limits::Limits;
use replay_step::{Place, Stop};
use replies::{Refusal, Replayed};

// Replays the rule numbers of the trace from place w, with at most so many cells: the place after the last of them, or the answer where a step is
// not taken.
pub fn replay_trace(
    body: &[u8],
    count: usize,
    trace: &[u8],
    cells: &mut [u8],
    most: usize,
    w: Place,
) -> Result<Place, Replayed>
    requires { RulesStand count body.now × PlaceStands w cells.old × (w.cells ≤ most) × (most * 6 ≤ length cells.old) × (most ≤ 4096) }
    ensures { TraceEnds (rules_in count body.now) most (rule_numbers trace.now) w cells.old result cells.new }
{
    let steps = trace.len() / Limits::NUMBER_BYTES;
    let mut v = w;
    for i in 0..steps {
        let number = bytes_in::number2(trace, i * Limits::NUMBER_BYTES);
        match replay_step::replay_step(body, count, number, cells, most, v) {
            Ok(next) => v = next,
            Err(Stop::Fails) => return Err(Replayed::FailsAt(i as u64)),
            Err(Stop::Short) => return Err(Replayed::Refused(u64::from(Refusal::FewCells))),
        }
    }
    Ok(v)
}
