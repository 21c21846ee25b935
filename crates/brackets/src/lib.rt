// The service brackets: the stack of a start as nested square brackets.
#![tactic(auto)]

ghost use Rattle.std.specs.Prelude.{◌≡◌, ◌<◌, length, Some};
ghost use Rattle.words.specs.Lists.{zeros};
ghost use Rattle.files.specs.Start.{starts_of, configuration_at};
ghost use Rattle.services.specs.Brackets.{stack_text, brackets_service};
ghost use Rattle.demands.specs.Demand1.{BracketsStates};
ghost use Rattle.demands.specs.Brackets.{PrintsExactly};
ghost use Rattle.bounded_text.specs.Page.{page, Prints};
ghost use Rattle.sound_files.specs.Sound.{StartSound};
ghost use Rattle.brackets.specs.Service.{brackets_input, brackets_done, the_reply};

use limits::Limits;
use replies::{Brackets, Refusal};

// Writes the stack of a start of a sound start file, from the start of the text as far as it reaches.
fn put_start(start: &[u8], number: usize, text: &mut [u8]) -> Option<usize>
    requires { StartSound start.now × (number < length (starts_of start.now)) }
    ensures { Prints (page (Some 0) text.old) (stack_text (configuration_at start.now number).stack) (page result text.new) }
{
    let x = start_records::start_at(start_file::start_body(start), number);
    let count = bytes_in::count_of(start, Limits::CELL_BODY);
    stack_text::put_stack(text, start_file::cell_body(start), count, x.root as usize)
}

// Writes the stack of a start of files, and answers its length, where the text is all zero before. Where it is refused, the text is zero again.
fn put_brackets(case: &[u8], start: &[u8], number: usize, text: &mut [u8]) -> Result<usize, Refusal>
    requires { text.old ≡ zeros (length text.old) }
    ensures { brackets_done (the_reply result) text.new ≡ brackets_service (brackets_input case.now start.now number (length text.old)) }
{
    sound_files::number_refusal(case, start, number)?;
    match put_start(start, number, text) {
        Some(length) => Ok(length),
        None => {
            zeroing::zero(text);
            Err(Refusal::LongText)
        },
    }
}

// Prints the stack of start `number` as brackets, zeros behind it. Answers the length of the text, or the number of a refusal, and then every byte
// is zero. Demand 1 holds of its answer; it has printed exactly where the files are sound, the start is there and the bytes lent suffice.
pub fn brackets(case: &[u8], start: &[u8], number: usize, text: &mut [u8]) -> Brackets
    ensures text_after { brackets_done result text.new ≡ brackets_service (brackets_input case.now start.now number (length text.old)) }
    ensures demand1 { BracketsStates (brackets_input case.now start.now number (length text.old)) (brackets_done result text.new) }
    ensures exactly { PrintsExactly (brackets_input case.now start.now number (length text.old)) result }
{
    zeroing::zero(text);
    match put_brackets(case, start, number, text) {
        Ok(length) => Brackets::Printed(length),
        Err(refusal) => Brackets::Refused(u64::from(refusal)),
    }
}
