// Prints the run from one start of start.bin for case.bin, both in its working directory, and makes the file `written` there once it is written.
// Its arguments are the number of the start and a number of rounds, in decimal: all rounds where there is no second one.
#![tactic(auto)]

ghost use Rattle.std.specs.Counts.{IsPrefixLen};
ghost use Rattle.services.specs.Run.{run_text};
ghost use Rattle.printing.specs.Texts.{TextRead};

use limits::Limits;
use std::rt::Files;

// Reads the two files and writes the run from the start of this number, in so many rounds, into the text. Answers its length.
fn read_run(
    files: &impl Files,
    number: usize,
    rounds: u64,
    text: &mut [u8; Limits::RUN_TEXT],
) -> usize
    ensures text_read { TextRead (λ f. run_text f number rounds) result text.new }
    ensures counts { IsPrefixLen result text.new }
{
    printing::text_of_files(
        files,
        text,
        |case, start, text| run_text::run_text(case, start, number, rounds, text),
    )
}

fn main(rt: HostRuntime) {
    let mut argument = [0u8; 4096];
    let a = printing::read_argument(&rt, 1, &mut argument);
    let number = number_text::start_named(&argument[..a]);
    let mut second = [0u8; 4096];
    let b = printing::read_argument(&rt, 2, &mut second);
    let rounds = number_text::rounds_named(&second[..b]);
    let mut text = [0u8; Limits::RUN_TEXT];
    let n = read_run(&rt, number, rounds, &mut text);
    let all = printing::write_text(&mut rt.stdout(), &text[..n]);
    printing::mark_written(&rt, all);
}
