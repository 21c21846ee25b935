// Prints one start of start.bin, for case.bin, as brackets, both files in its working directory, and makes the file `written` there once it is
// written. Its argument is the number of the start in decimal.
#![tactic(auto)]

ghost use Rattle.std.specs.Counts.{IsPrefixLen};
ghost use Rattle.services.specs.Brackets.{show_text};
ghost use Rattle.printing.specs.Texts.{TextRead};

use limits::Limits;
use std::rt::Files;

// Reads the two files and writes the start of this number as brackets into the text. Answers its length.
fn read_show(files: &impl Files, number: usize, text: &mut [u8; Limits::SHOW_TEXT]) -> usize
    ensures text_read { TextRead (λ f. show_text f number) result text.new }
    ensures counts { IsPrefixLen result text.new }
{
    printing::text_of_files(
        files,
        text,
        |case, start, text| show_text::show_text(case, start, number, text),
    )
}

fn main(rt: HostRuntime) {
    let mut argument = [0u8; 4096];
    let a = printing::read_argument(&rt, 1, &mut argument);
    let number = number_text::start_named(&argument[..a]);
    let mut text = [0u8; Limits::SHOW_TEXT];
    let n = read_show(&rt, number, &mut text);
    let all = printing::write_text(&mut rt.stdout(), &text[..n]);
    printing::mark_written(&rt, all);
}
