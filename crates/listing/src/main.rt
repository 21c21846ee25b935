// Prints the listing of case.bin and start.bin in its working directory, and makes the file `written` there once it is written.
#![tactic(auto)]

ghost use Rattle.std.specs.Counts.{IsPrefixLen};
ghost use Rattle.services.specs.Listing.{listing_text};
ghost use Rattle.printing.specs.Texts.{TextRead};

use limits::Limits;
use std::rt::Files;

// Reads the two files and writes their listing into the text. Answers its length.
fn read_listing(files: &impl Files, text: &mut [u8; Limits::LISTING_TEXT]) -> usize
    ensures text_read { TextRead listing_text result text.new }
    ensures counts { IsPrefixLen result text.new }
{
    printing::text_of_files(
        files,
        text,
        |case, start, text| listing_text::listing(case, start, text),
    )
}

fn main(rt: HostRuntime) {
    let mut text = [0u8; Limits::LISTING_TEXT];
    let n = read_listing(&rt, &mut text);
    let all = printing::write_text(&mut rt.stdout(), &text[..n]);
    printing::mark_written(&rt, all);
}
