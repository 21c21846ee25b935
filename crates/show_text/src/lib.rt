// The text that the program `show` prints for a case file, a start file and the number of a start.
#![tactic(auto)]

ghost use Rattle.std.specs.Prelude.{◌≡◌, ◌+◌, ◌≤◌, length};
ghost use Rattle.replies.specs.Numbers.{brackets_length};
ghost use Rattle.services.specs.Memory.{padded};
ghost use Rattle.services.specs.Brackets.{shown, show_text};
ghost use Rattle.start_file.specs.Checks.{files_of};
ghost use Rattle.text.specs.Written.{Written};

use limits::Limits;
use replies::Brackets;

// The text of what brackets answers: a refusal, or the text at the start of these bytes and a line end. Answers its length.
fn put_shown(text: &mut [u8], reply: Brackets, bytes: &[u8]) -> usize
    requires { (brackets_length reply ≤ length bytes.now) × (length bytes.now + 1 ≤ length text.old) × (29 ≤ length text.old) }
    ensures written { Written text.old 0 (shown reply bytes.now) text.new result }
    ensures within { result ≤ length text.old }
{
    match reply {
        Brackets::Refused(n) => text::put_refused(text, 0, n),
        Brackets::Printed(k) => {
            let end = text::put_text(text, 0, &bytes[..k]);
            text::put_text(text, end, b"\n")
        },
    }
}

// Writes the text for a case file, a start file and the number of a start, zeros behind it, and answers its length.
pub fn show_text(
    case: &[u8],
    start: &[u8],
    number: usize,
    text: &mut [u8; Limits::SHOW_TEXT],
) -> usize
    ensures text_after { text.new ≡ padded (65537) (show_text (files_of case.now start.now) number) }
    ensures long { result ≡ length (show_text (files_of case.now start.now) number) }
    ensures within { result ≤ 65537 }
{
    *text = [0u8; Limits::SHOW_TEXT];
    let mut bytes = [0u8; Limits::SHOW_BYTES];
    let reply = brackets::brackets(case, start, number, &mut bytes);
    put_shown(text, reply, &bytes)
}
