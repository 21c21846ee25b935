// Text written into lent bytes, one byte after another, as far as they reach. Each function writes its text from `at` on and answers where it
// ends, or `None` where it has passed the lent bytes: then there is no place to go on from. All other bytes stay as they are.
#![tactic(auto)]

ghost use Rattle.std.specs.Prelude.{[], ◌∷◌, Some};
ghost use Rattle.services.specs.Listing.{decimal};
ghost use Rattle.bounded_text.specs.Page.{page, Prints};

// One byte.
fn put_byte(text: &mut [u8], at: usize, byte: u8) -> Option<usize>
    ensures { Prints (page (Some at) text.old) (byte ∷ []) (page result text.new) }
{
    if at < text.len() {
        text[at] = byte;
        return Some(at + 1);
    }
    None
}

// These bytes.
pub fn put_bytes(text: &mut [u8], at: usize, bytes: &[u8]) -> Option<usize>
    ensures { Prints (page (Some at) text.old) bytes.now (page result text.new) }
{
    let mut end = at;
    for byte in bytes {
        end = put_byte(text, end, *byte)?;
    }
    Some(end)
}

// A number in decimal: at most 20 digits.
pub fn put_number(text: &mut [u8], at: usize, n: u64) -> Option<usize>
    ensures { Prints (page (Some at) text.old) (decimal n) (page result text.new) }
{
    let mut digits = [0u8; 20];
    let count = text::put_decimal(&mut digits, 0, n);
    put_bytes(text, at, &digits[..count])
}
