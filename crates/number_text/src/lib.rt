// Numbers as text: written in decimal with spaces between them, and the number of a start or of rounds that an argument names.
#![tactic(auto)]

ghost use Rattle.std.specs.Prelude.{◌≡◌, ◌+◌, ◌*◌, ◌≤◌, ◌<◌, length};
ghost use Rattle.automata.specs.Saturation.{all_rounds};
ghost use Rattle.text.specs.Written.{Written};
ghost use Rattle.services.specs.Run.{spaced_numbers, numbers_text, with_digit, number_named};

use limits::Limits;

// ---- numbers as text

// Numbers in decimal from `at` on, a space before each: at most six bytes a number, the last with room for twenty digits. Answers the place
// after them.
fn put_spaced(out: &mut [u8], at: usize, numbers: &[u16]) -> usize
    requires { at + 6 * length numbers.now + 15 ≤ length out.old }
    ensures written { Written out.old at (spaced_numbers numbers.now) out.new result }
    ensures within { result ≤ at + 6 * length numbers.now }
{
    let mut end = at;
    for n in numbers {
        let number = text::put_text(out, end, b" ");
        end = text::put_decimal(out, number, u64::from(*n));
    }
    end
}

// Numbers in decimal, separated by single spaces.
pub fn put_numbers(out: &mut [u8], at: usize, numbers: &[u16]) -> usize
    requires { at + 6 * length numbers.now + 14 ≤ length out.old }
    ensures written { Written out.old at (numbers_text numbers.now) out.new result }
    ensures within { result ≤ at + 6 * length numbers.now }
{
    let Some((first, others)) = numbers.split_first() else {
        return at;
    };
    let end = text::put_decimal(out, at, u64::from(*first));
    put_spaced(out, end, others)
}

// ---- the numbers that arguments name

// A number with one more digit behind it, or `most` where that is larger or the byte is no digit.
fn with_digit(most: u64, n: u64, byte: u8) -> u64
    requires { (n ≤ most) × (most ≤ 65535) }
    ensures value { result ≡ with_digit most n byte }
    ensures within { result ≤ most }
{
    if !byte.is_ascii_digit() {
        return most;
    }
    (n * 10 + u64::from(byte - b'0')).min(most)
}

// The number that these bytes say in decimal, or `most` where it is larger or they say none.
fn named(most: u64, argument: &[u8]) -> u64
    requires { most ≤ 65535 }
    ensures { result ≡ number_named most argument.now }
{
    if argument.is_empty() {
        return most;
    }
    let mut n: u64 = 0;
    for byte in argument {
        n = with_digit(most, n, *byte);
    }
    n
}

// Kept (1): 64 for no number is this function's promise, as the papers have it.
//
// The number of a start that these bytes name, or 64, which no start has.
pub fn start_named(argument: &[u8]) -> usize
    ensures { result ≡ number_named 64 argument.now }
{
    named(Limits::STARTS as u64, argument) as usize
}

// The number of rounds that these bytes name, or all rounds where it is larger or they name none.
pub fn rounds_named(argument: &[u8]) -> u64
    ensures { result ≡ number_named all_rounds argument.now }
{
    named(Limits::ALL_ROUNDS, argument)
}
