// The lines of the listing, written into lent bytes. Each function writes its text from `at` on and answers the place after it; all other
// bytes stay as they are.
#![tactic(auto)]

ghost use Rattle.std.specs.Prelude.{[], ◌∷◌, ◌++◌, ◌+◌, ◌%◌, ◌<◌, ◌≤◌, length};
ghost use Rattle.services.specs.Listing.{ascii, decimal, size_line, most_line, counts_text, halt_text, reply_text, reply_line, refused_text};
ghost use Rattle.text.specs.Written.{Written};

use replies::{Counts, Halt, Reply, Saturation};

// These bytes.
pub fn put_text(out: &mut [u8], at: usize, s: &[u8]) -> usize
    requires { at + length s.now ≤ length out.old }
    ensures { Written out.old at s.now out.new result }
{
    let end = at + s.len();
    out[at..end].copy_from_slice(s);
    end
}

// The last digit of a number.
fn put_digit(out: &mut [u8], at: usize, n: u64) -> usize
    requires { at < length out.old }
    ensures { Written out.old at ((48 + n % 10) ∷ []) out.new result }
{
    out[at] = (48 + n % 10) as u8;
    at + 1
}

// The digits of a number.
fn put_digits(out: &mut [u8], at: usize, n: u64) -> usize
    requires { at + length (decimal n) ≤ length out.old }
    ensures { Written out.old at (decimal n) out.new result }
{
    if n < 10 {
        return put_digit(out, at, n);
    }
    let last = put_digits(out, at, n / 10);
    put_digit(out, last, n)
}

// A number in decimal: at most 20 bytes.
pub fn put_decimal(out: &mut [u8], at: usize, n: u64) -> usize
    requires { at + 20 ≤ length out.old }
    ensures written { Written out.old at (decimal n) out.new result }
    ensures within { result ≤ at + 20 }
{
    put_digits(out, at, n)
}

// The round in which a start was won, and the steps and cells of its walk, a space before each: at most 47 bytes.
fn put_counts(out: &mut [u8], at: usize, round: u64, c: Counts) -> usize
    requires { (round < 10000) × (at + 47 ≤ length out.old) }
    ensures written { Written out.old at (counts_text round c) out.new result }
    ensures within { result ≤ at + 47 }
{
    let number = put_text(out, at, b" ");
    let after_round = put_decimal(out, number, round);
    let steps = put_text(out, after_round, b" ");
    let after_steps = put_decimal(out, steps, c.steps);
    let cells = put_text(out, after_steps, b" ");
    put_decimal(out, cells, c.cells)
}

// The round and the counts of a halt, after `trace` or `cells` where the walk halted so: at most 53 bytes.
fn put_halt(out: &mut [u8], at: usize, round: u64, h: Halt) -> usize
    requires { (round < 10000) × (at + 53 ≤ length out.old) }
    ensures written { Written out.old at (halt_text round h) out.new result }
    ensures within { result ≤ at + 53 }
{
    match h {
        Halt::Arrived(c) => put_counts(out, at, round, c),
        Halt::TraceFull(c) => {
            let counts = put_text(out, at, b" trace");
            put_counts(out, counts, round, c)
        },
        Halt::CellsShort(c) => {
            let counts = put_text(out, at, b" cells");
            put_counts(out, counts, round, c)
        },
    }
}

// What guide answers for a start that was won in this round: at most 57 bytes.
fn put_reply(out: &mut [u8], at: usize, round: u64, reply: Reply) -> usize
    requires { (round < 10000) × (at + 57 ≤ length out.old) }
    ensures written { Written out.old at (reply_text round reply) out.new result }
    ensures within { result ≤ at + 57 }
{
    match reply {
        Reply::Refused(n) => {
            let number = put_text(out, at, b" refused ");
            put_decimal(out, number, n)
        },
        Reply::NoRun => put_text(out, at, b" no"),
        Reply::Open => put_text(out, at, b" open"),
        Reply::Walked(h) => {
            let halt = put_text(out, at, b" yes");
            put_halt(out, halt, round, h)
        },
    }
}

// ---- lines

// These bytes, a number and a line end: at most 21 bytes more.
fn put_number_line(out: &mut [u8], at: usize, s: &[u8], n: u64) -> usize
    requires { at + length s.now + 21 ≤ length out.old }
    ensures written { Written out.old at (s.now ++ decimal n ++ ascii "\n") out.new result }
    ensures within { result ≤ at + length s.now + 21 }
{
    let number = put_text(out, at, s);
    let after_number = put_decimal(out, number, n);
    put_text(out, after_number, b"\n")
}

// `moves 3 entries 3`: at most 56 bytes.
pub fn put_size_line(out: &mut [u8], at: usize, r: Saturation) -> usize
    requires { at + 56 ≤ length out.old }
    ensures written { Written out.old at (size_line r) out.new result }
    ensures within { result ≤ at + 56 }
{
    let moves = put_text(out, at, b"moves ");
    let after_moves = put_decimal(out, moves, r.moves);
    let entries = put_text(out, after_moves, b" entries ");
    let after_entries = put_decimal(out, entries, r.entries);
    put_text(out, after_entries, b"\n")
}

// `most 1`: at most 26 bytes.
pub fn put_most_line(out: &mut [u8], at: usize, n: u64) -> usize
    requires { at + 26 ≤ length out.old }
    ensures written { Written out.old at (most_line n) out.new result }
    ensures within { result ≤ at + 26 }
{
    put_number_line(out, at, b"most ", n)
}

// `start 0 yes 2 2 9`: at most 66 bytes.
pub fn put_reply_line(out: &mut [u8], at: usize, n: u64, round: u64, reply: Reply) -> usize
    requires { (n < 100) × (round < 10000) × (at + 66 ≤ length out.old) }
    ensures written { Written out.old at (reply_line n round reply) out.new result }
    ensures within { result ≤ at + 66 }
{
    let number = put_text(out, at, b"start ");
    let after_number = put_decimal(out, number, n);
    let after_reply = put_reply(out, after_number, round, reply);
    put_text(out, after_reply, b"\n")
}

// `refused 9`: at most 29 bytes.
pub fn put_refused(out: &mut [u8], at: usize, n: u64) -> usize
    requires { at + 29 ≤ length out.old }
    ensures written { Written out.old at (refused_text n) out.new result }
    ensures within { result ≤ at + 29 }
{
    put_number_line(out, at, b"refused ", n)
}
