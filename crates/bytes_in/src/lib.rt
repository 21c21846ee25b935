// Numbers in the bytes of a file, low byte first, and tables of contents.
#![tactic(auto)]

ghost use Rattle.std.specs.Prelude.{◌≡◌, ◌<◌, ◌≤◌, ◌+◌, ◌*◌, ◌^◌, length, get_or};
ghost use Rattle.files.specs.Bytes.{field, count_of, offset_of, line_right, bodies_placed};
ghost use Rattle.files.specs.Bytes;
ghost use Rattle.bytes_in.specs.Contents.{the_body, the_bodies, next_body};
ghost use Rattle.bytes_in.specs.Records.{body_of, record_at};

use limits::Limits;

// The byte at a place.
pub fn byte_at(b: &[u8], at: usize) -> u64
    requires { at < length b.now }
    ensures value { result ≡ get_or b.now at 0 }
    ensures small { result < 256 }
{
    u64::from(b[at])
}

// Two bytes from a place on.
pub fn number2(b: &[u8], at: usize) -> u64
    requires { at + 2 ≤ length b.now }
    ensures value { result ≡ field at 2 b.now }
    ensures small { result < 2 ^ 16 }
{
    u64::from(u16::from_le_bytes([b[at], b[at + 1]]))
}

// Four bytes from a place on.
fn number4(b: &[u8], at: usize) -> u64
    requires { at + 4 ≤ length b.now }
    ensures value { result ≡ field at 4 b.now }
    ensures small { result < 2 ^ 32 }
{
    u64::from(u32::from_le_bytes([b[at], b[at + 1], b[at + 2], b[at + 3]]))
}

// Eight bytes from a place on.
pub fn number8(b: &[u8], at: usize) -> u64
    requires { at + 8 ≤ length b.now }
    ensures { result ≡ field at 8 b.now }
{
    u64::from_le_bytes([
        b[at],
        b[at + 1],
        b[at + 2],
        b[at + 3],
        b[at + 4],
        b[at + 5],
        b[at + 6],
        b[at + 7],
    ])
}

// ---- tables of contents

// A body's kind, its least and most number of records, and the bytes of a record.
#[derive(Clone, Copy)]
pub struct Body {
    pub kind: u16,
    pub least: u16,
    pub most: u16,
    pub size: u16,
}

// The number of records that line n gives.
pub fn count_of(file: &[u8], n: usize) -> usize
    requires { 9 + 8 * n ≤ length file.now }
    ensures value { result ≡ count_of file.now n }
    ensures small { result < 2 ^ 16 }
{
    number2(file, 3 + Limits::LINE_BYTES * n) as usize
}

// The offset that line n gives.
fn offset_of(file: &[u8], n: usize) -> usize
    requires { 9 + 8 * n ≤ length file.now }
    ensures value { result ≡ offset_of file.now n }
    ensures small { result < 2 ^ 32 }
{
    number4(file, 5 + Limits::LINE_BYTES * n) as usize
}

// Line n has the body's kind, a count in its range, and the offset.
fn line_right(file: &[u8], n: usize, offset: usize, b: Body) -> bool
    requires { 9 + 8 * n ≤ length file.now }
    ensures { result ≡ line_right file.now n offset (the_body b) }
{
    let kind = number2(file, 1 + Limits::LINE_BYTES * n);
    let count = number2(file, 3 + Limits::LINE_BYTES * n);
    let place = offset_of(file, n);
    let many = u64::from(b.least) <= count && count <= u64::from(b.most);
    kind == u64::from(b.kind) && many && place == offset
}

// Where the body after that of line n begins, which itself begins at the offset; none where the line is wrong.
fn next_body(file: &[u8], n: usize, offset: usize, b: Body) -> Option<usize>
    requires { 9 + 8 * n ≤ length file.now }
    ensures { result ≡ next_body file.now n offset (the_body b) }
{
    if line_right(file, n, offset, b) {
        let records = count_of(file, n) * usize::from(b.size);
        Some(offset_of(file, n) + records)
    } else {
        None
    }
}

// The bodies of the table stand one after another, the first at this offset, and end where the file ends.
fn bodies_placed(file: &[u8], table: &[Body], first: usize) -> bool
    requires { 1 + 8 * length table.now ≤ length file.now }
    ensures { result ≡ bodies_placed file.now 0 first (the_bodies table.now) }
{
    let mut offset = first;
    for i in 0..table.len() {
        let Some(next) = next_body(file, i, offset, table[i]) else {
            return false;
        };
        offset = next;
    }
    offset == file.len()
}

// The bodies of the table are in place, after the first byte and a line of contents for each.
pub fn placed(file: &[u8], table: &[Body]) -> bool
    ensures { result ≡ Bytes.placed (the_bodies table.now) file.now }
{
    let contents = 1 + Limits::LINE_BYTES * table.len();
    contents <= file.len() && bodies_placed(file, table, contents)
}

// The body of line n, with records of this size.
pub fn body_part(file: &[u8], n: usize, size: usize) -> &[u8]
    requires { (9 + 8 * n ≤ length file.now) × (size < 2 ^ 16) × (offset_of file.now n + count_of file.now n * size ≤ length file.now) }
    ensures { result.now ≡ body_of file.now n size }
{
    let a = offset_of(file, n);
    let e = a + count_of(file, n) * size;
    &file[a..e]
}

// Record number i of a body, with records of this size.
pub fn record(body: &[u8], i: usize, size: usize) -> &[u8]
    requires { i * size + size ≤ length body.now }
    ensures value { result.now ≡ record_at size i body.now }
    ensures long { length result.now ≡ size }
{
    let a = i * size;
    let e = a + size;
    &body[a..e]
}
