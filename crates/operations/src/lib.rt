// The table of operations, and the codes that a tool's record gives in the place of ours.
#![tactic(auto)]

ghost use Rattle.std.specs.Prelude.{unwrap_or, ◌≡◌, [], ◌∷◌, map, ◌<◌, ◌≤◌, ◌+◌, ◌*◌, length};
ghost use Rattle.std.proofs.lemmas.List.Edits.{sets};
ghost use Rattle.files.specs.Bytes.{records};
ghost use Rattle.files.specs.Codes.{our_codes, our_code, codes_right, in_our_codes};
ghost use Rattle.files.specs.Writing.{flat};
ghost use Rattle.operations.specs.Table.{LineOf, operand_right};

use limits::Limits;

// ---- the table

// What a rule's b is: a symbol, or 0 as it is not used.
#[derive(Clone, Copy)]
pub enum Operand {
    Symbol,
    Zero,
}

// A line of the table: our code for the operation, the use of b, the new cells.
#[derive(Clone, Copy)]
pub struct Line {
    pub code: u8,
    pub operand: Operand,
    pub cells: usize,
}

// Document 01's table of operations.
const OPERATIONS: [Line; Limits::OPERATIONS] = [
    // rewrite
    Line {
        code: 1,
        operand: Operand::Symbol,
        cells: 2,
    },
    // push, order 1
    Line {
        code: 2,
        operand: Operand::Symbol,
        cells: 3,
    },
    // push, order 2
    Line {
        code: 3,
        operand: Operand::Symbol,
        cells: 3,
    },
    // copy
    Line {
        code: 4,
        operand: Operand::Zero,
        cells: 4,
    },
    // pop 1
    Line {
        code: 5,
        operand: Operand::Zero,
        cells: 1,
    },
    // pop 2
    Line {
        code: 6,
        operand: Operand::Zero,
        cells: 0,
    },
    // collapse 1
    Line {
        code: 7,
        operand: Operand::Zero,
        cells: 1,
    },
    // collapse 2
    Line {
        code: 8,
        operand: Operand::Zero,
        cells: 0,
    },
];

// The line of our code.
pub fn line_of(code: u64) -> Line
    requires { (1 ≤ code) × (code ≤ 8) }
    ensures { LineOf code result }
{
    OPERATIONS[code as usize - 1]
}

// Whether b is right for our code, where there are so many symbols, at least one.
pub fn operand_right(code: u64, symbols: u64, b: u64) -> bool
    requires { (1 ≤ code) × (code ≤ 8) × (0 < symbols) }
    ensures { result ≡ operand_right code symbols b }
{
    let operand = line_of(code).operand;
    match operand {
        Operand::Symbol => b < symbols,
        Operand::Zero => b == 0,
    }
}

// Our codes, in the order of the table.
pub fn put_our_codes(codes: &mut [u8])
    requires { length codes.old ≡ 8 }
    ensures { codes.new ≡ our_codes }
{
    for i in 0..Limits::OPERATIONS {
        codes[i] = line_of(i as u64 + 1).code;
    }
}

// ---- codes

// Our code for the tool's code x, by the codes of a record: x's number there, from 1. None where it is not there.
fn our_code(codes: &[u8], x: u8) -> Option<usize>
    ensures { unwrap_or result 0 ≡ our_code codes.now x }
{
    let place = codes.iter().position(|c| *c == x)?;
    Some(place + 1)
}

// The codes are all different, and none is zero.
pub fn codes_right(codes: &[u8]) -> bool
    ensures { result ≡ codes_right codes.now }
{
    let mut rest = codes;
    while let Some((c, after)) = rest.split_first() {
        if *c == 0 || after.contains(c) {
            return false;
        }
        rest = after;
    }
    true
}

// ---- rules in our codes

// The five bytes of a rule, from `at` on.
fn put_bytes(rules: &mut [u8], at: usize, p: u8, a: u8, code: u8, b: u8, next: u8)
    requires { at + 5 ≤ length rules.old }
    ensures { rules.new ≡ sets rules.old at (p ∷ a ∷ code ∷ b ∷ next ∷ []) }
{
    rules[at] = p;
    rules[at + 1] = a;
    rules[at + 2] = code;
    rules[at + 3] = b;
    rules[at + 4] = next;
}

// Rule number i is the record x, with our code in the place of the tool's.
fn put_rule(codes: &[u8], x: &[u8], i: usize, rules: &mut [u8])
    requires { (length codes.now ≤ 8) × (length x.now ≡ 5) × (i * 5 + 5 ≤ length rules.old) }
    ensures { rules.new ≡ sets rules.old (i * 5) (in_our_codes codes.now x.now) }
{
    // 0 is the code of no operation
    let code = our_code(codes, x[2]).unwrap_or(0) as u8;
    let at = i * Limits::RULE_BYTES;
    put_bytes(rules, at, x[0], x[1], code, x[3], x[4]);
}

// Writes the first n rules of the body, with our codes in the place of the tool's.
pub fn put_rules(codes: &[u8], body: &[u8], n: usize, rules: &mut [u8])
    requires { (length codes.now ≤ 8) × (n * 5 ≤ length body.now) × (n * 5 ≤ length rules.old) }
    ensures { rules.new ≡ sets rules.old 0 (flat (map (in_our_codes codes.now) (records n 5 body.now))) }
{
    for i in 0..n {
        let x = bytes_in::record(body, i, Limits::RULE_BYTES);
        put_rule(codes, x, i, rules);
    }
}
