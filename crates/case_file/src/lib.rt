// The check of a case file, body by body.
#![tactic(auto)]

ghost use Rattle.std.specs.Prelude.{◌≡◌, true, [], ◌∷◌, map, ◌<◌, ◌≤◌, ◌+◌, ◌*◌, length};
ghost use Rattle.words.specs.Lists.{every};
ghost use Rattle.words.specs.Order.{rising};
ghost use Rattle.std.proofs.lemmas.List.Edits.{sets};
ghost use Rattle.replies.specs.Numbers.{refusal_code};
ghost use Rattle.files.specs.Bytes.{records};
ghost use Rattle.files.specs.Codes.{codes_right};
ghost use Rattle.files.specs.Case;
ghost use Rattle.files.specs.Case.{form_of, case_placed, codes_of, head_right, rule_bytes, rule_right, rule_records};
ghost use Rattle.files.specs.Case.{edge_bytes, edge_right, edge_records, entries_of, move_of, move_right, move_key, move_records, records_right, increasing, case_refusal};
ghost use Rattle.bytes_in.specs.Records.{body_of};
ghost use Rattle.case_records.specs.Values.{the_head, the_edge};
ghost use Rattle.case_records.specs.Keys.{edge_order};
ghost use Rattle.case_file.specs.Forms.{the_form, has_codes, our_rules};

use bytes_in::Body;
use case_records::{Edge, Head, RightHead};
use limits::Limits;
use replies::Refusal;

// The bodies of a case, the last only where it has a record of operation codes.
const BODIES: [Body; Limits::CODED_CONTENTS] = [
    Body {
        kind: 1,
        least: 1,
        most: 1,
        size: Limits::HEAD_BYTES as u16,
    },
    Body {
        kind: 2,
        least: 0,
        most: Limits::RULES as u16,
        size: Limits::RULE_BYTES as u16,
    },
    Body {
        kind: 3,
        least: 0,
        most: Limits::EDGES as u16,
        size: Limits::EDGE_BYTES as u16,
    },
    Body {
        kind: 4,
        least: 0,
        most: Limits::MOVES as u16,
        size: Limits::MOVE_BYTES as u16,
    },
    Body {
        kind: 5,
        least: 1,
        most: 1,
        size: Limits::OPERATIONS as u16,
    },
];

// How a case is written: without or with a record of operation codes.
#[derive(Clone, Copy)]
enum Form {
    Plain,
    Coded,
}

// The form by the first byte.
fn form_of(first: u64) -> Option<Form>
    ensures { the_form result ≡ form_of first }
{
    match first {
        Limits::CASE_FIRST => Some(Form::Plain),
        Limits::CODED_FIRST => Some(Form::Coded),
        _ => None,
    }
}

// The first byte, the contents, the counts and the length are right.
fn case_placed(file: &[u8]) -> bool
    ensures { result ≡ case_placed file.now }
{
    if file.is_empty() {
        return false;
    }
    match form_of(bytes_in::byte_at(file, 0)) {
        Some(Form::Plain) => bytes_in::placed(file, &BODIES[..Limits::CASE_CONTENTS]),
        Some(Form::Coded) => bytes_in::placed(file, &BODIES[..Limits::CODED_CONTENTS]),
        None => false,
    }
}

// Every rule of the body keeps its bounds.
fn rules_right(h: Head, body: &[u8], n: usize) -> bool
    requires { (n * 5 ≤ length body.now) × (n ≤ 256) }
    ensures { result ≡ every (rule_right (the_head h)) (map rule_bytes (records n 5 body.now)) }
{
    (0..n).all(|i| case_records::rule_right(h, bytes_in::record(body, i, Limits::RULE_BYTES)))
}

// Every edge of the body keeps its bounds.
fn edges_right(h: RightHead, body: &[u8], n: usize) -> bool
    requires { (n * 4 ≤ length body.now) × (n ≤ 64) }
    ensures { result ≡ every (edge_right (the_head h.head)) (map edge_bytes (records n 4 body.now)) }
{
    (0..n).all(|i| case_records::edge_right(h, case_records::edge_at(body, i)))
}

// Every move of the body keeps its bounds, where there are so many order-1 states.
fn moves_right(h: RightHead, states: u64, body: &[u8], n: usize) -> bool
    requires { (n * 19 ≤ length body.now) × (n ≤ 1024) }
    ensures { result ≡ every (move_right (the_head h.head) states) (map move_of (records n 19 body.now)) }
{
    (0..n).all(|i| case_records::move_right(h, states, case_records::move_at(body, i)))
}

// 1 for an edge of a control, which is an entry, and 0 for one of an inner state.
pub fn entry_count(h: Head, e: Edge) -> u64
    ensures value { result ≡ length (entries_of (the_head h) (the_edge e ∷ [])) }
    ensures upper_bound { result ≤ 1 }
{
    u64::from(e.state < h.controls)
}

// The number of entries among the edges of the body.
fn entries_in(h: Head, body: &[u8], n: usize) -> u64
    requires { (n * 4 ≤ length body.now) × (n ≤ 64) }
    ensures value { result ≡ length (entries_of (the_head h) (map edge_bytes (records n 4 body.now))) }
    ensures upper_bound { result ≤ 64 }
{
    let mut count: u64 = 0;
    for i in 0..n {
        count += entry_count(h, case_records::edge_at(body, i));
    }
    count
}

// The edges of the body are strictly increasing, and no entry of theirs is a second one for its state and S.
fn edges_rising(h: Head, body: &[u8], n: usize) -> bool
    requires { (n * 4 ≤ length body.now) × (n ≤ 64) }
    ensures { result ≡ rising (edge_order (the_head h)) (map edge_bytes (records n 4 body.now)) }
{
    (1..n).all(|i| {
        let before = case_records::edge_at(body, i - 1);
        case_records::edge_before(h, before, case_records::edge_at(body, i))
    })
}

// The moves of the body are strictly increasing.
fn moves_rising(body: &[u8], n: usize) -> bool
    requires { (n * 19 ≤ length body.now) × (n ≤ 1024) }
    ensures { result ≡ rising move_key (map move_of (records n 19 body.now)) }
{
    (1..n).all(|i| {
        let before = case_records::move_at(body, i - 1);
        case_records::move_before(before, case_records::move_at(body, i))
    })
}

// ---- the file's bodies
// Kept (2): document 01 names this form, a part of the file for each body (DECISIONS, 18): the parts go by names.

// The head of a file whose bodies are in place.
pub fn head_of(file: &[u8]) -> Head
    requires { case_placed file.now ≡ true }
    ensures { the_head result ≡ Case.head file.now }
{
    case_records::read_head(bytes_in::body_part(file, Limits::HEAD_BODY, Limits::HEAD_BYTES))
}

// The body of rules of a file whose bodies are in place, in its own codes.
fn rule_body(file: &[u8]) -> &[u8]
    requires { case_placed file.now ≡ true }
    ensures { result.now ≡ body_of file.now 1 5 }
{
    bytes_in::body_part(file, Limits::RULE_BODY, Limits::RULE_BYTES)
}

// The body of edges of a file whose bodies are in place.
pub fn edge_body(file: &[u8]) -> &[u8]
    requires { case_placed file.now ≡ true }
    ensures { result.now ≡ body_of file.now 2 4 }
{
    bytes_in::body_part(file, Limits::EDGE_BODY, Limits::EDGE_BYTES)
}

// The body of moves of a file whose bodies are in place.
pub fn move_body(file: &[u8]) -> &[u8]
    requires { case_placed file.now ≡ true }
    ensures { result.now ≡ body_of file.now 3 19 }
{
    bytes_in::body_part(file, Limits::MOVE_BODY, Limits::MOVE_BYTES)
}

// Whether a file whose bodies are in place has a record of operation codes.
fn has_codes(file: &[u8]) -> bool
    requires { case_placed file.now ≡ true }
    ensures { result ≡ has_codes file.now }
{
    bytes_in::byte_at(file, 0) == Limits::CODED_FIRST
}

// The record of operation codes of a file that has one.
fn code_record(file: &[u8]) -> &[u8]
    requires { (case_placed file.now ≡ true) × (has_codes file.now ≡ true) }
    ensures { result.now ≡ codes_of file.now }
{
    bytes_in::body_part(file, Limits::CODE_BODY, Limits::OPERATIONS)
}

// The file's operation codes are all different, and none is zero.
fn file_codes_right(file: &[u8]) -> bool
    requires { case_placed file.now ≡ true }
    ensures { result ≡ codes_right (codes_of file.now) }
{
    !has_codes(file) || operations::codes_right(code_record(file))
}

// Writes the rules of a file whose bodies are in place, in our codes.
pub fn put_rules(file: &[u8], rules: &mut [u8])
    requires { (case_placed file.now ≡ true) × (1280 ≤ length rules.old) }
    ensures { rules.new ≡ sets rules.old 0 (our_rules file.now) }
{
    let n = bytes_in::count_of(file, Limits::RULE_BODY);
    if has_codes(file) {
        operations::put_rules(code_record(file), rule_body(file), n, rules);
    } else {
        let mut codes = [0u8; Limits::OPERATIONS];
        operations::put_our_codes(&mut codes);
        operations::put_rules(&codes, rule_body(file), n, rules);
    }
}

// Every rule of the file keeps its bounds.
fn file_rules_right(h: Head, file: &[u8]) -> bool
    requires { case_placed file.now ≡ true }
    ensures { result ≡ every (rule_right (the_head h)) (rule_records file.now) }
{
    let mut rules = [0u8; Limits::RULE_TABLE];
    put_rules(file, &mut rules);
    rules_right(h, &rules, bytes_in::count_of(file, Limits::RULE_BODY))
}

// Every edge of the file keeps its bounds.
fn file_edges_right(h: RightHead, file: &[u8]) -> bool
    requires { case_placed file.now ≡ true }
    ensures { result ≡ every (edge_right (the_head h.head)) (edge_records file.now) }
{
    edges_right(
        h,
        edge_body(file),
        bytes_in::count_of(file, Limits::EDGE_BODY),
    )
}

// The number of the file's entries.
pub fn entry_total(h: Head, file: &[u8]) -> u64
    requires { case_placed file.now ≡ true }
    ensures value { result ≡ length (entries_of (the_head h) (edge_records file.now)) }
    ensures upper_bound { result ≤ 64 }
{
    entries_in(
        h,
        edge_body(file),
        bytes_in::count_of(file, Limits::EDGE_BODY),
    )
}

// The number of order-1 states: J and the file's entries.
fn states_of(h: Head, file: &[u8]) -> u64
    requires { (case_placed file.now ≡ true) × (h.inner1 ≤ 16) }
    ensures { result ≡ h.inner1 + length (entries_of (the_head h) (edge_records file.now)) }
{
    h.inner1 + entry_total(h, file)
}

// Every move of the file keeps its bounds, where there are so many order-1 states.
fn file_moves_right(h: RightHead, states: u64, file: &[u8]) -> bool
    requires { case_placed file.now ≡ true }
    ensures { result ≡ every (move_right (the_head h.head) states) (move_records file.now) }
{
    moves_right(
        h,
        states,
        move_body(file),
        bytes_in::count_of(file, Limits::MOVE_BODY),
    )
}

// Rules, edges and moves keep their bounds, and there are not too many order-1 states.
fn records_right(h: Head, file: &[u8]) -> bool
    requires { (case_placed file.now ≡ true) × (head_right (the_head h) ≡ true) × (the_head h ≡ Case.head file.now) }
    ensures { result ≡ records_right file.now }
{
    let states = states_of(h, file);
    let few = states <= Limits::STATES1 as u64;
    let right = RightHead { head: h };
    file_rules_right(h, file)
        && file_edges_right(right, file)
        && few
        && file_moves_right(right, states, file)
}

// Edges, entries and moves are strictly increasing.
fn records_rising(h: Head, file: &[u8]) -> bool
    requires { (case_placed file.now ≡ true) × (the_head h ≡ Case.head file.now) }
    ensures { result ≡ increasing file.now }
{
    let edges = bytes_in::count_of(file, Limits::EDGE_BODY);
    let moves = bytes_in::count_of(file, Limits::MOVE_BODY);
    edges_rising(h, edge_body(file), edges) && moves_rising(move_body(file), moves)
}

// The refusal of a case that is not sound: 1 to 4, or 12.
pub fn check_case(file: &[u8]) -> Result<(), Refusal>
    ensures { refusal_code result ≡ case_refusal file.now }
{
    if !case_placed(file) {
        return Err(Refusal::CaseContents);
    }
    let h = head_of(file);
    if !case_records::head_right(h) {
        return Err(Refusal::CaseHead);
    }
    if !file_codes_right(file) {
        return Err(Refusal::ToolCodes);
    }
    if !records_right(h, file) {
        return Err(Refusal::CaseRecords);
    }
    if !records_rising(h, file) {
        return Err(Refusal::CaseOrder);
    }
    Ok(())
}
