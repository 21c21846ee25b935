// The answers of the services, and of acceptance. specs/ gives the papers' number and values for each of their cases.
#![tactic(auto)]

ghost use Rattle.std.specs.Prelude.{◌≡◌};
ghost use Rattle.replies.specs.Numbers.{number_for};

// Why files, a trace or what is lent are refused, with the papers' numbers.
#[derive(Clone, Copy, PartialEq, Eq)]
pub enum Refusal {
    // The case's first byte, contents table, a count or the length is wrong.
    CaseContents = 1,
    // A field of case body 1 is out of range.
    CaseHead = 2,
    // A rule, edge or move breaks a bound of its body, or entries are too many.
    CaseRecords = 3,
    // Edges or moves are not strictly increasing.
    CaseOrder = 4,
    // The start file's first byte, contents table, a count or the length is wrong.
    StartContents = 5,
    // A start or cell is out of range, refers to a cell of the wrong order, or fills an unused field.
    StartRecords = 6,
    // The start named is not in the file.
    NoSuchStart = 7,
    // There are fewer answer words than starts.
    FewAnswers = 8,
    // The table passes a limit.
    TableTooLarge = 9,
    // The trace has an odd number of bytes.
    OddTrace = 10,
    // The cells lent are fewer than those needed.
    FewCells = 11,
    // A tool's codes are not all different, or one is zero.
    ToolCodes = 12,
    // The text is longer than the bytes lent.
    LongText = 13,
}

impl From<Refusal> for u64 {
    ghost from_gives = { λ r n. n ≡ number_for r };

    fn from(r: Refusal) -> u64 {
        r as u64
    }
}

// What saturate returns: 0 with its numbers of moves and entries, or a refusal's number with 0 and 0.
// Kept (1): the theorem SaturateStates of the demands speaks of the reply by its fields.
#[derive(Clone, Copy)]
pub struct Saturation {
    pub code: u64,
    pub moves: u64,
    pub entries: u64,
}

// What judge returns: 0 with the number of rounds that added a move, or a refusal's number with 0.
// Kept (1): the theorem JudgeStates of the demands speaks of the reply by its fields.
#[derive(Clone, Copy)]
pub struct Judged {
    pub code: u64,
    pub rounds: u64,
}

// Since when a stack is accepted from a state: from the table after this round on, or from no table.
// Kept (1): no plainer as Option<u64>: `Since` says what the number is, and `Never` is the latest of all, where `None` would be the least.
#[derive(Clone, Copy)]
pub enum Acceptance {
    Never,
    Since(u64),
}

// The steps taken and the cells used by a walk.
#[derive(Clone, Copy)]
pub struct Counts {
    pub steps: u64,
    pub cells: u64,
}

// Why a walk halted.
#[derive(Clone, Copy)]
pub enum Halt {
    Arrived(Counts),
    TraceFull(Counts),
    CellsShort(Counts),
}

// What guide answers.
// Kept (1): document 01 names this form, and the demands state the answer by its cases (GuideRuns, Guides).
#[derive(Clone, Copy)]
pub enum Reply {
    Refused(u64),
    NoRun,
    Open,
    Walked(Halt),
}

// What replay answers: a refusal, that the trace is accepted, or the step that fails, counted from 0.
// Kept (1): the demands state the answer by its cases (AnswersExactly).
#[derive(Clone, Copy)]
pub enum Replayed {
    Refused(u64),
    Accepted,
    FailsAt(u64),
}

// What brackets answers: a refusal, or the length of the text that it has printed.
// Kept (1): the demands state the answer by its cases (PrintsExactly).
#[derive(Clone, Copy)]
pub enum Brackets {
    Refused(u64),
    Printed(usize),
}
