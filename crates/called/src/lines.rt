// The lines of what calls say: a word, and numbers, a blank before each.
ghost use Rattle.std.specs.Prelude.{[], ◌∷◌, ◌≡◌};
ghost use Rattle.arbiter.specs.Answers.{said_of};
ghost use Rattle.decimal.specs.Text.{ascii};
ghost use Rattle.event.specs.Refusals.{number_of, outcome_of};
ghost use Rattle.called.specs.Lines.{answer_line, late_line, refusal_line, report_line, request_line, says, text_of, writing_line};

use arbiter::Report;
use decision::Answer;
use event::Refusal;

// The words of answers. Each stands after a case's number.
#[derive(Clone, Copy, Debug, PartialEq, Eq)]
pub enum Word {
    No,
    Token,
    Granted,
    Wait,
    Done,
    Woke,
    Overdue,
    Wrote,
    Report,
}

impl Word {
    // A word as it is printed.
    pub fn text(self) -> &'static [u8]
        ensures { result.now ≡ ascii (text_of self) }
    {
        match self {
            Word::No => b" no",
            Word::Token => b" token",
            Word::Granted => b" granted",
            Word::Wait => b" wait",
            Word::Done => b" done",
            Word::Woke => b" woke",
            Word::Overdue => b" overdue",
            Word::Wrote => b" wrote",
            Word::Report => b" report",
        }
    }
}

// How many numbers a line has at most.
pub const NUMBERS: usize = 5;

// What stands before each number of what a call says.
const BLANK: u8 = b' ';

// A line: its word, what stands before each of its numbers, and the numbers that it has.
#[derive(Clone, Copy, Debug, PartialEq, Eq)]
pub struct Line {
    pub word: Word,
    pub mark: u8,
    pub numbers: [Option<u64>; NUMBERS],
}

// The line of a word alone.
fn plain(word: Word) -> Line
    ensures { result ≡ says word [] }
{
    Line {
        word,
        mark: BLANK,
        numbers: [None; NUMBERS],
    }
}

// The line of a word and a number.
fn counted(word: Word, n: u32) -> Line
    ensures { result ≡ says word (n ∷ []) }
{
    Line {
        word,
        mark: BLANK,
        numbers: [Some(n as u64), None, None, None, None],
    }
}

// The line of a refusal.
fn no(refusal: Refusal) -> Line
    ensures { result ≡ refusal_line (number_of refusal) }
{
    counted(Word::No, u32::from(refusal))
}

// The line of an event's or a start's answer.
pub fn answer(answer: Result<Answer, Refusal>) -> Line
    ensures { result ≡ answer_line (said_of answer) }
{
    match answer {
        Err(refusal) => no(refusal),
        Ok(Answer::Token) => plain(Word::Token),
        Ok(Answer::Granted) => plain(Word::Granted),
        Ok(Answer::Wait) => plain(Word::Wait),
        Ok(Answer::Done) => plain(Word::Done),
        Ok(Answer::Woke(count)) => counted(Word::Woke, count),
    }
}

// The line of how many are overdue.
pub fn late(late: Result<u32, Refusal>) -> Line
    ensures { result ≡ late_line (outcome_of late) }
{
    match late {
        Err(refusal) => no(refusal),
        Ok(count) => counted(Word::Overdue, count),
    }
}

// The line of what writing gave.
pub fn writing(written: Result<(), Refusal>) -> Line
    ensures { result ≡ writing_line (outcome_of written) }
{
    match written {
        Err(refusal) => no(refusal),
        Ok(()) => plain(Word::Wrote),
    }
}

// The line of a request that is reported.
fn request(report: Report) -> Line
    ensures { result ≡ request_line report }
{
    Line {
        word: Word::Report,
        mark: BLANK,
        numbers: [
            Some(report.turn.0),
            Some(report.token as u64),
            Some(report.waiting as u64),
            Some(report.ahead as u64),
            Some(report.in_way as u64),
        ],
    }
}

// The line of a report.
pub fn reported(reported: Result<Report, Refusal>) -> Line
    ensures { result ≡ report_line (outcome_of reported) }
{
    match reported {
        Err(refusal) => no(refusal),
        Ok(report) => request(report),
    }
}
