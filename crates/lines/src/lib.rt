// The lines of a listing, put into a lent buffer piece by piece.
#![tactic(auto)]

mod text;

ghost use Rattle.std.specs.Prelude.{◌+◌, ◌*◌, ◌≤◌, min, ◌++◌, ◌≡◌, length, take};
ghost use Rattle.arbiter.specs.Answers.{said_of};
ghost use Rattle.decimal.specs.Text.{ascii, text};
ghost use Rattle.laws.specs.Front.{Wrote};
ghost use Rattle.lines.specs.Lines.{end_line, items, line, no, ok, word_text};
ghost use Rattle.lines.specs.Promises.{line_room, word_from, word_room};
ghost use Rattle.lines.specs.Texts.{Puts, Room};

use arbiter::Table;
use decision::Answer;
use event::{JOBS, Refusal};
use rows::live_count;
pub use text::Text;

// Puts a space and then a job.
fn put_job(line: &mut Text, job: u8)
    requires { Room line.old 4 }
    ensures puts { Puts line.old (ascii " " ++ text job) line.new }
    ensures upper_bound { line.new.at ≤ line.old.at + 4 }
{
    line.word(b" ", u64::from(job));
}

// Puts each job of a list after a space.
fn put_jobs(line: &mut Text, jobs: &[u8])
    requires { Room line.old (4 * length jobs.now) }
    ensures puts { Puts line.old (items jobs.now) line.new }
    ensures upper_bound { line.new.at ≤ line.old.at + 4 * length jobs.now }
{
    for &job in jobs {
        put_job(line, job);
    }
}

// Puts `ok` and the first `count` jobs of a list, or all of them if there are fewer; the answer tells the count.
fn put_ok(line: &mut Text, jobs: &[u8], count: u32)
    requires { Room line.old (3 + 4 * length jobs.now) }
    ensures puts { Puts line.old (word_text (ok (take count jobs.now))) line.new }
    ensures upper_bound { line.new.at ≤ line.old.at + 3 + 4 * length jobs.now }
{
    line.put(b" ok");
    let some = (count as usize).min(jobs.len());
    put_jobs(line, &jobs[..some]);
}

// Puts `no` and the number of a refusal.
fn put_no(line: &mut Text, number: u32)
    requires { Room line.old word_room }
    ensures puts { Puts line.old (word_text (no number)) line.new }
    ensures upper_bound { line.new.at ≤ line.old.at + word_room }
{
    line.word(b" no ", u64::from(number));
}

// Puts the word for an answer; the jobs it woke stand at the front of a list.
#[tactic(auto, unfolding(crate::specs::Promises::word_from, crate::specs::Lines::word_text, crate::specs::Lines::items))]
fn put_word(line: &mut Text, answer: Result<Answer, Refusal>, woken: &[u8; JOBS])
    requires { Room line.old word_room }
    ensures puts { Puts line.old (word_text (word_from (said_of answer) woken.now)) line.new }
    ensures upper_bound { line.new.at ≤ line.old.at + word_room }
{
    match answer {
        Err(refusal) => put_no(line, u32::from(refusal)),
        Ok(Answer::Token | Answer::Granted | Answer::Done) => line.put(b" ok"),
        Ok(Answer::Wait) => line.put(b" wait"),
        Ok(Answer::Woke(count)) => put_ok(line, woken, count),
    }
}

// Puts the line of a record. Buffer and place are two parameters here and below, since `going` and `listing` keep the place.
pub fn put_line(
    number: u64,
    answer: Result<Answer, Refusal>,
    woken: &[u8; JOBS],
    out: &mut [u8],
    at: usize,
) -> usize
    requires { at + line_room ≤ length out.old }
    ensures wrote { Wrote out.old at (line number (word_from (said_of answer) woken.now)) result out.new }
    ensures upper_bound { result ≤ at + line_room }
{
    let mut line = Text { out, at };
    line.number(number);
    put_word(&mut line, answer, woken);
    line.put(b"\n");
    line.at
}

// How many tokens are in use when this many requests are live.
pub fn tokens_in(tokens: u32, live: u32) -> u32
    ensures { result ≡ min tokens live }
{
    tokens.min(live)
}

// Puts the last line at place `at`.
pub fn put_end(table: &Table, out: &mut [u8], at: usize) -> usize
    requires { at + line_room ≤ length out.old }
    ensures { Wrote out.old at (end_line table.now) result out.new }
{
    let live = live_count(&table.rows);
    let tokens = tokens_in(table.tokens, live);
    let mut line = Text { out, at };
    line.word(b"end ", u64::from(live));
    line.word(b" ", u64::from(tokens));
    line.put(b"\n");
    line.at
}
