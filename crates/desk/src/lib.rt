// What is shown of a service file.
#![tactic(auto)]

ghost use Rattle.std.specs.Prelude.{◌≤◌, [], ◌∷◌, length};
ghost use Rattle.event.specs.Refusals.{number_of};
ghost use Rattle.laws.specs.Front.{Wrote};
ghost use Rattle.page.specs.Page.{word_and_numbers, word_and_numbers_room};
ghost use Rattle.desk.specs.Promises.{Shows};

use event::Refusal;
use lines::Text;
use loading::table_in;
use page::{PAGE, put_page, put_word_and_numbers};

// Puts words and then the number of a refusal at the front of out, as a line.
pub fn put_refusal(words: &[u8], refusal: Refusal, out: &mut [u8]) -> usize
    requires { word_and_numbers_room (length words.now) 1 ≤ length out.old }
    ensures { Wrote out.old 0 (word_and_numbers words.now (number_of refusal ∷ [])) result out.new }
{
    let mut line = Text { out, at: 0 };
    put_word_and_numbers(&mut line, words, &[u64::from(u32::from(refusal))]);
    line.at
}

// Puts what is shown of a service file at the front of out: the page of its table, or `no` and the number of the refusal.
// What comes after it is kept. In too short a room nothing is put.
pub fn show(file: &[u8], out: &mut [u8]) -> Result<usize, Refusal>
    ensures { Shows file.now out.old result out.new }
{
    if out.len() < PAGE {
        return Err(Refusal::WrongSize);
    }
    match table_in(file) {
        Ok(table) => put_page(&table, out),
        Err(refusal) => Ok(put_refusal(b"no", refusal, out)),
    }
}
