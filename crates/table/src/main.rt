// The program for service files. `table show` prints what the service file on standard input says; `table save` writes
// the service file of the table that the recording on standard input leads to.
#![tactic(auto)]

use arbiter::Table;
use desk::put_refusal;
use event::Refusal;
use listing::Replay;
use page::PAGE;
use record::SIZE;
use stage::{Stage, begin};
use std::env::Env;

// Writes a text.
fn print(rt: &(impl Print + Eprint), text: &[u8]) {
    stream::write_out(rt, 0, text);
}

// Prints what a service file says. A file that is longer than what is read here is refused just as its beginning is: no head
// counts that many rows. The room is never too short.
fn show(rt: &(impl Input + Print + Eprint)) {
    let mut file = [0u8; 65536];
    let Ok(count) = stream::fill(rt, &mut file) else {
        return;
    };
    let mut room = [0u8; PAGE];
    if let Ok(shown) = desk::show(&file[..count], &mut room) {
        print(rt, room.get(..shown).unwrap_or(b""));
    }
}

// Says on standard error why the first record is no accepted start.
fn refuse(errors: &impl Print, refusal: Refusal) {
    let mut room = [0u8; 64];
    let end = put_refusal(b"record 1: no", refusal, &mut room);
    let _ = errors.write_all(&room[..end]);
}

// Writes the service file of the table that the records after an accepted start lead to, unless one was not read. That
// table is sound and the room is never too short, so saving refuses nothing.
fn save_from(rt: &(impl Input + Print + Eprint), table: Table) {
    let mut replay = Replay {
        stage: Stage::Going,
        table,
        number: 1,
    };
    let mut room = [0u8; blocks::ROOM];
    if blocks::take_all(rt, &mut replay, &mut room, |_| true).is_err() {
        return;
    }
    if let Ok(saved) = saving::save(&replay.table, &mut room) {
        print(rt, room.get(..saved as usize).unwrap_or(b""));
    }
}

// Takes the first record of a recording and, if it is an accepted start, the others.
fn save(rt: &HostRuntime) {
    let mut bytes = [0u8; SIZE];
    let Ok(count) = stream::fill(rt, &mut bytes) else {
        return;
    };
    let next = begin(Table::zero(), record::read(&bytes[..count]));
    match next.answer {
        Err(refusal) => refuse(&rt.stderr(), refusal),
        Ok(_) => save_from(rt, next.table),
    }
}

fn main(rt: HostRuntime) {
    let mut word = [0u8; 4];
    let count = rt.arg(1, &mut word).unwrap_or(0);
    // `==`, whose law says that two words are the same; of a match on bytes only their number would be known
    let word = &word[..count];
    if word == b"show".as_slice() {
        show(&rt);
    } else if word == b"save".as_slice() {
        save(&rt);
    } else {
        let _ = rt.eprintln("usage: table show <FILE, or table save <RECORDING");
    }
}
