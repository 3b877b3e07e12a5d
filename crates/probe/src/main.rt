// The public calls on any table, damaged ones too: reads cases one after the other, makes each one's call and prints
// the answer and all that the call left behind. A case of no known call, or a cut one, ends it with `cut`.
#![tactic(auto)]

ghost use Rattle.std.specs.Prelude.{◌≤◌};

use arbiter::Table;
use cases::{CASE, Call, Case};
use shown::CUT;
use stream::Printer;

// Makes a call and prints what it leaves. The longest list that a case can lend is one shorter than the array.
fn make(printer: &mut Printer<impl Print + Eprint>, case: Case, call: Call, table: Table)
    ensures { printer.old.failures ≤ printer.new.failures }
{
    let mut space = [0u8; 65536];
    let list = &mut space[..case.length as usize];
    cases::lend(list);
    let left = called::left_by(case, call, table, list);
    shown::show(printer, &left, list);
}

// Makes the call of a whole case and prints its number and what it left. Says whether another case may follow.
fn whole(printer: &mut Printer<impl Print + Eprint>, number: u64, bytes: &[u8; CASE]) -> bool
    ensures { printer.old.failures ≤ printer.new.failures }
{
    let case = cases::case_of(bytes);
    let Some(call) = cases::call_numbered(case.call) else {
        printer.text(CUT);
        return false;
    };
    printer.number(number);
    make(printer, case, call, cases::table_of(bytes));
    !printer.failed()
}

// Reads a case and prints what it gives. Says whether another may follow.
fn turn(rt: &(impl Input + Eprint), printer: &mut Printer<impl Print + Eprint>, number: u64) -> bool
    ensures { printer.old.failures ≤ printer.new.failures }
{
    let mut bytes = [0u8; CASE];
    match stream::fill(rt, &mut bytes) {
        Ok(CASE) => whole(printer, number, &bytes),
        Ok(0) | Err(_) => false,
        Ok(_) => {
            printer.text(CUT);
            false
        }
    }
}

// Goes through all of standard input. The cases are numbered from 1; no input has so many that the numbers run out.
fn main(rt: HostRuntime) {
    let mut printer = Printer::new(&rt);
    for number in 1..=u64::MAX {
        if !turn(&rt, &mut printer, number) {
            break;
        }
    }
    printer.flush();
}
