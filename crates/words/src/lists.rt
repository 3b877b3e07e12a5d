// Sets and lists of jobs.
ghost use Rattle.std.specs.Prelude.{[], cond, ◌∷◌, ◌≡◌, ◌≤◌};

use event::MOST;
use stream::Printer;

// What stands before the next member: nothing before the first, then commas.
fn mark_after(has: bool, mark: &'static [u8]) -> &'static [u8]
    ensures { result.now ≡ cond has (44 ∷ []) mark.now }
{
    if has { b"," } else { mark }
}

// A set by its members, in order.
pub fn set(printer: &mut Printer<impl Print + Eprint>, s: u64)
    ensures { printer.old.failures ≤ printer.new.failures }
{
    printer.text(b"{");
    let mut mark: &'static [u8] = b"";
    for member in 0..MOST {
        let has = s >> member & 1 == 1;
        if has {
            printer.word(mark, member as u64);
        }
        mark = mark_after(has, mark);
    }
    printer.text(b"}");
}

// The jobs of a list, in its order.
pub fn jobs(printer: &mut Printer<impl Print + Eprint>, list: &[u8])
    ensures { printer.old.failures ≤ printer.new.failures }
{
    let mut mark: &[u8] = b"";
    for job in list {
        printer.word(mark, *job as u64);
        mark = b", ";
    }
}
