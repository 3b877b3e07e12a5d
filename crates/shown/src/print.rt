// Lines and lists, printed.
ghost use Rattle.std.specs.Prelude.{◌≤◌};

use called::Line;
use stream::Printer;

// What is said of input that is cut.
pub const CUT: &[u8] = b"cut\n";

// A line without its end: the word, and the numbers that it has, each after the line's mark.
pub fn line(printer: &mut Printer<impl Print + Eprint>, line: &Line)
    ensures { printer.old.failures ≤ printer.new.failures }
{
    printer.text(line.word.text());
    for number in line.numbers.iter().flatten() {
        printer.word(&[line.mark], *number);
    }
}

// The line of a lent list, without its end.
pub fn list(printer: &mut Printer<impl Print + Eprint>, list: &[u8])
    ensures { printer.old.failures ≤ printer.new.failures }
{
    printer.text(b"\nlist");
    printer.bytes(list);
}
