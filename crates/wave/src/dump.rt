// Values in a dump.
ghost use Rattle.std.specs.Prelude.{◌%◌, ◌+◌, ◌≤◌, ◌≡◌};

use crate::variables::Variable;
use stream::Printer;

// The last binary digit of a number.
fn digit(n: u64) -> u8
    ensures { result ≡ 48 + n % 2 }
{
    b'0' + (n % 2) as u8
}

// A number in binary, without leading zeros.
fn binary(printer: &mut Printer<impl Print + Eprint>, n: u64)
    ensures { printer.old.failures ≤ printer.new.failures }
{
    let digits = u64::BITS - n.leading_zeros();
    for place in (0..digits.max(1)).rev() {
        printer.text(&[digit(n >> place)]);
    }
}

// A value of many bits, up to its id.
fn vector(printer: &mut Printer<impl Print + Eprint>, n: u64)
    ensures { printer.old.failures ≤ printer.new.failures }
{
    printer.text(b"b");
    binary(printer, n);
    printer.text(b" ");
}

// The value of a variable of the drive.
pub fn value(printer: &mut Printer<impl Print + Eprint>, id: u8, n: u64)
    ensures { printer.old.failures ≤ printer.new.failures }
{
    vector(printer, n);
    printer.text(&[id, b'\n']);
}

// The value of a variable of a job.
pub fn job_value(printer: &mut Printer<impl Print + Eprint>, variable: Variable, job: u32, n: u64)
    ensures { printer.old.failures ≤ printer.new.failures }
{
    if variable.is_bit() {
        printer.number(n);
    } else {
        vector(printer, n);
    }
    printer.word(&[variable.letter()], job as u64);
    printer.text(b"\n");
}
