// The beginning of a dump: the variables, and their values after the first record.
ghost use Rattle.std.specs.Prelude.{◌≡◌, ◌≤◌};
ghost use Rattle.wave.specs.Trace.{first_trace};

use crate::changes::{Trace, refusals_after};
use crate::dump::{job_value, value};
use crate::variables::{VARIABLES, Variable, shown};
use arbiter::Table;
use decision::Answer;
use event::{JOBS, Refusal};
use stream::Printer;

// The variables of the drive.
const DRIVE: &[u8] =
    b"$version Norakkeun desk $end\n$timescale 1 ms $end\n$scope module drive $end\n\
$var integer 64 r record $end\n$var integer 64 n records_in_this_ms $end\n\
$var integer 64 l live $end\n$var integer 64 t tokens_in_use $end\n\
$var integer 64 x refusals $end\n";

// A variable of a job.
fn define(printer: &mut Printer<impl Print + Eprint>, variable: Variable, job: u32, resources: u32)
    ensures { printer.old.failures ≤ printer.new.failures }
{
    printer.word(b"$var wire ", variable.width(resources) as u64);
    printer.word(&[b' ', variable.letter()], job as u64);
    printer.text(variable.name());
    if variable.is_bit() {
        printer.number(job as u64);
    }
    printer.text(b" $end\n");
}

// The variables of a job, in a scope of their own.
fn job_variables(printer: &mut Printer<impl Print + Eprint>, job: u32, resources: u32)
    ensures { printer.old.failures ≤ printer.new.failures }
{
    printer.word(b"$scope module job_", job as u64);
    printer.text(b" $end\n");
    for variable in VARIABLES {
        define(printer, variable, job, resources);
    }
    printer.text(b"$upscope $end\n");
}

// The variables of the jobs that are shown.
fn all_variables(printer: &mut Printer<impl Print + Eprint>, mask: &[u8], resources: u32)
    ensures { printer.old.failures ≤ printer.new.failures }
{
    for job in 0..JOBS as u32 {
        if shown(mask, job) {
            job_variables(printer, job, resources);
        }
    }
}

// The values of a job after a start: it has no request.
fn job_start(printer: &mut Printer<impl Print + Eprint>, job: u32)
    ensures { printer.old.failures ≤ printer.new.failures }
{
    for variable in VARIABLES {
        job_value(printer, variable, job, 0);
    }
}

// The values of the jobs that are shown.
fn all_starts(printer: &mut Printer<impl Print + Eprint>, mask: &[u8])
    ensures { printer.old.failures ≤ printer.new.failures }
{
    for job in 0..JOBS as u32 {
        if shown(mask, job) {
            job_start(printer, job);
        }
    }
}

// The end of the variables, the time of the first record, and the values of the drive after it.
fn drive_start(printer: &mut Printer<impl Print + Eprint>, time: u64, refusals: u64)
    ensures { printer.old.failures ≤ printer.new.failures }
{
    printer.word(b"$upscope $end\n$enddefinitions $end\n#", time);
    printer.text(b"\n$dumpvars\n");
    value(printer, b'r', 1);
    value(printer, b'n', 1);
    value(printer, b'l', 0);
    value(printer, b't', 0);
    value(printer, b'x', refusals);
}

// The variables and their values after the first record. Without an accepted start there are no resources, and the mask is to be
// empty, so that no job is shown.
pub fn first(
    printer: &mut Printer<impl Print + Eprint>,
    mask: &[u8],
    answer: Result<Answer, Refusal>,
    table: &Table,
) -> Trace
    ensures kept { printer.old.failures ≤ printer.new.failures }
    ensures counts { result ≡ first_trace answer }
{
    let refusals = refusals_after(answer, 0);
    printer.text(DRIVE);
    all_variables(printer, mask, table.resources);
    drive_start(printer, table.time, refusals);
    all_starts(printer, mask);
    printer.text(b"$end\n");
    Trace { here: 1, refusals }
}
