// The refusals in words, as docs/RULES.md has them.
ghost use Rattle.std.specs.Prelude.{◌≤◌};

use event::Refusal;
use stream::Printer;

// The words of a refusal.
fn words_of(refusal: Refusal) -> &'static [u8] {
    match refusal {
        Refusal::BadStart => b"tokens, resources or limit out of range",
        Refusal::ShortList => b"the lent list is shorter than 64",
        Refusal::UnsoundTable => b"the table is not sound",
        Refusal::NoSuchJob => b"there is no such job",
        Refusal::ClockGoneBack => b"the clock has gone back",
        Refusal::TimeSpent => b"true time would pass its end",
        Refusal::AlreadyLive => b"the job has a live request",
        Refusal::NotLive => b"the job has no live request",
        Refusal::NoToken => b"the job has no token",
        Refusal::StillWaiting => b"an earlier ask still waits",
        Refusal::EmptySet => b"the set is empty",
        Refusal::NoSuchResource => b"the set names a resource that does not exist",
        Refusal::NotDeclared => b"a member is not declared",
        Refusal::AlreadyHeld => b"a member is already held",
        Refusal::NotHeld => b"a member is not held",
        Refusal::TurnsSpent => b"no turn is left",
        Refusal::WrongLength => b"the record is not 14 bytes long",
        Refusal::UnknownKind => b"the kind is unknown",
        Refusal::BitSet => b"a bit that must be 0 is 1",
        Refusal::StartOutOfPlace =>
            b"a start that is not first, or a first record that is no start",
        Refusal::WrongSize => b"wrong length or too little room",
        Refusal::UnknownVersion => b"the version is unknown",
        Refusal::ClockLeap => b"the clock leaps by more than an hour",
    }
}

// Why: the words of a refusal.
pub fn reason(printer: &mut Printer<impl Print + Eprint>, refusal: Refusal)
    ensures { printer.old.failures ≤ printer.new.failures }
{
    printer.text(words_of(refusal));
}

// A refusal, with its number and its words.
pub fn refused(printer: &mut Printer<impl Print + Eprint>, refusal: Refusal)
    ensures { printer.old.failures ≤ printer.new.failures }
{
    printer.word(b"refused as ", u32::from(refusal) as u64);
    printer.text(b", ");
    reason(printer, refusal);
}
