// Text and numbers to standard output.
ghost use Rattle.std.specs.Prelude.{length, ◌<◌, ◌↔◌, ◌≡◌, ◌≤◌, true};
ghost use Rattle.decimal.specs.Text.{text as decimal};
ghost use Rattle.stream.specs.Printing.{Printed, place_for};
ghost use Rattle.stream.specs.declared.print.TheConstants.{ROOM};

use std::io::ErrorKind;

// How many bytes can wait.
const ROOM: usize = 65536;

// Standard output, with a room at whose front `at` bytes wait, so that the system is called once for many of them; and how many
// writes failed: after the first nothing is written any more. That no failure is forgotten compares two moments, which an
// invariant of the type cannot, so each function that prints says it. `write!` would carry no such clause.
#[derive(Drop)]
pub struct Printer<'a, R> {
    rt: &'a R,
    room: [u8; ROOM],
    at: usize,
    // A number, so that 'none is forgotten' is one `≤`.
    pub failures: u32,
    ghost fits: { at ≤ ROOM },
}

// Writes the bytes straight out, unless a write failed before, and returns how many failed. A failure is said on standard
// error, but for a reader that has gone away: that is no fault.
pub fn write_out(rt: &(impl Print + Eprint), failures: u32, bytes: &[u8]) -> u32
    ensures { failures ≤ result }
{
    if 0 < failures {
        return failures;
    }
    match rt.write_all(bytes) {
        Ok(()) => 0,
        Err(error) => {
            if error.kind() != ErrorKind::BrokenPipe {
                let _ = eprintln!(rt; "standard output: {error}");
            }
            1
        }
    }
}

impl<'a, R: Print + Eprint> Printer<'a, R> {
    // Nothing waits, and no write failed.
    pub fn new(rt: &'a R) -> Printer<'a, R>
        ensures none { result.at ≡ 0 }
        ensures fresh { result.failures ≡ 0 }
    {
        Printer {
            rt,
            room: [0; ROOM],
            at: 0,
            failures: 0,
        }
    }

    // Whether a write failed.
    pub fn failed(&self) -> bool
        ensures { (result ≡ true) ↔ (0 < self.now.failures) }
    {
        0 < self.failures
    }

    // Writes what waits.
    pub fn flush(&mut self)
        ensures none { self.new.at ≡ 0 }
        ensures room { self.new.room ≡ self.old.room }
        ensures kept { self.old.failures ≤ self.new.failures }
    {
        self.failures = write_out(self.rt, self.failures, &self.room[..self.at]);
        self.at = 0;
    }

    // Makes sure that n bytes fit after what waits; if they do not, writes that.
    fn ready(&mut self, n: usize)
        ensures place { self.new.at ≡ place_for (length self.old.room) self.old.at n }
        ensures room { self.new.room ≡ self.old.room }
        ensures kept { self.old.failures ≤ self.new.failures }
    {
        if ROOM - self.at < n {
            self.flush();
        }
    }

    // Writes what waits and then the bytes, straight out.
    pub fn write(&mut self, bytes: &[u8])
        ensures none { self.new.at ≡ 0 }
        ensures room { self.new.room ≡ self.old.room }
        ensures kept { self.old.failures ≤ self.new.failures }
    {
        self.flush();
        self.failures = write_out(self.rt, self.failures, bytes);
    }

    // Prints the bytes. They wait in the room, which is written first if they do not fit after what waits there; a text
    // that is longer than the room goes straight out.
    pub fn text(&mut self, bytes: &[u8])
        ensures printed { Printed self.old.room self.old.at bytes.now self.new.room self.new.at }
        ensures kept { self.old.failures ≤ self.new.failures }
    {
        if ROOM < bytes.len() {
            return self.write(bytes);
        }
        self.ready(bytes.len());
        self.at = decimal::put(bytes, &mut self.room, self.at);
    }

    // Prints a number in decimal.
    pub fn number(&mut self, n: u64)
        ensures printed { Printed self.old.room self.old.at (decimal n) self.new.room self.new.at }
        ensures kept { self.old.failures ≤ self.new.failures }
    {
        let mut digits = [0u8; 20];
        let end = decimal::write(n, &mut digits, 0);
        self.text(&digits[..end]);
    }

    // Prints words and then a number.
    pub fn word(&mut self, words: &[u8], n: u64)
        ensures { self.old.failures ≤ self.new.failures }
    {
        self.text(words);
        self.number(n);
    }

    // Prints each byte of a list as a number, a space before each.
    pub fn bytes(&mut self, list: &[u8])
        ensures { self.old.failures ≤ self.new.failures }
    {
        for byte in list {
            self.word(b" ", *byte as u64);
        }
    }
}
