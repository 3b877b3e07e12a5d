// Text written into a lent buffer: a number's decimal text, or any. Buffer and place stay two parameters here: `lines::Text` and
// `stream::Printer`, which keep them together, stand on these functions. No `Display`: firmware has no heap, and every byte of the
// buffer is promised (`Wrote`).
#![tactic(auto)]

ghost use Rattle.std.specs.Prelude.{◌+◌, ◌≤◌, ◌≡◌, length};
ghost use Rattle.laws.specs.Front.{Wrote};
ghost use Rattle.decimal.specs.Text.{text};

// How many digits n has.
pub fn len(n: u64) -> usize
    ensures { result ≡ length (text n) }
{
    let mut rest = n;
    // a `while`: no `for` is plainer, since how many turns it takes is the answer
    let mut count = 1;
    while 10 <= rest {
        rest /= 10;
        count += 1;
    }
    count
}

// Writes n at place `at` of out, the last digit first, and returns the place after it.
pub fn write(n: u64, out: &mut [u8], at: usize) -> usize
    requires { at + length (text n) ≤ length out.old }
    ensures { Wrote out.old at (text n) result out.new }
{
    let end = at + len(n);
    let mut left = n;
    for k in (at..end).rev() {
        out[k] = b'0' + (left % 10) as u8;
        left /= 10;
    }
    end
}

// Puts text at place `at` of out, and returns the place after it.
pub fn put(text: &[u8], out: &mut [u8], at: usize) -> usize
    requires { at + length text.now ≤ length out.old }
    ensures { Wrote out.old at text.now result out.new }
{
    out[at..at + text.len()].copy_from_slice(text);
    at + text.len()
}
