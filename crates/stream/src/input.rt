// Pieces of standard input.
ghost use Rattle.std.specs.Prelude.{IfErr, IfOk};
ghost use Rattle.stream.specs.Counts.{IsPrefixLen};

use std::io::Read;

// A read failed after so many bytes had come.
#[derive(Clone, Copy, Debug, PartialEq, Eq)]
pub struct ReadFailed {
    pub count: usize,
}

// Reads until the piece is full, the input ends or a read fails, and returns how many bytes came; they stand at the front.
// A failure is said on standard error. Where fewer came than there is room for and none failed, the input has ended.
pub fn fill(rt: &(impl Input + Eprint), piece: &mut [u8]) -> Result<usize, ReadFailed>
    ensures whole { IfOk result (λ count. IsPrefixLen count piece.new) }
    ensures cut { IfErr result (λ failed. IsPrefixLen failed.count piece.new) }
{
    let mut count = 0;
    // a `while`: each read says how far it came
    while count < piece.len() {
        match rt.reader().read(&mut piece[count..]) {
            Ok(0) => break,
            Ok(more) => count += more,
            Err(error) => {
                let _ = eprintln!(rt; "standard input: {error}");
                return Err(ReadFailed { count });
            }
        }
    }
    Ok(count)
}
