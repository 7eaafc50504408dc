// Calls of a reader or a writer that are made anew where a signal interrupted them.
ghost use Rattle.std.specs.Prelude.{◌≡◌, ◌≢◌, true, false, IfErr, IsErr};
ghost use Rattle.std.specs.Io.{ReadsAtMost, WritesAtMost};
ghost use Rattle.std.specs.Io.KnownBytes.{ReadConsumes, WriteAppends};
ghost use Rattle.std.specs.IoError.{error_kind};

use std::io::{self, ErrorKind, Read, Write};

/// One read. Where a signal interrupted it, nothing was read and it is made anew; after 2^64 - 1 of these it has failed.
pub(crate) fn read_retried<R: Read>(reader: &mut R, into: &mut [u8]) -> io::Result<usize>
    ensures bound { ReadsAtMost result into.new }
    ensures bytes { ReadConsumes (R.remaining reader.old) (R.remaining reader.new) result into.new }
    ensures retried { IfErr result (λ e. error_kind e ≢ ErrorKind.Interrupted) }
{
    for _turn in 0..u64::MAX {
        let answer = reader.read(into);
        if !was_interrupted(&answer) {
            return answer;
        }
    }
    Err(io::Error::from(ErrorKind::TimedOut))
}

/// One write. Where a signal interrupted it, nothing was written and it is made anew; after 2^64 - 1 of these it has failed.
pub(crate) fn write_retried<W: Write>(writer: &mut W, bytes: &[u8]) -> io::Result<usize>
    ensures bound { WritesAtMost result bytes.now }
    ensures bytes { WriteAppends (W.contents writer.old) (W.contents writer.new) result bytes.now }
    ensures retried { IfErr result (λ e. error_kind e ≢ ErrorKind.Interrupted) }
{
    for _turn in 0..u64::MAX {
        let answer = writer.write(bytes);
        if !was_interrupted(&answer) {
            return answer;
        }
    }
    Err(io::Error::from(ErrorKind::TimedOut))
}

fn was_interrupted(answer: &io::Result<usize>) -> bool
    ensures interrupted { result ≡ true → IsErr answer.now }
    ensures other { result ≡ false → IfErr answer.now (λ e. error_kind e ≢ ErrorKind.Interrupted) }
{
    match answer {
        Ok(_count) => false,
        Err(error) => error.kind() == ErrorKind::Interrupted,
    }
}
