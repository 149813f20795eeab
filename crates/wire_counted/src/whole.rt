//! Bytes to and from a device whose failed calls are counted.

ghost use Rattle.std.specs.Prelude.{◌≡◌, ◌≢◌, ◌≤◌, ◌<◌, take, OnOk, OnErr, IfOk, IfErr, length};
ghost use Rattle.std.specs.Io.KnownBytes.{Appends, Consumes, IsAtEnd, Keeps};
ghost use Rattle.std.specs.IoError.{error_kind};
ghost use Rattle.wire_counted.specs.Failures.{Rose};
ghost use Rattle.wire_counted.specs.Written.{AppendsBeginning};

use crate::counted::Counted;
use std::io::{self, Error, ErrorKind, Read, Write};

/// Writes all of the bytes. A call that was interrupted is counted and made again.
///
/// At an `Err` a beginning of the bytes was written, and the device failed in this call.
pub fn write_whole<W: Write>(writer: &mut Counted<W>, bytes: &[u8]) -> io::Result<()>
    ensures ok { OnOk result
        (Appends (W.contents writer.old.inner) (W.contents writer.new.inner) bytes.now) }
    ensures err { OnErr result
        (AppendsBeginning (W.contents writer.old.inner) (W.contents writer.new.inner) bytes.now) }
    ensures retried { IfErr result (λ e. error_kind e ≢ ErrorKind.Interrupted) }
    ensures failed { OnErr result (Rose writer.old.failures writer.new.failures) }
    ensures grows { writer.old.failures ≤ writer.new.failures }
{
    let mut done = 0;
    for _ in 0..u64::MAX {
        if done >= bytes.len() {
            return Ok(());
        }
        match writer.write(&bytes[done..]) {
            Ok(0) => return Err(Error::from(ErrorKind::WriteZero)),
            Ok(n) => done += n,
            Err(e) => {
                if e.kind() != ErrorKind::Interrupted {
                    return Err(e);
                }
            }
        }
    }
    Err(Error::from(ErrorKind::TimedOut))
}

/// Reads what is there: the number of bytes at the front of the buffer, 0 only at the end of the
/// input. A call that was interrupted is counted and made again.
///
/// At an `Err` no byte was taken from the input, and the device failed in this call.
pub fn read_some<R: Read>(reader: &mut Counted<R>, buf: &mut [u8]) -> io::Result<usize>
    requires { 0 < length buf.old }
    ensures bound { IfOk result (λ n. n ≤ length buf.new) }
    ensures ok { IfOk result (λ n.
        Consumes (R.remaining reader.old.inner) (R.remaining reader.new.inner) (take n buf.new)) }
    ensures end { IfOk result (λ n. n ≡ 0 → IsAtEnd (R.remaining reader.new.inner)) }
    ensures err { OnErr result
        (Keeps (R.remaining reader.old.inner) (R.remaining reader.new.inner)) }
    ensures retried { IfErr result (λ e. error_kind e ≢ ErrorKind.Interrupted) }
    ensures failed { OnErr result (Rose reader.old.failures reader.new.failures) }
    ensures grows { reader.old.failures ≤ reader.new.failures }
{
    for _ in 0..u64::MAX {
        match reader.read(buf) {
            Ok(n) => return Ok(n),
            Err(e) => {
                if e.kind() != ErrorKind::Interrupted {
                    return Err(e);
                }
            }
        }
    }
    Err(Error::from(ErrorKind::TimedOut))
}
