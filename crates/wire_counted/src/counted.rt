//! A reader or a writer, with the number of its failed calls.

ghost use Rattle.std.specs.Prelude.{◌≡◌, ◌≤◌, ◌<◌, [], Ok, OnOk, OnErr, IfOk, length};
ghost use Rattle.std.specs.Io.{ReadsAtMost, WritesAtMost};
ghost use Rattle.std.specs.Io.KnownBytes.{Keeps, ReadConsumes, WriteAppends};
ghost use Rattle.wire_counted.specs.Failures.{one_more};

use std::io::{self, Read, Write};

/// A reader or a writer, with the number of its failed calls.
///
/// The number stops at the greatest `u64`. It lets a caller tell a fault of the device from one of
/// its own: a device's fault comes only with a number that rose.
#[derive(Drop)]
pub struct Counted<T> {
    pub inner: T,
    pub failures: u64,
}

impl<T> Counted<T> {
    /// A reader or a writer of which no call has failed yet.
    pub fn new(inner: T) -> Counted<T>
        ensures { result ≡ record { inner = inner; failures = 0 } }
    {
        Counted { inner, failures: 0 }
    }
}

impl<R: Read> Read for Counted<R> {
    ghost remaining = { λ c. R.remaining c.inner };

    fn read(&mut self, buf: &mut [u8]) -> io::Result<usize>
        ensures bound { ReadsAtMost result buf.new }
        ensures bytes { ReadConsumes (R.remaining self.old.inner) (R.remaining self.new.inner)
            result buf.new }
        ensures ok { OnOk result (self.new.failures ≡ self.old.failures) }
        ensures err { OnErr result (self.new.failures ≡ one_more self.old.failures) }
        ensures grows { self.old.failures ≤ self.new.failures }
    {
        let result = self.inner.read(buf);
        if result.is_err() {
            self.failures = self.failures.saturating_add(1);
        }
        result
    }
}

/// A write that takes nothing of a slice that has bytes counts as a failed call.
impl<W: Write> Write for Counted<W> {
    ghost contents = { λ c. W.contents c.inner };

    fn write(&mut self, buf: &[u8]) -> io::Result<usize>
        ensures bound { WritesAtMost result buf.now }
        ensures bytes { WriteAppends (W.contents self.old.inner) (W.contents self.new.inner)
            result buf.now }
        ensures some { IfOk result (λ n. 0 < n → self.new.failures ≡ self.old.failures) }
        ensures empty { buf.now ≡ [] → OnOk result (self.new.failures ≡ self.old.failures) }
        ensures none { result ≡ Ok 0 → 0 < length buf.now
            → self.new.failures ≡ one_more self.old.failures }
        ensures err { OnErr result (self.new.failures ≡ one_more self.old.failures) }
        ensures grows { self.old.failures ≤ self.new.failures }
    {
        let result = self.inner.write(buf);
        let failed = match &result {
            Ok(n) => *n == 0 && !buf.is_empty(),
            Err(_) => true,
        };
        if failed {
            self.failures = self.failures.saturating_add(1);
        }
        result
    }

    fn flush(&mut self) -> io::Result<()>
        ensures bytes { Keeps (W.contents self.old.inner) (W.contents self.new.inner) }
        ensures ok { OnOk result (self.new.failures ≡ self.old.failures) }
        ensures err { OnErr result (self.new.failures ≡ one_more self.old.failures) }
        ensures grows { self.old.failures ≤ self.new.failures }
    {
        let result = self.inner.flush();
        if result.is_err() {
            self.failures = self.failures.saturating_add(1);
        }
        result
    }
}
