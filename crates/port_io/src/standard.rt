//! The standard streams.

ghost use Rattle.std.specs.Prelude.{◌≡◌, ◌<◌, ◌≤◌, length, IfOk, OnOk, OnErr, IsOk};
ghost use Rattle.std.specs.Io.KnownBytes.{ReadConsumes, WriteAppends};
ghost use Rattle.port_io.specs.Outside.{Rises, counted};

use crate::outside::{Failed, Sink, Source, count_failure};
use refl_types::Memory;
use std::alloc::Global;
use std::io::{self, Input, Print, Printer, Read, Write};
use std::marker::Model;

/// A source over a reader. It tells what the reader tells.
#[derive(Drop)]
pub struct StdSource<T> {
    reader: T,
    faults: u64,
}

impl<T> Model for StdSource<T> {
    ghost use Rattle.port_io.specs.Standard.{Stream};

    ghost Value = { Stream T };

    ghost view = { λ s. record { inner = s.reader; faults = s.faults } };
}

impl<T: Read + Drop> StdSource<T> {
    /// The standard input.
    pub fn make<R: Input<Reader = T> + Drop>(rt: R, _alloc: Global) -> Result<StdSource<T>, Memory>
        ensures always { IsOk result }
        ensures value { IfOk result (λ s. s.faults ≡ 0) }
    {
        Ok(StdSource {
            reader: rt.reader(),
            faults: 0,
        })
    }
}

impl<T: Read + Drop> Source for StdSource<T> {
    ghost left = { λ s. T.remaining s.inner };

    ghost faults = { λ s. s.faults };

    fn read(&mut self, buf: &mut [u8]) -> Result<usize, Failed>
        ensures bound { IfOk result (λ n. n ≤ length buf.new) }
        ensures octets { ReadConsumes (T.remaining self.old.inner) (T.remaining self.new.inner) result buf.new }
        ensures still { OnOk result (self.new.faults ≡ self.old.faults) }
        ensures cause { OnErr result (Rises self.old.faults self.new.faults) }
        // A failure is counted once.
        ensures failed { OnErr result (self.new.faults ≡ counted self.old.faults) }
    {
        match self.reader.read(buf) {
            Ok(count) => Ok(count),
            Err(_) => Err(count_failure(&mut self.faults)),
        }
    }
}

/// A sink over a writer. It tells what the writer tells.
#[derive(Drop)]
pub struct StdSink<W> {
    writer: W,
    faults: u64,
}

impl<W> Model for StdSink<W> {
    ghost use Rattle.port_io.specs.Standard.{Stream};

    ghost Value = { Stream W };

    ghost view = { λ s. record { inner = s.writer; faults = s.faults } };
}

impl<'a, P: Print> StdSink<Printer<'a, P>> {
    /// The standard output.
    pub fn make(to: &'a P, _alloc: Global) -> Result<StdSink<Printer<'a, P>>, Memory>
        ensures always { IsOk result }
        ensures value { IfOk result (λ s. s.faults ≡ 0) }
    {
        Ok(StdSink {
            writer: io::writer(to),
            faults: 0,
        })
    }
}

impl<W: Write + Drop> Sink for StdSink<W> {
    ghost shown = { λ s. record { written = W.contents s.inner; faults = s.faults } };

    fn write(&mut self, octets: &[u8]) -> Result<usize, Failed>
        ensures bound { IfOk result (λ n. n ≤ length octets.now) }
        ensures some { IfOk result (λ n. 0 < length octets.now → 0 < n) }
        ensures octets { WriteAppends (W.contents self.old.inner) (W.contents self.new.inner) result octets.now }
        ensures still { OnOk result (self.new.faults ≡ self.old.faults) }
        ensures cause { OnErr result (Rises self.old.faults self.new.faults) }
        // A failure is counted once.
        ensures failed { OnErr result (self.new.faults ≡ counted self.old.faults) }
    {
        match self.writer.write(octets) {
            Ok(count) if count > 0 || octets.is_empty() => Ok(count),
            // A writer that takes none of some octets fails as well.
            _ => Err(count_failure(&mut self.faults)),
        }
    }
}
