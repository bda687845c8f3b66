//! Where the times are written.

use crate::fault::Fault;
use std::io::Write;
use std::time::{Clock, Instant};

/// How much is run.
#[derive(Clone, Copy, Debug, PartialEq, Eq)]
pub(crate) enum Scale {
    Full,
    /// A hundredth of it, and no times.
    Check,
}

impl Scale {
    /// How often a part is run that runs `full` times in full.
    pub(crate) fn times(self, full: u32) -> u32 {
        match self {
            Scale::Full => full,
            Scale::Check => full / 100,
        }
    }
}

/// The lines of a measurement.
#[derive(Drop)]
pub(crate) struct Measure<W: Write + Drop> {
    out: W,
    pub(crate) scale: Scale,
}

impl<W: Write + Drop> Measure<W> {
    pub(crate) fn new(out: W, scale: Scale) -> Measure<W> {
        Measure { out, scale }
    }

    /// One line: what was done, how often, and the time since `start`.
    pub(crate) fn line<R: Clock>(
        &mut self,
        rt: &R,
        what: &str,
        count: u64,
        start: Instant,
    ) -> Result<(), Fault> {
        let micros = start.elapsed(rt)?.as_micros();
        match self.scale {
            Scale::Full => writeln!(self.out, "{what}: {count} in {micros} microseconds")?,
            Scale::Check => writeln!(self.out, "{what}: {count}")?,
        }
        Ok(())
    }

    /// One line: a part, and the microseconds since `start`.
    pub(crate) fn part<R: Clock>(
        &mut self,
        rt: &R,
        what: &str,
        start: Instant,
    ) -> Result<(), Fault> {
        let nanos = start.elapsed(rt)?.as_nanos();
        match self.scale {
            Scale::Full => writeln!(self.out, "{what}: {}.{}", nanos / 1000, nanos % 1000 / 100)?,
            Scale::Check => {}
        }
        Ok(())
    }

    /// One line without a time.
    pub(crate) fn count(&mut self, what: &str, count: u64) -> Result<(), Fault> {
        writeln!(self.out, "{what}: {count}")?;
        Ok(())
    }

    /// One line with a number that is another each time.
    pub(crate) fn varying(&mut self, what: &str, count: u64) -> Result<(), Fault> {
        match self.scale {
            Scale::Full => self.count(what, count),
            Scale::Check => Ok(()),
        }
    }

    /// The line that the next ones belong to.
    pub(crate) fn title(&mut self, what: &str) -> Result<(), Fault> {
        writeln!(self.out, "{what}")?;
        Ok(())
    }

    pub(crate) fn finish(self) -> Result<(), Fault> {
        let Measure { mut out, scale: _ } = self;
        out.flush()?;
        Ok(())
    }
}
