//! The real files and streams: the edge of the program that is trusted to hold what it seems to
//! hold.
ghost use Rattle.std.specs.Prelude.{is_some, None};

use std::fs::File;
use std::io::{Read, Write};
use std::rt::Files;
use surf_base::{Failed, Shelf, Sink};

/// The files of the system. It tells nothing of what they hold.
#[derive(Drop)]
pub struct DiskShelf<'a, R: Files> {
    rt: &'a R,
    file: Option<R::File>,
    given: u64,
    faults: u64,
}

impl<'a, R: Files> DiskShelf<'a, R> {
    /// The files that a runtime reaches, with no file begun.
    pub fn new(rt: &'a R) -> DiskShelf<'a, R> {
        DiskShelf {
            rt,
            file: None,
            given: 0,
            faults: 0,
        }
    }
}

impl<'a, R: Files> Shelf for DiskShelf<'a, R> {
    ghost holds = { λ s. None };

    ghost begun = { λ s. is_some s.file };

    ghost left = { λ s. None };

    ghost given = { λ s. s.given };

    ghost faults = { λ s. s.faults };

    fn begin(&mut self, name: &str) -> Result<(), Failed> {
        self.given = 0;
        match File::open(self.rt, name) {
            Ok(file) => {
                self.file = Some(file);
                Ok(())
            }
            Err(_) => {
                self.file = None;
                self.faults = self.faults.saturating_add(1);
                Err(Failed)
            }
        }
    }

    fn read(&mut self, into: &mut [u8]) -> Result<usize, Failed> {
        if let Some(file) = &mut self.file {
            if let Ok(n) = file.read(into) {
                if let Some(given) = self.given.checked_add(n as u64) {
                    self.given = given;
                    return Ok(n);
                }
            }
        }
        self.faults = self.faults.saturating_add(1);
        Err(Failed)
    }
}

/// A stream of the system. It tells nothing of what was written.
#[derive(Drop)]
pub struct StdSink<W: Write> {
    stream: W,
    faults: u64,
}

impl<W: Write> StdSink<W> {
    /// A sink onto a stream.
    pub fn new(stream: W) -> StdSink<W> {
        StdSink { stream, faults: 0 }
    }
}

impl<W: Write> Sink for StdSink<W> {
    ghost written = { λ s. None };

    ghost faults = { λ s. s.faults };

    fn write(&mut self, bytes: &[u8]) -> Result<usize, Failed> {
        match self.stream.write(bytes) {
            Ok(n) if n > 0 || bytes.is_empty() => Ok(n),
            _ => {
                self.faults = self.faults.saturating_add(1);
                Err(Failed)
            }
        }
    }
}

#[cfg(test)]
mod tests {
    use super::*;
    use std::fs;
    use std::test::Fail;
    use surf_base::{FetchFault, fetch, put_all};

    #[test]
    fn a_file_is_fetched_and_a_missing_one_is_not(rt: HostRuntime) -> Result<(), Fail> {
        fs::write(&rt, "five", "hello").ok().ok_or("written")?;
        let mut shelf = DiskShelf::new(&rt);
        let bytes = fetch(rt.alloc(), &mut shelf, "five", 5).ok().ok_or("read")?;
        assert_eq!(rt; bytes.as_slice(), b"hello".as_slice());
        let none = fetch(rt.alloc(), &mut shelf, "none", 5);
        assert!(rt; matches!(none, Err(FetchFault::Failed)));
        Ok(())
    }

    #[test]
    fn a_text_is_put_and_a_full_stream_fails(rt: HostRuntime) -> Result<(), Fail> {
        let mut sink = StdSink::new(Vec::new(rt.alloc()));
        assert!(rt; put_all(&mut sink, b"hello").is_ok());
        assert_eq!(rt; sink.stream.as_slice(), b"hello".as_slice());

        let mut room = [0u8; 3];
        let mut full = StdSink::new(room.as_mut_slice());
        assert!(rt; put_all(&mut full, b"hello").is_err());
        assert_eq!(rt; full.faults, 1);
        Ok(())
    }
}
