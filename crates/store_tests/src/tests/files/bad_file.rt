//! A file that notes what is asked of it, and behaves badly.
ghost use Rattle.std.specs.Prelude.{◌≤◌};

use std::cell::{Cell, RefCell};
use std::fmt::Write;
use std::fs::{Metadata, OpenFile};
use std::io;
use std::io::{Error, ErrorKind};
use std::os::unix::fs::FileExt;

/// A file of `length` bytes, or as it tells of `told`, that gives or takes at most `most` of them a call, and none past its end.
/// It refuses the call of the number `refused`, where the next one has `number`, with the system's error of that code.
///
/// Each call is noted as a word and a space: `r2560+512` is a read of 512 bytes at 2560, `w2560+512=7` a write that
/// begins with a 7, `m` asks for the length, `l` sets it, and `s` and `a` sync the data and all.
#[derive(Drop)]
pub struct BadFile<'a> {
    pub calls: &'a RefCell<String>,
    pub told: u64,
    pub length: u64,
    pub most: usize,
    pub refused: usize,
    pub code: i32,
    pub number: Cell<usize>,
}

/// Notes a call: its letter, where and how much, and the value that is written first.
fn push_call(
    calls: &mut String,
    call: char,
    index: Option<(u64, usize)>,
    value: Option<u8>,
) -> io::Result<()> {
    calls.push(call)?;
    if let Some((offset, length)) = index {
        let _ = write!(calls, "{offset}+{length}");
    }
    if let Some(value) = value {
        let _ = write!(calls, "={value}");
    }
    calls.push(' ')?;
    Ok(())
}

impl BadFile<'_> {
    fn note(&self, call: char, index: Option<(u64, usize)>, value: Option<u8>) -> io::Result<()> {
        let number = self.number.get();
        self.number.set(number.wrapping_add(1));
        let Ok(mut calls) = self.calls.try_borrow_mut() else {
            return Err(Error::from(ErrorKind::ResourceBusy));
        };
        push_call(&mut calls, call, index, value)?;
        if number == self.refused {
            Err(Error::from_raw_os_error(self.code))
        } else {
            Ok(())
        }
    }

    /// How many of that many bytes from there on it gives or takes.
    fn taken(&self, offset: u64, length: usize) -> usize
        ensures { result ≤ length }
    {
        let left = self.length.saturating_sub(offset);
        let left = usize::try_from(left).unwrap_or(usize::MAX);
        length.min(self.most).min(left)
    }
}

impl OpenFile for BadFile<'_> {
    fn metadata(&self) -> io::Result<Metadata> {
        self.note('m', None, None)?;
        Ok(Metadata::of_file(self.told))
    }

    fn set_len(&self, _size: u64) -> io::Result<()> {
        self.note('l', None, None)
    }

    fn sync_all(&self) -> io::Result<()> {
        self.note('a', None, None)
    }

    fn sync_data(&self) -> io::Result<()> {
        self.note('s', None, None)
    }
}

impl FileExt for BadFile<'_> {
    fn read_at(&self, buf: &mut [u8], offset: u64) -> io::Result<usize> {
        self.note('r', Some((offset, buf.len())), None)?;
        Ok(self.taken(offset, buf.len()))
    }

    fn write_at(&self, buf: &[u8], offset: u64) -> io::Result<usize> {
        self.note('w', Some((offset, buf.len())), buf.first().copied())?;
        Ok(self.taken(offset, buf.len()))
    }
}
