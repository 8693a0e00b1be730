//! Writers that fail.
use crate::tests::expect_eq;
use arrayvec::{ArrayString, ArrayVec};
use line_text::{push_refusal, write_text};
use std::io::{Error, ErrorKind, Result, Write};

/// Takes two bytes at a time, as many as it has room for, and then none, or fails.
#[derive(Drop)]
struct Pen {
    taken: ArrayVec<u8, 64>,
    room: usize,
    fails: bool,
    flush_fails: bool,
    flushes: u32,
}

impl Write for Pen {
    fn write(&mut self, buf: &[u8]) -> Result<usize> {
        if self.room == 0 && self.fails {
            return Err(Error::from(ErrorKind::BrokenPipe));
        }
        let count = self.room.min(2).min(buf.len());
        for byte in &buf[..count] {
            let _ = self.taken.try_push(*byte);
        }
        self.room = self.room.saturating_sub(count);
        Ok(count)
    }

    fn flush(&mut self) -> Result<()> {
        self.flushes = self.flushes.wrapping_add(1);
        if self.flush_fails {
            return Err(Error::from(ErrorKind::BrokenPipe));
        }
        Ok(())
    }
}

fn pen_with(room: usize, fails: bool, flush_fails: bool) -> Pen {
    Pen {
        taken: ArrayVec::new(),
        room,
        fails,
        flush_fails,
        flushes: 0,
    }
}

/// For how many bytes a pen has room, whether it then fails, whether its flush fails, what it has taken in the end, the error,
/// and how often it was flushed.
type Row = (usize, bool, bool, &'static str, Option<ErrorKind>, u32);

static ROWS: [Row; 4] = [
    (64, false, false, "ERR 30 BadLine\n", None, 1),
    (5, false, false, "ERR 3", Some(ErrorKind::WriteZero), 0),
    (5, true, false, "ERR 3", Some(ErrorKind::BrokenPipe), 0),
    (
        64,
        true,
        true,
        "ERR 30 BadLine\n",
        Some(ErrorKind::BrokenPipe),
        1,
    ),
];

/// The kind of the error, if it is one.
fn kind_of(answer: Result<()>) -> Option<ErrorKind> {
    match answer {
        Ok(()) => None,
        Err(error) => Some(error.kind()),
    }
}

#[test]
fn texts_are_written_whole_or_to_the_first_error(rt: HostRuntime) {
    let mut text = ArrayString::<29>::new();
    push_refusal(&mut text, 30, "BadLine");
    for (room, fails, flush_fails, taken, error, flushes) in ROWS.as_slice() {
        let mut writer = pen_with(*room, *fails, *flush_fails);
        let result = write_text(&mut writer, text.as_str().as_bytes());
        expect_eq(&rt, writer.taken.as_slice(), taken.as_bytes(), *room);
        expect_eq(&rt, kind_of(result), *error, *room);
        expect_eq(&rt, writer.flushes, *flushes, *room);
    }
}
