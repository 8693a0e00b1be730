//! The formats of a disk.
ghost use Rattle.std.specs.Prelude.{◌≡◌};
ghost use Rattle.session_store.specs.Form.{header_mark, part_mark, record_mark};

/// A format of the disk. Both are read; what is written is of the second.
#[derive(Clone, Copy, Debug, PartialEq, Eq)]
pub enum DiskFormat {
    /// The first, whose sectors have the marks `BD1H`, `BD1P` and `BD1R`.
    One,
    /// The second, whose sectors have the marks `BD2H`, `BD2P` and `BD2R`.
    Two,
}

impl DiskFormat {
    /// The mark of a header.
    pub(crate) fn header_mark(self) -> [u8; 4]
        ensures { result ≡ header_mark self }
    {
        match self {
            DiskFormat::One => *b"BD1H",
            DiskFormat::Two => *b"BD2H",
        }
    }

    /// The mark of a part.
    pub(crate) fn part_mark(self) -> [u8; 4]
        ensures { result ≡ part_mark self }
    {
        match self {
            DiskFormat::One => *b"BD1P",
            DiskFormat::Two => *b"BD2P",
        }
    }

    /// The mark of a record.
    pub(crate) fn record_mark(self) -> [u8; 4]
        ensures { result ≡ record_mark self }
    {
        match self {
            DiskFormat::One => *b"BD1R",
            DiskFormat::Two => *b"BD2R",
        }
    }
}
