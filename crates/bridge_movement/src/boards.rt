//! The boards of a set.
ghost use Rattle.std.specs.Prelude.{◌≡◌};
ghost use Rattle.bridge_movement.specs.Boards.{boards_before, last_board};

/// How many boards come before those of a set, from 1, where each set has so many.
pub fn boards_before(boards: u8, set: u8) -> u16
    ensures { result ≡ boards_before boards set }
{
    u16::from(set.saturating_sub(1)) * u16::from(boards)
}

/// The last board of a set, from 1, where each set has so many.
pub fn last_board(boards: u8, set: u8) -> u16
    ensures { result ≡ last_board boards set }
{
    u16::from(set) * u16::from(boards)
}
