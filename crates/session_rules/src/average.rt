//! Averages, as the director awards them.
ghost use Rattle.std.specs.Prelude.{◌≡◌, ◌≤◌};
ghost use Rattle.session_rules.specs.Average.{percent_of, average_of};

/// The share of the matchpoints available that one side is awarded where a board cannot be played or scored as it should
/// (Law 12C2).
#[derive(Clone, Copy, Debug, PartialEq, Eq)]
pub enum Average {
    /// 40 per cent, for a side directly at fault.
    Minus,
    /// 50 per cent, for a side partly at fault.
    Even,
    /// 60 per cent, for a side in no way at fault.
    Plus,
}

impl Average {
    /// Per cent of the matchpoints available: 40, 50 or 60.
    pub fn percent(self) -> u8
        ensures percent { result ≡ percent_of self }
        ensures most { result ≤ 60 }
    {
        match self {
            Average::Minus => 40,
            Average::Even => 50,
            Average::Plus => 60,
        }
    }

    /// The average of so many per cent, if there is one.
    pub fn of_percent(percent: u8) -> Option<Average>
        ensures { result ≡ average_of percent }
    {
        match percent {
            40 => Some(Average::Minus),
            50 => Some(Average::Even),
            60 => Some(Average::Plus),
            _ => None,
        }
    }
}
