//! Why the desk takes nothing.
use session_rules::Refused;

/// Why the desk takes nothing.
#[derive(Clone, Copy, Debug, PartialEq, Eq)]
pub enum DeskRefused {
    /// The session refuses it to the holder of the key.
    Session(Refused),
    /// A notice was put up in the same second.
    TooSoon,
}

impl From<Refused> for DeskRefused {
    ghost use Rattle.std.specs.Prelude.{◌≡◌};
    ghost use Rattle.desk_replies.specs.declared.refused.DeskRefused.TheVariants.{Session as BySession};

    ghost from_gives = { λ cause refused. refused ≡ BySession cause };

    fn from(cause: Refused) -> DeskRefused {
        DeskRefused::Session(cause)
    }
}
