//! Why a command stops.
use bridge_config::ConfigFault;
use evening_commands::{EveningFault, NoRead};
use event_ranking::Difference;
use makeable_deals::MakeableFault;
use session_pair::JoinFault;
use session_store::StoreFault;
use table_server::ServeFault;

/// What the system does not give.
#[derive(Clone, Copy, Debug, PartialEq, Eq)]
pub enum SystemFault {
    /// What the words give as the address to listen at is no IPv4 address.
    Address,
    /// There is no listener at the port.
    Listener,
    /// There are no random numbers.
    Random,
    /// The clock cannot be read.
    Clock,
}

/// Which of two disks of one session was lost.
#[derive(Clone, Copy, Debug, PartialEq, Eq)]
pub enum LostDisk {
    /// The disk.
    Disk,
    /// The copy.
    Copy,
}

/// A section that is not of one field with an earlier one. Sections are numbered from 1, as their disks are given.
#[derive(Clone, Copy, Debug, PartialEq, Eq)]
pub struct OtherSection {
    /// Its number.
    pub section: u8,
    /// The number of the earlier one.
    pub earlier: u8,
    /// In what they differ.
    pub difference: Difference,
}

/// Why a command stopped.
#[derive(Clone, Copy, Debug, PartialEq, Eq)]
pub enum RunFault {
    /// Standard input or the configuration cannot be read, standard output cannot be written, or no connection was had.
    Stream(ServeFault),
    /// The system does not give what the command wants.
    System(SystemFault),
    /// The configuration is refused.
    Config(ConfigFault),
    /// No evening is made of a list of names, or no slips.
    Evening(EveningFault),
    /// Not all of what deals could make was written.
    Makeable(MakeableFault),
    /// The disk is refused or has failed, or memory is refused.
    Store(StoreFault),
    /// The session was not opened on two disks.
    Joining(JoinFault),
    /// One of two disks was lost, and the session went on in the other.
    Lost(LostDisk),
    /// The disk of a section is refused or has failed.
    Section {
        /// The section's number, from 1.
        section: u8,
        /// Why.
        fault: StoreFault,
    },
    /// The sessions on several disks are not one field.
    Field(OtherSection),
}

impl From<ServeFault> for RunFault {
    ghost use Rattle.std.specs.Prelude.{◌≡◌};
    ghost use Rattle.club_commands.specs.declared.fault.RunFault.TheVariants.{Stream as StreamFailed};

    ghost from_gives = { λ cause fault. fault ≡ StreamFailed cause };

    fn from(cause: ServeFault) -> RunFault {
        RunFault::Stream(cause)
    }
}

impl From<ConfigFault> for RunFault {
    ghost use Rattle.std.specs.Prelude.{◌≡◌};
    ghost use Rattle.club_commands.specs.declared.fault.RunFault.TheVariants.{Config as ConfigRefused};

    ghost from_gives = { λ cause fault. fault ≡ ConfigRefused cause };

    fn from(cause: ConfigFault) -> RunFault {
        RunFault::Config(cause)
    }
}

impl From<NoRead> for RunFault {
    ghost use Rattle.std.specs.Prelude.{◌≡◌};
    ghost use Rattle.club_commands.specs.declared.fault.RunFault.TheVariants.{Stream as StreamFailed};
    ghost use Rattle.line_replies.specs.declared.fault.ServeFault.TheVariants.{Read as ReadFailed};

    ghost from_gives = { λ cause fault. fault ≡ StreamFailed ReadFailed };

    fn from(_cause: NoRead) -> RunFault {
        RunFault::Stream(ServeFault::Read)
    }
}
