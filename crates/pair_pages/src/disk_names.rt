//! What the director is told of two disks.
ghost use Rattle.std.specs.Prelude.{◌≡◌};
ghost use Rattle.pair_pages.specs.Pair.{disk_name, is_named_first, lost_line};

use session_store::PairStanding;

/// What standard error is told at once where the disk is lost.
const DISK_LOST: &str = "disk lost, session goes on in the copy\n";

/// The same where the copy is.
const COPY_LOST: &str = "copy lost, session goes on in the disk\n";

/// What the director is told of the disks, by which of them are still kept.
#[derive(Drop)]
pub struct DiskNames {
    /// Where both are.
    pub level: String,
    /// Where the first is lost.
    pub first_lost: String,
    /// Where the second is lost.
    pub second_lost: String,
    /// Whether the first is the disk that was named first, and the second its copy.
    pub disk_first: bool,
}

impl DiskNames {
    /// What is told where the disks stand so.
    pub fn told(&self, standing: Option<PairStanding>) -> &str
        ensures { result.now ≡ disk_name self.now standing }
    {
        match standing {
            Some(PairStanding::FirstLost) => self.first_lost.as_str(),
            Some(PairStanding::SecondLost) => self.second_lost.as_str(),
            _ => self.level.as_str(),
        }
    }

    /// Whether the first is named before the second where the disks stand so.
    pub fn is_named_first(&self, standing: Option<PairStanding>) -> bool
        ensures { result ≡ is_named_first self.now standing }
    {
        match standing {
            Some(PairStanding::FirstLost) => false,
            Some(PairStanding::SecondLost) => true,
            _ => self.disk_first,
        }
    }

    /// The line of standard error once the disks stand so; none where both are kept, or both are lost.
    pub fn lost_line(&self, standing: Option<PairStanding>) -> &'static str
        ensures { result.now ≡ lost_line self.now standing }
    {
        match (standing, self.disk_first) {
            (Some(PairStanding::FirstLost), true) => DISK_LOST,
            (Some(PairStanding::FirstLost), false) => COPY_LOST,
            (Some(PairStanding::SecondLost), true) => COPY_LOST,
            (Some(PairStanding::SecondLost), false) => DISK_LOST,
            _ => "",
        }
    }
}
