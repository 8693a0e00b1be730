//! What commands do over a disk in a file.
ghost use Rattle.std.specs.Prelude.{◌≡◌};
ghost use Rattle.club_commands.specs.Works.{work_with};

use bridge_session::Session;
use command_line::{ExportAsked, PageAsked, WebHost};
use evening_draft::PairNames;
use table_pages::PageTexts;
use table_server::LineSet;

/// To whom the lines of a session are answered.
#[derive(Clone, Copy)]
pub enum Service<'a> {
    /// To standard input, of that set.
    Input(LineSet),
    /// To connections at a port of 127.0.0.1, one after the other.
    Connections {
        /// The port, from 1 to 65535.
        port: u16,
        /// How many connections, from 1 to 1000.
        count: u16,
    },
    /// To browsers, by pages.
    Pages {
        /// What is shown.
        shown: Shown<'a>,
        /// The name of the disk's file, which the director is told.
        disk: &'a str,
    },
}

/// What pages are shown, where, for how many minutes, and with which names in place of the configuration's.
#[derive(Clone, Copy)]
pub struct Shown<'a> {
    /// What the pages are.
    pub texts: PageTexts,
    /// Where they are shown.
    pub host: WebHost<'a>,
    /// For how many minutes, from 1 to 1440.
    pub minutes: u16,
    /// What comes of a list with another number of pairs.
    pub misfit: Misfit,
    /// The names of a list.
    pub names: Option<&'a [PairNames]>,
}

/// What comes of a list of names with another number of pairs than the session has.
#[derive(Clone, Copy)]
pub enum Misfit {
    /// It is refused.
    Refused,
    /// It is left out, and the configuration's names are shown.
    LeftOut,
}

/// What is done over a disk where names may be shown in place of the configuration's.
#[derive(Clone, Copy)]
pub enum Listed<'a> {
    /// The results of its session are written as a page.
    Results(PageAsked),
    /// Its session is opened, and browsers are shown pages.
    Pages {
        /// What the pages are.
        texts: PageTexts,
        /// Where the pages are shown.
        host: WebHost<'a>,
        /// For how many minutes, from 1 to 1440.
        minutes: u16,
        /// The name of the disk's file, which the director is told.
        disk: &'a str,
        /// What comes of a list with another number of pairs.
        misfit: Misfit,
    },
}

impl<'a> Listed<'a> {
    /// The same with these names.
    pub fn with(&self, names: Option<&'a [PairNames]>) -> Work<'a>
        ensures { result ≡ work_with self.now names.entry }
    {
        match *self {
            Listed::Results(page) => Work::Results { page, names },
            Listed::Pages {
                texts,
                host,
                minutes,
                disk,
                misfit,
            } => {
                let shown = Shown {
                    texts,
                    host,
                    minutes,
                    misfit,
                    names,
                };
                Work::Serve(Service::Pages { shown, disk })
            }
        }
    }
}

/// Which results of a session are written.
#[derive(Clone, Copy)]
pub enum Told {
    /// The ranking of each field.
    Ranking,
    /// The finished plays, in Portable Bridge Notation.
    Games,
}

/// What is done over a disk.
#[derive(Clone, Copy)]
pub enum Work<'a> {
    /// Its session is opened, and lines are answered over it.
    Serve(Service<'a>),
    /// Its session is opened, and results of it are written.
    Tell(Told),
    /// Its session is read, and its results are written as a page.
    Results {
        /// What page.
        page: PageAsked,
        /// The names that are shown, in place of the configuration's.
        names: Option<&'a [PairNames]>,
    },
    /// Its session is read, and written for other programs.
    Export(ExportAsked),
    /// What it holds is said.
    Check,
    /// It is made to hold this session.
    Format(&'a Session),
}
