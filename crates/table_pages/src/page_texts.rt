//! The texts of the pages.

/// The texts of the pages, each of which browsers get as it is.
#[derive(Clone, Copy, Debug)]
pub struct PageTexts {
    /// The page.
    pub page: &'static str,
    /// Its style.
    pub style: &'static str,
    /// All that its scripts say.
    pub texts_script: &'static str,
    /// What its other scripts share.
    pub shared_script: &'static str,
    /// The players' script.
    pub table_script: &'static str,
    /// The script of boards that are over.
    pub boards_script: &'static str,
    /// The script of what stands beside the session, at `/desk.js`.
    pub desk_script: &'static str,
    /// The director's script.
    pub director_script: &'static str,
    /// The page for a path at which there is nothing.
    pub unknown_page: &'static str,
    /// The page for a name of the host by which the server does not go.
    pub wrong_host: &'static str,
}
