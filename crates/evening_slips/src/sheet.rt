//! How slips are written.
use page_layout::Format;

/// The most bytes of an address.
pub const ADDRESS_BYTES: usize = 100;

/// How slips are written.
#[derive(Clone, Copy)]
pub struct SlipSheet<'a> {
    /// As plain text or as HTML.
    pub format: Format,
    /// Where the pages are, if that is known: at most 100 bytes.
    pub address: Option<&'a str>,
}
