//! The plays and the rankings of several sections as tables of comma-separated values (RFC 4180), for other programs.
mod plays;
mod rankings;
mod section;

pub use plays::write_event_plays;
pub use rankings::write_event_rankings;
