//! The plays and the rankings of a session as tables of comma-separated values (RFC 4180), for other programs.
pub mod fields;
pub mod plays;
pub mod rankings;

pub use plays::write_plays_table;
pub use rankings::write_rankings_table;
