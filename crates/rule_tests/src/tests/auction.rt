//! The auction against a plain twin on every short list of calls. Worked auctions stand in examples/auctions.
mod twin;
