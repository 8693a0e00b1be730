//! What a request to the web server asks for, and the responses to it: which pages there are, who may ask for them, and
//! the headers that keep pages of other sites out.
//!
//! ```rust
//! let route = route_of("127.0.0.1:4000", "localhost:4000", request);
//! put_text(response, Kind::Lines, text.as_slice())?;
//! ```
#![tactic(auto)]

mod filling;
mod kind;
mod route;

pub use filling::{put_explained, put_refusal, put_static, put_text, put_unavailable};
pub use kind::Kind;
pub use route::{Refusal, Route, route_of};
