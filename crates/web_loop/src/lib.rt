//! A web server in one thread: connections that do not block, each asked in turn, so that none that is silent, slow or
//! does not read holds the others up.
//!
//! ```rust
//! let mut clients = Clients::new(rt.alloc(), RandomState::new(&rt)?, Config::default(), Instant::now(&rt)?);
//! serve_minutes(&rt, &listener, &mut clients, &mut service, 180)?;
//! ```
#![tactic(auto)]

mod client;
mod clients;
mod offender;
mod offenders;
mod readiness;
mod server_loop;
mod service;
mod turn;

pub use clients::Clients;
pub use offenders::Offenders;
pub use server_loop::serve_minutes;
pub use service::LastingService;
pub use turn::{Turn, take_turn};
