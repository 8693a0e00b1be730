//! The names by which a server of pages goes.
ghost use Rattle.std.specs.Prelude.{◌≡◌, IfOk, codes, string_bytes};
ghost use Rattle.table_pages.specs.HostNames.{with_port};

use itoa::Buffer;
use std::alloc::{AllocError, Global};

/// The two names by which browsers may ask a server, as they stand in a request's field `Host`.
#[derive(Drop)]
pub struct HostNames {
    pub(crate) host: String,
    pub(crate) alias: String,
}

/// A host with its port, as browsers write it.
fn with_port(alloc: Global, name: &str, port: u16) -> Result<String, AllocError>
    ensures { IfOk result (λ host. string_bytes host ≡ with_port name.now port) }
{
    let mut host = String::from_str(alloc, name)?;
    host.push_str(":")?;
    host.push_str(Buffer::new().format(port))?;
    Ok(host)
}

impl HostNames {
    /// A port of this computer, which no other computer reaches: `127.0.0.1:PORT` and `localhost:PORT`.
    pub fn of_this_computer(alloc: Global, port: u16) -> Result<HostNames, AllocError>
        ensures host { IfOk result (λ names. string_bytes names.host ≡ with_port (codes "127.0.0.1") port) }
        ensures alias { IfOk result (λ names. string_bytes names.alias ≡ with_port (codes "localhost") port) }
    {
        let host = with_port(alloc, "127.0.0.1", port)?;
        let alias = with_port(alloc, "localhost", port)?;
        Ok(HostNames { host, alias })
    }

    /// The first of the names, with the port: where the pages are.
    pub fn host(&self) -> &str
        ensures { result.now ≡ string_bytes self.now.host }
    {
        &self.host
    }

    /// A host: its name with the port, and without, as a browser writes it where the port goes without saying, or asks a
    /// proxy that has a port of its own.
    pub fn of_host(alloc: Global, name: &str, port: u16) -> Result<HostNames, AllocError>
        ensures host { IfOk result (λ names. string_bytes names.host ≡ with_port name.now port) }
        ensures alias { IfOk result (λ names. string_bytes names.alias ≡ name.now) }
    {
        let host = with_port(alloc, name, port)?;
        let alias = String::from_str(alloc, name)?;
        Ok(HostNames { host, alias })
    }
}
