//! Where the pages of `web` are shown: the listener, the names that it answers to, and the line that says so.
ghost use Rattle.std.specs.Prelude.{◌≡◌, ◌⊎◌, None, IfOk, IfErr, string_bytes};
ghost use Rattle.club_commands.specs.declared.fault.SystemFault.TheVariants.{Address, Listener};
ghost use Rattle.club_commands.specs.Web.{IsAddress, host_at, alias_at, listening_line};

use crate::fault::{RunFault, SystemFault};
use crate::machine::Host;
use command_line::WebHost;
use std::alloc::{AllocError, Global};
use std::net::{Ipv4Addr, SocketAddr, TcpListener};
use table_pages::HostNames;

/// The address to listen at, if what is given is one.
fn address_of(host: &WebHost<'_>) -> Option<Ipv4Addr>
    ensures { IsAddress host.now.address result }
{
    match host.address {
        Some(address) => address.parse::<Ipv4Addr>().ok(),
        None => Some(Ipv4Addr::LOCALHOST),
    }
}

/// Listens at a port of an address, without waiting there for anybody. The fault is that there is no such address, or that
/// the program cannot listen there.
pub fn listen_at<N: Host>(rt: &N, host: &WebHost<'_>) -> Result<TcpListener, RunFault>
    ensures { IfErr result (λ fault. ((fault ≡ RunFault.System Address) × IsAddress host.now.address None)
        ⊎ (fault ≡ RunFault.System Listener)) }
{
    let address = address_of(host).ok_or(RunFault::System(SystemFault::Address))?;
    let listener = TcpListener::bind(rt, SocketAddr::from((address, host.port))).or(Err(
        RunFault::System(SystemFault::Listener),
    ))?;
    listener
        .set_nonblocking(true)
        .or(Err(RunFault::System(SystemFault::Listener)))?;
    Ok(listener)
}

/// The names by which browsers may ask for the pages.
pub fn names_of(alloc: Global, host: &WebHost<'_>) -> Result<HostNames, AllocError>
    ensures host { IfOk result (λ names. string_bytes names.host ≡ host_at host.now) }
    ensures alias { IfOk result (λ names. string_bytes names.alias ≡ alias_at host.now) }
{
    match (host.name, host.address) {
        (Some(name), _) => HostNames::of_host(alloc, name, host.port),
        (None, Some(address)) => HostNames::of_host(alloc, address, host.port),
        (None, None) => HostNames::of_this_computer(alloc, host.port),
    }
}

/// The line that says where the pages are.
pub fn listening_line(alloc: Global, host: &str) -> Result<String, AllocError>
    ensures { IfOk result (λ line. string_bytes line ≡ listening_line host.now) }
{
    let mut line = String::from_str(alloc, "listening at http://")?;
    line.push_str(host)?;
    line.push_str("\n")?;
    Ok(line)
}
