//! Why a run over a reader and a writer ended early.
use thiserror::Error;

/// Why a run over a reader and a writer, or over a connection, ended early.
#[derive(Clone, Copy, Debug, PartialEq, Eq, Error)]
pub enum ServeFault {
    /// A read failed. Where lines were read, the replies to the complete ones before it are written.
    #[error("cannot read input")]
    Read,
    /// A write failed or took no byte. A prefix of the text is written.
    #[error("cannot write output")]
    Write,
    /// No connection was had. `accept_and_serve` answers this; `serve` and `run_auction` never do.
    #[error("cannot accept a connection")]
    Accept,
}
