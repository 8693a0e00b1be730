//! Serving the lines of a reader.
ghost use Rattle.std.specs.Prelude.{◌≡◌, [], false, IfOk, IfErr};
ghost use Rattle.line_text.specs.Streams.{stream};
ghost use Rattle.table_server.specs.ServedStreams.{ReadsTo, StopsReads, EndsReading, HasCounted, HasServed, StopsServing};
ghost use Rattle.table_server.specs.declared.line_set.LineSet.TheVariants.{Protocol};
ghost use Rattle.table_server.specs.Faulted.{FailsWithDisk};
ghost use Rattle.table_server.specs.Serving.{Fits};

use crate::line_service::LineService;
use crate::line_set::LineSet;
use crate::served::{Served, ServedKeys};
use bridge_endings::Cache;
use bridge_session::Session;
use line_replies::{MOST_BYTES, ServeFault, limit_notice, read_piece, write_whole};
use sector_disk::SectorDisk;
use session_store::Store;
use std::io::{Read, Write};

/// The most bytes that are read at a time.
const READ_BYTES: usize = 4096;

/// How the reading of lines ended.
#[derive(Clone, Copy, Debug, PartialEq, Eq)]
pub enum Ended {
    /// The input is at its end.
    AtEnd,
    /// As many bytes were read as may be.
    AtLimit,
    /// A read failed.
    AtFault,
}

/// Reads and answers lines, as long as there are bytes, none of the calls fails and the limit is not reached.
fn read_lines<D: SectorDisk + Drop, R: Read, W: Write>(
    service: &mut LineService,
    store: &mut Store<D, Session>,
    cache: &mut Option<&mut Cache>,
    reader: &mut R,
    writer: &mut W,
) -> Result<Ended, ServeFault>
    requires fits { Fits service.old.held }
    requires none { service.old.held.served.lines ≡ 0 }
    ensures set { service.new.set ≡ service.old.set }
    ensures fits { Fits service.new.held }
    ensures read { IfOk result (ReadsTo D.disk store.old service.old store.new service.new
        (stream R.remaining reader.old reader.new) (stream W.contents writer.old writer.new)) }
    ensures fault { IfErr result (StopsReads D.disk store.old service.old store.new
        (stream R.remaining reader.old reader.new) (stream W.contents writer.old writer.new)) }
    ensures faults { FailsWithDisk D.disk store.old store.new }
{
    let mut piece = [0; READ_BYTES];
    let mut left = MOST_BYTES;
    while left > 0 {
        let Ok(taken) = read_piece(reader, &mut piece, left) else {
            return Ok(Ended::AtFault);
        };
        if taken == 0 {
            return Ok(Ended::AtEnd);
        }
        left -= taken;
        if let Err(fault) = service.take(&piece[..taken], store, cache, writer) {
            return Err(fault);
        }
    }
    Ok(Ended::AtLimit)
}

/// Answers the lines that are held once reading has ended, and at the limit writes a notice.
fn end_lines<D: SectorDisk + Drop, W: Write>(
    service: &mut LineService,
    ended: Ended,
    store: &mut Store<D, Session>,
    writer: &mut W,
) -> Result<ServedKeys, ServeFault>
    requires { Fits service.old.held }
    ensures ends { EndsReading D.disk ended store.old service.old store.new (W.contents writer.old) (W.contents writer.new) result }
    ensures faults { FailsWithDisk D.disk store.old store.new }
{
    let wrong_keys = service.wrong_keys;
    match service.held.finish(store, writer) {
        Err(fault) => Err(fault),
        Ok(served) => match ended {
            Ended::AtEnd => Ok(ServedKeys { served, wrong_keys }),
            Ended::AtLimit => match write_whole(writer, limit_notice(true)) {
                Ok(()) => Ok(ServedKeys { served, wrong_keys }),
                Err(fault) => Err(fault),
            },
            Ended::AtFault => Err(ServeFault::Read),
        },
    }
}

/// Serves a reader's lines over a store: each complete line is answered, of at most 65,536 bytes, and at that number a
/// notice follows. Lines are answered in order. The replies to changes, bad lines and long ones are held until what was accepted
/// is confirmed: before a question is answered, at 64 held lines, at the limit, at the end of the input and where a
/// read fails. What is written is flushed before more is read; replies that are held stay held. Nothing may be pending
/// in a store that works, and nothing is left pending in one that still works at the end.
///
/// Where the store fails or had failed, `ERR 40 Disk` answers each line that is held, the line itself and each later
/// one. `Write` comes at the first error of the writer or where it takes no byte, and `Read` at the first error of the
/// reader, once the replies that are held then are written: that they come only there, and that what is written is
/// flushed, no clause says, and tests show it. It takes no memory but the cache's.
pub fn serve<D: SectorDisk + Drop, R: Read, W: Write>(
    store: &mut Store<D, Session>,
    cache: Option<&mut Cache>,
    reader: &mut R,
    writer: &mut W,
) -> Result<Served, ServeFault>
    requires { store.old.failed ≡ false → store.old.pending ≡ [] }
    ensures ok { IfOk result (HasServed D.disk Protocol store.old store.new
        (stream R.remaining reader.old reader.new) (stream W.contents writer.old writer.new)) }
    ensures fault { IfErr result (StopsServing D.disk Protocol store.old store.new
        (stream R.remaining reader.old reader.new) (stream W.contents writer.old writer.new)) }
    ensures ready { store.new.failed ≡ false → store.new.pending ≡ [] }
    ensures faults { FailsWithDisk D.disk store.old store.new }
{
    let lines = serve_lines(LineSet::Protocol, store, cache, reader, writer)?;
    Ok(lines.served)
}

/// The same of the lines of that set, and counts those that had a key that is nobody's.
pub fn serve_lines<D: SectorDisk + Drop, R: Read, W: Write>(
    set: LineSet,
    store: &mut Store<D, Session>,
    cache: Option<&mut Cache>,
    reader: &mut R,
    writer: &mut W,
) -> Result<ServedKeys, ServeFault>
    requires { store.old.failed ≡ false → store.old.pending ≡ [] }
    ensures ok { IfOk result (HasCounted D.disk set store.old store.new
        (stream R.remaining reader.old reader.new) (stream W.contents writer.old writer.new)) }
    ensures fault { IfErr result (StopsServing D.disk set store.old store.new
        (stream R.remaining reader.old reader.new) (stream W.contents writer.old writer.new)) }
    ensures ready { store.new.failed ≡ false → store.new.pending ≡ [] }
    ensures faults { FailsWithDisk D.disk store.old store.new }
{
    let mut cache = cache;
    let mut service = LineService::begin(set, store);
    match read_lines(&mut service, store, &mut cache, reader, writer) {
        Err(fault) => Err(fault),
        Ok(ended) => end_lines(&mut service, ended, store, writer),
    }
}
