//! The boards and the tables of a session, read from their parts.
ghost use Rattle.std.specs.Prelude.{◌≡◌, ◌≢◌, ◌==◌, ◌*◌, List, length, map, flat_map, OnSome, IfNone, All};
ghost use Rattle.session_rules.specs.Record.{PlainRecord};
ghost use Rattle.session_rules.specs.State.{Deals, row_boards};
ghost use Rattle.bridge_table.specs.Kept.{plain_of, board_kept, IsTiedIn};
ghost use Rattle.session_bytes.specs.Parts.{deal_part, row_parts};
ghost use Rattle.session_rules.specs.StateRange.{AreHandsOrNone};
ghost use Rattle.session_bytes.specs.Reading.{items_of, part_kept, plains_of, AreDeals, AreRecords, IsRowOf, AreRows, empty_length, is_empty_part, AreOfNoRecords, AreOfNoRows};
ghost use Rattle.std.specs.List.{list_all};

use crate::deal_read::read_deal_part;
use crate::record_read::read_record;
use arrayvec::ArrayVec;
use bridge_cards::{Deal, Scoring};
use bridge_movement::Row;
use bridge_table::Record;
use session_store::{DiskFormat, PAYLOAD_BYTES};

/// Reads the deals of the boards that the parts were written of; `None` where these are the parts of no boards.
pub fn read_deals(parts: &[ArrayVec<u8, PAYLOAD_BYTES>], deals: &mut [Option<Deal>]) -> Option<()>
    requires { length deals.old ≡ length parts.now }
    ensures written { OnSome result (map deal_part deals.new ≡ map items_of parts.now) }
    ensures deals { OnSome result (AreDeals deals.new) }
    ensures other { IfNone result ((others : Deals) → AreDeals others → map deal_part others ≢ map items_of parts.now) }
{
    for (index, part) in parts.iter().enumerate() {
        deals[index] = read_deal_part(part.as_slice())?;
    }
    Some(())
}

/// How many zeros are the part of a play in which nothing has happened.
fn empty_length(format: DiskFormat) -> usize
    ensures { result ≡ empty_length format }
{
    match format {
        DiskFormat::One => 6,
        DiskFormat::Two => 8,
    }
}

/// Whether the part is that of a play in which nothing has happened.
fn is_empty_part(format: DiskFormat, part: &[u8]) -> bool
    ensures { result ≡ is_empty_part format part.now }
{
    part.len() == empty_length(format) && are_zeros(part)
}

fn are_zeros(bytes: &[u8]) -> bool
    ensures { result ≡ list_all (λ byte. byte == 0) bytes.now }
{
    bytes.iter().all(|byte| *byte == 0)
}

/// Whether the parts are those of plays in which nothing has happened.
fn are_empty_parts(format: DiskFormat, parts: &[ArrayVec<u8, PAYLOAD_BYTES>]) -> bool
    ensures { result ≡ list_all (λ part. is_empty_part format part.items) parts.now }
{
    parts
        .iter()
        .all(|part| is_empty_part(format, part.as_slice()))
}

/// Reads the records of a round, of the boards of the table's, that the parts were written of in that format; `None` where
/// they are those of no valid records.
fn read_records(
    format: DiskFormat,
    scoring: Scoring,
    parts: &[ArrayVec<u8, PAYLOAD_BYTES>],
    deals: &[Option<Deal>],
    now: u8,
    round: u8,
    table: &mut [Record],
) -> Option<()>
    requires count { length table.old ≡ length parts.now }
    requires deals { All AreHandsOrNone deals.now }
    ensures written { OnSome result (map (part_kept format) table.new ≡ map items_of parts.now) }
    ensures records { OnSome result (AreRecords format scoring deals.now now round (map board_kept table.old) (map plain_of table.new)) }
    ensures tied { OnSome result (All (IsTiedIn deals.now) table.new) }
    ensures other { IfNone result (AreOfNoRecords format scoring deals.now now round (map board_kept table.old) (map items_of parts.now)) }
{
    for (index, part) in parts.iter().enumerate() {
        let board = table[index].board;
        let kept = read_record(format, scoring, part.as_slice(), board, deals, now, round)?;
        table[index] = kept;
    }
    Some(())
}

/// Reads the records of a row: those of the boards of its set where it is live, and otherwise none, of which the parts say
/// that nothing has happened.
fn read_table(
    format: DiskFormat,
    scoring: Scoring,
    parts: &[ArrayVec<u8, PAYLOAD_BYTES>],
    row: &Row,
    boards: u8,
    deals: &[Option<Deal>],
    now: u8,
    table: &mut [Record],
) -> Option<()>
    requires count { length parts.now ≡ boards }
    requires boards { map board_kept table.old ≡ row_boards boards row.now }
    requires deals { All AreHandsOrNone deals.now }
    ensures written { OnSome result (row_parts format boards (map plain_of table.new) ≡ map items_of parts.now) }
    ensures row { OnSome result (IsRowOf format scoring deals.now now boards row.now (map plain_of table.new)) }
    ensures tied { OnSome result (All (IsTiedIn deals.now) table.new) }
    ensures other { IfNone result ((records : List PlainRecord) → IsRowOf format scoring deals.now now boards row.now records → row_parts format boards records ≢ map items_of parts.now) }
{
    if row.is_live() {
        read_records(format, scoring, parts, deals, now, row.round, table)
    } else if are_empty_parts(format, parts) {
        Some(())
    } else {
        None
    }
}

/// Reads the records of all rows that the parts were written of in that format, as many parts for each row as there are boards in a set;
/// `None` where they are those of no valid records. The tables have a record for each board that their row plays.
pub fn read_tables(
    format: DiskFormat,
    scoring: Scoring,
    parts: &[ArrayVec<u8, PAYLOAD_BYTES>],
    rows: &[Row],
    boards: u8,
    deals: &[Option<Deal>],
    now: u8,
    tables: &mut [Vec<Record>],
) -> Option<()>
    requires count { length parts.now ≡ length rows.now * boards }
    requires boards { map (λ table. map board_kept table.items) tables.old ≡ map (row_boards boards) rows.now }
    requires deals { All AreHandsOrNone deals.now }
    ensures written { OnSome result (flat_map (row_parts format boards) (map plains_of tables.new) ≡ map items_of parts.now) }
    ensures rows { OnSome result (AreRows format scoring deals.now now boards rows.now (map plains_of tables.new)
        × All (λ table. All (IsTiedIn deals.now) table.items) tables.new) }
    ensures other { IfNone result (AreOfNoRows format scoring deals.now now boards rows.now (map items_of parts.now)) }
{
    let mut rest = parts;
    for (index, row) in rows.iter().enumerate() {
        let (own, later) = rest.split_at(usize::from(boards));
        let table = tables[index].as_mut_slice();
        read_table(format, scoring, own, row, boards, deals, now, table)?;
        rest = later;
    }
    Some(())
}
