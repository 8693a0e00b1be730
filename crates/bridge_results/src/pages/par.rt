//! The par of a board.
ghost use Rattle.std.specs.Prelude.{◌≡◌, ◌≤◌, ◌+◌, ◌++◌, length};
ghost use Rattle.arrayvec.specs.ArrayVec.{array_vec_len};
ghost use Rattle.line_text.specs.Streams.{stream, Written};
ghost use Rattle.bridge_results.specs.MakeableText.{par_label, par_start, par_end, par_gap, par_bid, par_contract, par_contract_at, par_contracts_text, par_text, board_par};

use crate::html::cells::doubled_bid;
use crate::makeable::Makeable;
use crate::pages::cells::bid_cell;
use bridge_auction::Contract;
use bridge_cards::{BoardNumber, dealer, seat_text, vulnerability_of};
use bridge_par::{ParContract, par};
use line_text::{signed_text, write_text};
use page_layout::{Content, Format, PageText, push_bytes, push_html};
use std::io::{Error, Write};

/// What begins the line of par.
fn par_label(format: Format) -> &'static [u8]
    ensures text { result.now ≡ par_label format }
    ensures short { length result.now ≤ 8 }
{
    match format {
        Format::Plain => b"Par: ",
        Format::Html => b"<p>Par: ",
    }
}

/// The same with what North and South score.
#[tactic(auto, unfolding(crate::specs::MakeableText::par_start))]
fn par_start(format: Format, score: i32) -> PageText
    ensures { result.items ≡ par_start format score }
{
    let mut text = PageText::new();
    push_bytes(&mut text, par_label(format));
    push_bytes(&mut text, signed_text(i64::from(score)).as_str().as_bytes());
    text
}

/// Writes it.
fn write_par_start<W: Write>(format: Format, score: i32, writer: &mut W) -> Result<(), Error>
    ensures { Written (stream W.contents writer.old writer.new) (par_start format score) result }
{
    let text = par_start(format, score);
    write_text(writer, text.as_slice())
}

/// What ends it.
fn par_end(format: Format) -> &'static [u8]
    ensures { result.now ≡ par_end format }
{
    match format {
        Format::Plain => b"\n\n",
        Format::Html => b"</p>\n",
    }
}

/// Writes what ends it.
fn write_par_end<W: Write>(format: Format, writer: &mut W) -> Result<(), Error>
    ensures { Written (stream W.contents writer.old writer.new) (par_end format) result }
{
    write_text(writer, par_end(format))
}

/// What stands before a contract, the contracts counted from 0.
fn par_gap(index: usize) -> &'static [u8]
    ensures text { result.now ≡ par_gap index }
    ensures short { length result.now ≤ 4 }
{
    if index % 10 == 9 { b",\n  " } else { b", " }
}

/// Adds a bid and its doubling.
#[tactic(auto, unfolding(crate::specs::MakeableText::par_bid))]
fn push_par_bid(text: &mut PageText, format: Format, contract: &Contract)
    requires { array_vec_len text.old ≤ 100 }
    ensures text { text.new.items ≡ text.old.items ++ par_bid format contract.now }
    ensures room { array_vec_len text.new ≤ array_vec_len text.old + 700 }
{
    match format {
        Format::Plain => push_bytes(text, bid_cell(contract).as_str().as_bytes()),
        Format::Html => push_html(
            text,
            Content::Cards,
            doubled_bid(contract).as_str().as_bytes(),
        ),
    }
}

/// A contract that reaches par, behind what stands before it.
#[tactic(auto, unfolding(crate::specs::MakeableText::par_contract))]
fn par_contract(format: Format, index: usize, reaching: &ParContract) -> PageText
    ensures { result.items ≡ par_contract format index reaching.now }
{
    let mut text = PageText::new();
    push_bytes(&mut text, par_gap(index));
    push_par_bid(&mut text, format, &reaching.contract);
    push_bytes(&mut text, b" ");
    push_bytes(&mut text, seat_text(reaching.contract.declarer).as_bytes());
    text
}

/// The contract at an index, if there is one.
fn par_contract_at(format: Format, contracts: &[ParContract], index: usize) -> PageText
    ensures { result.items ≡ par_contract_at format contracts.now index }
{
    match contracts.get(index) {
        Some(reaching) => par_contract(format, index, reaching),
        None => PageText::new(),
    }
}

/// Writes it.
fn write_contract_at<W: Write>(
    format: Format,
    contracts: &[ParContract],
    index: usize,
    writer: &mut W,
) -> Result<(), Error>
    ensures { Written (stream W.contents writer.old writer.new) (par_contract_at format contracts.now index) result }
{
    let text = par_contract_at(format, contracts, index);
    write_text(writer, text.as_slice())
}

/// Writes the contracts that reach par.
fn write_contracts<W: Write>(
    format: Format,
    contracts: &[ParContract],
    writer: &mut W,
) -> Result<(), Error>
    ensures { Written (stream W.contents writer.old writer.new) (par_contracts_text format contracts.now) result }
{
    for index in 0..contracts.len() {
        write_contract_at(format, contracts, index, writer)?;
    }
    Ok(())
}

/// Writes a par score and the contracts that reach it.
fn write_par<W: Write>(
    format: Format,
    score: i32,
    contracts: &[ParContract],
    writer: &mut W,
) -> Result<(), Error>
    ensures { Written (stream W.contents writer.old writer.new) (par_text format score contracts.now) result }
{
    write_par_start(format, score, writer)?;
    write_contracts(format, contracts, writer)?;
    write_par_end(format, writer)
}

/// Writes the par of a board where the declarers take those tricks.
pub fn write_board_par<W: Write>(
    format: Format,
    board: BoardNumber,
    known: &Makeable,
    writer: &mut W,
) -> Result<(), Error>
    ensures { Written (stream W.contents writer.old writer.new) (board_par format board known.now.table) result }
{
    let found = par(&known.table, dealer(board), vulnerability_of(board));
    write_par(format, found.score, found.contracts.as_slice(), writer)
}
