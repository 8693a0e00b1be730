//! An auction by itself, line by line.
ghost use Rattle.std.specs.Prelude.{◌≡◌, ◌+◌, ◌*◌, ◌≤◌, ◌∷◌, Some, true, ◌++◌, [], List, ℕ, length};
ghost use Rattle.arrayvec.specs.ArrayString.{array_string_len};
ghost use Rattle.auction_command.specs.Replies.{ending, contract_line, line_reply, line_call, calls_with};
ghost use Rattle.line_text.specs.Lines.{is_within_line};
ghost use Rattle.auction_command.specs.AuctionLines.{replies_from, calls_from};
ghost use Rattle.std.specs.List.{list_all};

use arrayvec::ArrayString;
use bridge_auction::{Auction, Contract, doubling_text, print_bid, read_call};
use bridge_cards::Seat;
use line_replies::reply_text::SHORT_BYTES;
use line_replies::{LineFeed, ShortReply};
use line_text::{LINE_BYTES, without_return};
use std::marker::Model;

/// The most bytes that an auction is fed at a time.
pub const PIECE_BYTES: usize = 1024;

/// The room for replies: that of the longest for each byte of a piece.
pub const REPLIES_BYTES: usize = SHORT_BYTES * PIECE_BYTES;

/// An auction that is fed the bytes of its lines, in whatever pieces they come.
#[derive(Drop)]
pub struct AuctionLines {
    /// The calls so far.
    auction: Auction,
    /// The line that has begun.
    feed: LineFeed,
}

impl Model for AuctionLines {
    ghost use Rattle.std.specs.Prelude.{◌≡◌, true};
    ghost use Rattle.std.specs.List.{list_all};
    ghost use Rattle.auction_command.specs.AuctionLines.{AuctionLinesValue};
    ghost use Rattle.line_text.specs.Lines.{is_within_line};

    ghost Value = { AuctionLinesValue };

    ghost view = { λ d. record { dealer = d.auction.dealer; calls = d.auction.calls; line = d.feed } };

    ghost invariant = { λ d. list_all is_within_line d.feed ≡ true };
}

impl AuctionLines {
    /// An auction of that dealer before its first line.
    pub fn new(dealer: Seat) -> AuctionLines
        ensures dealer { result.dealer ≡ dealer }
        ensures calls { result.calls ≡ [] }
        ensures line { result.line ≡ [] }
    {
        AuctionLines {
            auction: Auction::new(dealer),
            feed: LineFeed::new(),
        }
    }

    /// Takes the next bytes of the lines, in any piece, and adds the reply to each line that they complete.
    ///
    /// What is written and what is still to be written for any bytes to come stay the same text together,
    /// so how the lines are cut into pieces makes no difference.
    pub fn feed(&mut self, piece: &[u8], out: &mut ArrayString<REPLIES_BYTES>)
        requires { array_string_len out.old + SHORT_BYTES * length piece.now ≤ REPLIES_BYTES }
        ensures replies { (rest : List ℕ) → out.old.bytes ++ replies_from self.old (piece.now ++ rest)
            ≡ out.new.bytes ++ replies_from self.new rest }
        ensures calls { (rest : List ℕ) → calls_from self.old (piece.now ++ rest) ≡ calls_from self.new rest }
        ensures dealer { self.new.dealer ≡ self.old.dealer }
        ensures within { list_all is_within_line self.new.line ≡ true }
    {
        // Names a field, so that the invariant is known also where the piece is empty.
        let _ = &self.feed;
        for byte in piece {
            self.feed_byte(*byte, out);
        }
    }

    fn feed_byte(&mut self, byte: u8, out: &mut ArrayString<REPLIES_BYTES>)
        requires { array_string_len out.old + SHORT_BYTES ≤ REPLIES_BYTES }
        ensures replies { (rest : List ℕ) → out.old.bytes ++ replies_from self.old (byte ∷ rest)
            ≡ out.new.bytes ++ replies_from self.new rest }
        ensures calls { (rest : List ℕ) → calls_from self.old (byte ∷ rest) ≡ calls_from self.new rest }
        ensures dealer { self.new.dealer ≡ self.old.dealer }
        ensures within { list_all is_within_line self.new.line ≡ true }
        ensures room { array_string_len out.new ≤ array_string_len out.old + SHORT_BYTES }
    {
        match self.feed.take_byte(byte) {
            None => {}
            Some(line) => {
                let reply = answer(&mut self.auction, line.as_slice());
                reply.push_to(out);
            }
        }
    }

    /// Adds the last line: the contract, `PASSED OUT`, or `UNFINISHED` while the auction is open.
    pub fn push_ending(&self, out: &mut ArrayString<REPLIES_BYTES>)
        requires { array_string_len out.old + 17 ≤ REPLIES_BYTES }
        ensures { out.new.bytes ≡ out.old.bytes ++ ending self.now.dealer self.now.calls }
    {
        if !self.auction.is_ended() {
            out.push_str("UNFINISHED\n");
            return;
        }
        match self.auction.contract() {
            None => out.push_str("PASSED OUT\n"),
            Some(contract) => push_contract(&contract, out),
        }
    }
}

/// Adds the line of the contract.
fn push_contract(contract: &Contract, out: &mut ArrayString<REPLIES_BYTES>)
    requires { array_string_len out.old + 17 ≤ REPLIES_BYTES }
    ensures { out.new.bytes ≡ out.old.bytes ++ contract_line (Some contract.now) }
{
    out.push_str("CONTRACT ");
    print_bid(contract.bid, out);
    out.push_str(doubling_text(contract.doubling));
    out.push_str(" ");
    out.push(char::from(contract.declarer.letter()));
    out.push_str("\n");
}

/// Answers a line, making its call where it spells a legal one.
fn answer(auction: &mut Auction, line: &[u8]) -> ShortReply
    ensures reply { result ≡ line_reply auction.old.calls line.now }
    ensures calls { auction.new.calls ≡ calls_with auction.old.calls (line_call line.now) }
    ensures dealer { auction.new.dealer ≡ auction.old.dealer }
{
    if line.len() > LINE_BYTES {
        return ShortReply::LongLine;
    }
    match read_call(without_return(line)) {
        None => ShortReply::BadLine,
        Some(call) => match auction.try_call(call) {
            Ok(()) => ShortReply::Done,
            Err(refused) => ShortReply::Illegal(refused),
        },
    }
}
