//! How calls and contracts are spelled.
ghost use Rattle.std.specs.Prelude.{◌≡◌, ◌≢◌, ◌+◌, ◌≤◌, ◌++◌, length, IfSome, IfNone};
ghost use Rattle.arrayvec.specs.ArrayString.{array_string_len};
ghost use Rattle.bridge_auction.specs.declared.call.Call.{Call};
ghost use Rattle.bridge_auction.specs.Call.{IsCall};
ghost use Rattle.bridge_auction.specs.Spelling.{denomination_text, doubling_text, bid_text, call_text, denomination_of, bid_of, call_of};

use crate::bid::{Bid, Denomination};
use crate::call::Call;
use crate::contract::Doubling;
use crate::level::Level;
use arrayvec::ArrayString;

/// Reads a call: `PASS`, `X`, `XX`, or a bid from `1C` to `7NT`.
pub fn read_call(text: &[u8]) -> Option<Call>
    ensures value { result ≡ call_of text.now }
    ensures spelled { IfSome result (λ call. call_text call ≡ text.now) }
    ensures other { IfNone result ((call : Call) → IsCall call → call_text call ≢ text.now) }
{
    if text == b"PASS".as_slice() {
        Some(Call::Pass)
    } else if text == b"X".as_slice() {
        Some(Call::Double)
    } else if text == b"XX".as_slice() {
        Some(Call::Redouble)
    } else {
        Some(Call::Bid(read_bid(text)?))
    }
}

fn read_bid(text: &[u8]) -> Option<Bid>
    ensures { result ≡ bid_of text.now }
{
    match text {
        [digit @ b'1'..=b'7', letters @ ..] => {
            let level = Level::new(*digit - b'0')?;
            let denomination = read_denomination(letters)?;
            Some(Bid {
                level,
                denomination,
            })
        }
        _ => None,
    }
}

fn read_denomination(text: &[u8]) -> Option<Denomination>
    ensures { result ≡ denomination_of text.now }
{
    if text == b"C".as_slice() {
        Some(Denomination::Clubs)
    } else if text == b"D".as_slice() {
        Some(Denomination::Diamonds)
    } else if text == b"H".as_slice() {
        Some(Denomination::Hearts)
    } else if text == b"S".as_slice() {
        Some(Denomination::Spades)
    } else if text == b"NT".as_slice() {
        Some(Denomination::NoTrump)
    } else {
        None
    }
}

/// The denomination's letters: `C`, `D`, `H`, `S` or `NT`.
pub fn denomination_text(denomination: Denomination) -> &'static str
    ensures text { result.now ≡ denomination_text denomination }
    ensures short { length result.now ≤ 2 }
{
    match denomination {
        Denomination::Clubs => "C",
        Denomination::Diamonds => "D",
        Denomination::Hearts => "H",
        Denomination::Spades => "S",
        Denomination::NoTrump => "NT",
    }
}

/// Writes a bid at the text's end, as `1NT`. It takes three bytes at most.
pub fn print_bid<const N: usize>(bid: Bid, text: &mut ArrayString<N>)
    requires { array_string_len text.old + 3 ≤ N }
    ensures text { text.new.bytes ≡ text.old.bytes ++ bid_text bid }
    ensures room { array_string_len text.new ≤ array_string_len text.old + 3 }
{
    text.push(char::from(b'0' + bid.level.number()));
    text.push_str(denomination_text(bid.denomination));
}

/// Nothing, `X` or `XX`.
pub fn doubling_text(doubling: Doubling) -> &'static str
    ensures text { result.now ≡ doubling_text doubling }
    ensures short { length result.now ≤ 2 }
{
    match doubling {
        Doubling::Undoubled => "",
        Doubling::Doubled => "X",
        Doubling::Redoubled => "XX",
    }
}
