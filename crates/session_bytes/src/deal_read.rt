//! The deal of a board, read from its part.
ghost use Rattle.std.specs.Prelude.{◌≡◌, ◌≢◌, ℕ, List, Option, IfSome, IfNone};
ghost use Rattle.session_bytes.specs.Parts.{deal_part};
ghost use Rattle.session_rules.specs.StateRange.{AreHandsOrNone};
ghost use Rattle.session_rules.specs.Valid.{IsDealOrNone};
ghost use Rattle.session_bytes.specs.Reading.{dealt_at, deal_at};

use crate::action_read::read_hands;
use bridge_cards::Deal;

/// The deal that the part was written of, if the board is dealt; `None` where it is the part of no board.
pub fn read_deal_part(part: &[u8]) -> Option<Option<Deal>>
    ensures written { IfSome result (λ deal. deal_part deal ≡ part.now) }
    ensures deal { IfSome result IsDealOrNone }
    ensures hands { IfSome result AreHandsOrNone }
    ensures other { IfNone result ((deal : Option (List ℕ)) → IsDealOrNone deal → AreHandsOrNone deal → deal_part deal ≢ part.now) }
{
    deal_at(part)
}

/// The same, from left to right.
fn deal_at(part: &[u8]) -> Option<Option<Deal>>
    ensures { result ≡ deal_at part.now }
{
    match part {
        [0] => Some(None),
        [1, hands @ ..] => dealt_at(hands),
        _ => None,
    }
}

/// The deal of four hands, if they are one.
fn dealt_at(hands: &[u8]) -> Option<Option<Deal>>
    ensures { result ≡ dealt_at hands.now }
{
    let deal = Deal::from_hands(read_hands(hands)?).ok()?;
    Some(Some(deal))
}
