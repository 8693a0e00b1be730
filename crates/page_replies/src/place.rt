//! A player's place, and the law that no hidden card is in it.
ghost use Rattle.std.specs.Prelude.{◌≡◌, [], ℕ};
ghost use Rattle.session_rules.specs.Sight.{LookAlikeTo};
ghost use Rattle.session_rules.specs.Stage.{stage_to};
ghost use Rattle.session_rules.specs.State.{SessionValue};
ghost use Rattle.line_replies.specs.ReplyTexts.{listed_text};
ghost use Rattle.page_replies.specs.Place.{next_seating, place_lines, place_to, place_text};

use crate::lines::{
    push_answer_line, push_contract_line, push_names_line, push_player_line, push_round_line,
    push_seat_line,
};
use bridge_config::{Config, Key};
use bridge_session::Session;
use bridge_table::{acting_player, seat_by};
use line_replies::{ReplyText, ShortReply, read_key};
use session_rules::{Player, Refused, Seating};

/// Where the player of the key sits in the next round: `Closed` where there is none.
fn next_seating(config: &Config, round: u8, key: Key) -> Result<Seating, Refused>
    ensures { result ≡ next_seating config.now round key.0 }
{
    if round < config.fields().movement.shape().rounds {
        seat_by(config, round + 1, key)
    } else {
        Err(Refused::Closed)
    }
}

/// Adds the lines of a player's place.
fn push_lines(text: &mut ReplyText, session: &Session, key: Key, player: Player)
    requires { text.old.bytes ≡ [] }
    ensures { text.new.bytes ≡ listed_text (place_lines session.now.configuration session.now.round (stage_to session.now key.0) key.0 player) }
{
    let config = session.config();
    let fields = config.fields();
    let round = session.round();
    text.push_str("OK\n");
    push_round_line(text, fields, round);
    push_player_line(text, fields, player);
    push_seat_line(text, "TABLE", fields.boards, seat_by(config, round, key));
    push_names_line(text, fields, seat_by(config, round, key));
    push_contract_line(text, session.stage(key));
    push_answer_line(text, session.stage(key));
    push_seat_line(
        text,
        "NEXT",
        fields.boards,
        next_seating(config, round, key),
    );
    text.push_str(".\n");
}

/// Adds what the player of the key is told of his place.
fn push_place_of(text: &mut ReplyText, session: &Session, key: Key)
    requires { text.old.bytes ≡ [] }
    ensures { text.new.bytes ≡ place_to session.now key.0 }
{
    match acting_player(session.config(), key) {
        Ok(player) => push_lines(text, session, key, player),
        Err(refused) => ShortReply::Refused(refused).push_to(text),
    }
}

/// Adds what is answered to these bytes, which are to be a player's key: `OK`, the round and how many there are, the pair's
/// number and the player's name, his table, seat and boards, the names at the table, the contract, whether his answer to
/// a claim is due, and where he sits in the next round, each as far as there is one, and a full stop.
///
/// Refused are `BadLine` where the bytes are no key, `NoKey` where it is nobody's, and `NotAllowed` where it is the
/// director's.
pub fn push_place(text: &mut ReplyText, session: &Session, bytes: &[u8])
    requires { text.old.bytes ≡ [] }
    ensures { text.new.bytes ≡ place_text session.now bytes.now }
{
    match read_key(bytes) {
        Some(key) => push_place_of(text, session, key),
        None => ShortReply::BadLine.push_to(text),
    }
}

/// What a player is told of his place depends on no card that is hidden from him: where two sessions look alike to him, he is
/// told the same.
pub fn places_show_no_hidden_card()
    ensures { (key : ℕ) (s t : SessionValue) → LookAlikeTo key s t → place_to s key ≡ place_to t key }
{}
