//! The parts of the configuration, the movement, the pairs and the boards.
ghost use Rattle.std.specs.Prelude.{◌≡◌, ◌≤◌, [], length};
ghost use Rattle.bridge_config.specs.ConfigValue.{pair_of};
ghost use Rattle.session_bytes.specs.Parts.{scoring_number, configuration_part, movement_part, pair_part, deal_part};

use crate::part_bytes::{put, put_text};
use arrayvec::ArrayVec;
use bridge_cards::{Deal, Scoring, Seat};
use bridge_config::{Config, PairFields};
use bridge_movement::Row;
use session_store::PAYLOAD_BYTES;

fn scoring_number(scoring: Scoring) -> u8
    ensures { result ≡ scoring_number scoring }
{
    match scoring {
        Scoring::MatchPoints => 0,
        Scoring::Imps => 1,
    }
}

/// Writes the configuration and the current round into an empty list.
pub fn write_configuration(config: &Config, round: u8, part: &mut ArrayVec<u8, PAYLOAD_BYTES>)
    requires { part.old.items ≡ [] }
    ensures { part.new.items ≡ configuration_part config.now round }
{
    let fields = config.fields();
    let shape = fields.movement.shape();
    put_text(part, fields.event.as_str().as_bytes());
    put_text(part, fields.site.as_str().as_bytes());
    put(part, fields.date.as_str().as_bytes());
    put(part, &[scoring_number(fields.scoring)]);
    put(
        part,
        &[
            fields.boards,
            shape.tables,
            shape.rounds,
            shape.sets,
            shape.pairs,
            shape.split,
        ],
    );
    put(part, &fields.director.0.to_be_bytes());
    put(part, &[round]);
}

/// Writes the rows of the movement into an empty list.
pub fn write_movement(rows: &[Row], part: &mut ArrayVec<u8, PAYLOAD_BYTES>)
    requires empty { part.old.items ≡ [] }
    requires few { length rows.now ≤ 144 }
    ensures { part.new.items ≡ movement_part rows.now }
{
    for row in rows {
        put(part, &[row.ns, row.ew, row.set]);
    }
}

/// Writes a pair into an empty list.
pub fn write_pair(pair: &PairFields, part: &mut ArrayVec<u8, PAYLOAD_BYTES>)
    requires { part.old.items ≡ [] }
    ensures { part.new.items ≡ pair_part (pair_of pair.now) }
{
    put_text(part, pair.names[0].as_str().as_bytes());
    put(part, &pair.keys[0].0.to_be_bytes());
    put_text(part, pair.names[1].as_str().as_bytes());
    put(part, &pair.keys[1].0.to_be_bytes());
}

/// Writes a board into an empty list: 0, or 1 and the four hands of its deal.
pub fn write_deal(deal: &Option<Deal>, part: &mut ArrayVec<u8, PAYLOAD_BYTES>)
    requires { part.old.items ≡ [] }
    ensures { part.new.items ≡ deal_part deal.now }
{
    let Some(deal) = deal else {
        put(part, &[0]);
        return;
    };
    put(part, &[1]);
    put(part, &deal.hand(Seat::North).bits().to_be_bytes());
    put(part, &deal.hand(Seat::East).bits().to_be_bytes());
    put(part, &deal.hand(Seat::South).bits().to_be_bytes());
    put(part, &deal.hand(Seat::West).bits().to_be_bytes());
}
