//! Who holds a key.
use bridge_config::{Config, Key};

/// Whose a key is.
#[derive(Clone, Copy)]
pub enum Holder {
    Nobody,
    Director,
    Player { pair: u8, first: bool },
}

pub fn holder_of(config: &Config, key: Key) -> Holder {
    let fields = config.fields();
    if fields.director == key {
        return Holder::Director;
    }
    let mut pair = 0u8;
    for players in fields.pairs.as_slice() {
        pair = pair.saturating_add(1);
        for (index, held) in players.keys.iter().enumerate() {
            if *held == key {
                return Holder::Player {
                    pair,
                    first: index == 0,
                };
            }
        }
    }
    Holder::Nobody
}
