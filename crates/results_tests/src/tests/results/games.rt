//! The boards of the worked session, and how each is played.

/// What the players of those keys call or play in turn.
pub type Turns = &'static [(u32, &'static str)];

/// How a board is played: the calls, the cards before the claim, by which key and of how many tricks it is, and by which keys it
/// is agreed to.
#[derive(Clone, Copy)]
pub struct Game {
    pub board: u8,
    pub calls: Turns,
    pub cards: Turns,
    pub claim: (u32, u8),
    pub opponents: [u32; 2],
}

/// Board 1: 1 makes 4H against 4, after four cards. Board 2: 2 makes 3NT against 5. Board 3: 6 makes 2H doubled against 3.
pub static ROUND_1: [Game; 3] = [
    Game {
        board: 1,
        calls: &[(11, "4H"), (41, "PASS"), (12, "PASS"), (42, "PASS")],
        cards: &[(41, "HA"), (11, "D2"), (42, "C2"), (11, "S2")],
        claim: (11, 10),
        opponents: [41, 42],
    },
    Game {
        board: 2,
        calls: &[
            (51, "PASS"),
            (22, "3NT"),
            (52, "PASS"),
            (21, "PASS"),
            (51, "PASS"),
        ],
        cards: &[],
        claim: (22, 9),
        opponents: [51, 52],
    },
    Game {
        board: 3,
        calls: &[
            (32, "PASS"),
            (62, "2H"),
            (31, "X"),
            (61, "PASS"),
            (32, "PASS"),
            (62, "PASS"),
        ],
        cards: &[],
        claim: (62, 8),
        opponents: [31, 32],
    },
];

/// Board 2: 1 is one down in 3NT against 6. Board 3: 4 is one down in 2H doubled against 2. Board 1: 3 makes an overtrick in 4H
/// against 5.
pub static ROUND_2: [Game; 3] = [
    Game {
        board: 2,
        calls: &[
            (61, "PASS"),
            (12, "3NT"),
            (62, "PASS"),
            (11, "PASS"),
            (61, "PASS"),
        ],
        cards: &[],
        claim: (12, 8),
        opponents: [61, 62],
    },
    Game {
        board: 3,
        calls: &[
            (22, "PASS"),
            (42, "2H"),
            (21, "X"),
            (41, "PASS"),
            (22, "PASS"),
            (42, "PASS"),
        ],
        cards: &[],
        claim: (42, 7),
        opponents: [21, 22],
    },
    Game {
        board: 1,
        calls: &[(31, "4H"), (51, "PASS"), (32, "PASS"), (52, "PASS")],
        cards: &[],
        claim: (31, 11),
        opponents: [51, 52],
    },
];

/// Board 3: 1 makes 2S against 5. Board 1: 6 is two down in 4S doubled against 2. Board 2: 4 makes 1NT against 3.
pub static ROUND_3: [Game; 3] = [
    Game {
        board: 3,
        calls: &[
            (12, "PASS"),
            (52, "PASS"),
            (11, "2S"),
            (51, "PASS"),
            (12, "PASS"),
            (52, "PASS"),
        ],
        cards: &[],
        claim: (11, 8),
        opponents: [51, 52],
    },
    Game {
        board: 1,
        calls: &[
            (21, "PASS"),
            (61, "4S"),
            (22, "X"),
            (62, "PASS"),
            (21, "PASS"),
            (61, "PASS"),
        ],
        cards: &[],
        claim: (61, 8),
        opponents: [21, 22],
    },
    Game {
        board: 2,
        calls: &[(41, "1NT"), (32, "PASS"), (42, "PASS"), (31, "PASS")],
        cards: &[],
        claim: (41, 7),
        opponents: [32, 31],
    },
];
