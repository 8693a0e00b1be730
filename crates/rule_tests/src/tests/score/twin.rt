//! A plain twin of the scoring table, line by line as Law 77 and score cards print it.
use bridge_auction::{Contract, Denomination, Doubling};

/// The trick score of a contract made undoubled, by its odd tricks.
fn undoubled(contract: &Contract) -> i32 {
    let scores = match contract.bid.denomination {
        Denomination::Clubs | Denomination::Diamonds => [20, 40, 60, 80, 100, 120, 140],
        Denomination::Hearts | Denomination::Spades => [30, 60, 90, 120, 150, 180, 210],
        Denomination::NoTrump => [40, 70, 100, 130, 160, 190, 220],
    };
    let odd_tricks = usize::from(contract.bid.level.number());
    scores.get(odd_tricks - 1).copied().unwrap_or(0)
}

/// The premiums for a contract made with that trick score, but for overtricks.
fn premiums(contract: &Contract, trick_score: i32, vulnerable: bool) -> i32 {
    let game = match (trick_score, vulnerable) {
        (100.., false) => 300,
        (100.., true) => 500,
        _ => 50,
    };
    let slam = match (contract.bid.level.number(), vulnerable) {
        (6, false) => 500,
        (6, true) => 750,
        (7, false) => 1000,
        (7, true) => 1500,
        _ => 0,
    };
    game + slam
}

/// The score of an overtrick.
fn overtrick(contract: &Contract, vulnerable: bool) -> i32 {
    match (contract.doubling, vulnerable, contract.bid.denomination) {
        (Doubling::Undoubled, _, Denomination::Clubs | Denomination::Diamonds) => 20,
        (Doubling::Undoubled, _, _) => 30,
        (Doubling::Doubled, false, _) => 100,
        (Doubling::Doubled, true, _) | (Doubling::Redoubled, false, _) => 200,
        (Doubling::Redoubled, true, _) => 400,
    }
}

/// What the other side scores for 1 to 13 undertricks, doubled.
fn down_doubled(undertricks: u8, vulnerable: bool) -> i32 {
    let penalties = if vulnerable {
        [
            200, 500, 800, 1100, 1400, 1700, 2000, 2300, 2600, 2900, 3200, 3500, 3800,
        ]
    } else {
        [
            100, 300, 500, 800, 1100, 1400, 1700, 2000, 2300, 2600, 2900, 3200, 3500,
        ]
    };
    let index = usize::from(undertricks).saturating_sub(1);
    penalties.get(index).copied().unwrap_or(0)
}

/// What the other side scores for 1 to 13 undertricks.
fn penalty(undertricks: u8, doubling: Doubling, vulnerable: bool) -> i32 {
    match (doubling, vulnerable) {
        (Doubling::Undoubled, false) => i32::from(undertricks) * 50,
        (Doubling::Undoubled, true) => i32::from(undertricks) * 100,
        (Doubling::Doubled, _) => down_doubled(undertricks, vulnerable),
        (Doubling::Redoubled, _) => down_doubled(undertricks, vulnerable).saturating_mul(2),
    }
}

/// The score of a contract with so many tricks.
pub fn score(contract: &Contract, vulnerable: bool, tricks: u8) -> i32 {
    let due = contract.bid.level.number().saturating_add(6);
    if tricks < due {
        return penalty(due - tricks, contract.doubling, vulnerable).saturating_neg();
    }
    let (times, made_doubled) = match contract.doubling {
        Doubling::Undoubled => (1, 0),
        Doubling::Doubled => (2, 50),
        Doubling::Redoubled => (4, 100),
    };
    let trick_score = undoubled(contract).saturating_mul(times);
    let overtricks = i32::from(tricks - due).saturating_mul(overtrick(contract, vulnerable));
    premiums(contract, trick_score, vulnerable)
        .saturating_add(trick_score)
        .saturating_add(made_doubled)
        .saturating_add(overtricks)
}
