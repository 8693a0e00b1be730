//! The scoring table (Law 77).
ghost use Rattle.std.specs.Prelude.{◌≡◌, ◌≤◌};
ghost use Rattle.bridge_score.specs.ScoringTable.{trick_value, first_trick_value, times_for, contract_points, tricks_bid};
ghost use Rattle.bridge_score.specs.ScoringTable.{game_premium, slam_premium, doubled_premium, overtrick_value};
ghost use Rattle.bridge_score.specs.ScoringTable.{undertrick_value, undertrick_points, points_made, score_of, IsScore};

use bridge_auction::{Contract, Denomination, Doubling};

/// The points of each odd trick after the first, undoubled.
fn trick_value(denomination: Denomination) -> u16
    ensures value { result ≡ trick_value denomination }
    ensures most { result ≤ 30 }
{
    match denomination {
        Denomination::Clubs | Denomination::Diamonds => 20,
        Denomination::Hearts | Denomination::Spades | Denomination::NoTrump => 30,
    }
}

/// The points of the first odd trick, undoubled.
fn first_trick_value(denomination: Denomination) -> u16
    ensures value { result ≡ first_trick_value denomination }
    ensures most { result ≤ 40 }
{
    match denomination {
        Denomination::Clubs | Denomination::Diamonds => 20,
        Denomination::Hearts | Denomination::Spades => 30,
        Denomination::NoTrump => 40,
    }
}

/// What a double or a redouble multiplies the trick score by.
fn times_for(doubling: Doubling) -> u16
    ensures value { result ≡ times_for doubling }
    ensures most { result ≤ 4 }
{
    match doubling {
        Doubling::Undoubled => 1,
        Doubling::Doubled => 2,
        Doubling::Redoubled => 4,
    }
}

/// The points of the odd tricks bid and made.
fn contract_points(contract: &Contract) -> u16
    ensures value { result ≡ contract_points contract.now }
    ensures most { result ≤ 880 }
{
    let denomination = contract.bid.denomination;
    let later_tricks = u16::from(contract.bid.level.number() - 1);
    times_for(contract.doubling)
        * (first_trick_value(denomination) + later_tricks * trick_value(denomination))
}

/// The premium for game, which is a trick score of 100 or more, or for a part-score.
fn game_premium(contract: &Contract, vulnerable: bool) -> u16
    ensures value { result ≡ game_premium contract.now vulnerable }
    ensures most { result ≤ 500 }
{
    if contract_points(contract) < 100 {
        50
    } else if vulnerable {
        500
    } else {
        300
    }
}

/// The premium for a slam bid and made.
fn slam_premium(level: u8, vulnerable: bool) -> u16
    ensures value { result ≡ slam_premium level vulnerable }
    ensures most { result ≤ 1500 }
{
    match (level, vulnerable) {
        (6, false) => 500,
        (6, true) => 750,
        (7, false) => 1000,
        (7, true) => 1500,
        _ => 0,
    }
}

/// The premium for making a doubled or redoubled contract.
fn doubled_premium(doubling: Doubling) -> u16
    ensures value { result ≡ doubled_premium doubling }
    ensures most { result ≤ 100 }
{
    match doubling {
        Doubling::Undoubled => 0,
        Doubling::Doubled => 50,
        Doubling::Redoubled => 100,
    }
}

/// The points of each overtrick.
fn overtrick_value(contract: &Contract, vulnerable: bool) -> u16
    ensures value { result ≡ overtrick_value contract.now contract.now.doubling vulnerable }
    ensures most { result ≤ 400 }
{
    match (contract.doubling, vulnerable) {
        (Doubling::Undoubled, _) => trick_value(contract.bid.denomination),
        (Doubling::Doubled, false) => 100,
        (Doubling::Doubled, true) | (Doubling::Redoubled, false) => 200,
        (Doubling::Redoubled, true) => 400,
    }
}

/// The points that the opponents get for an undertrick that comes after so many others.
fn undertrick_value(doubling: Doubling, vulnerable: bool, before: u8) -> u16
    ensures value { result ≡ undertrick_value doubling vulnerable before }
    ensures most { result ≤ 600 }
{
    let doubled = match (before, vulnerable) {
        (0, false) => 100,
        (0, true) | (1 | 2, false) => 200,
        _ => 300,
    };
    match doubling {
        Doubling::Undoubled if vulnerable => 100,
        Doubling::Undoubled => 50,
        Doubling::Doubled => doubled,
        Doubling::Redoubled => 2 * doubled,
    }
}

/// The points that the opponents get for so many undertricks.
fn undertrick_points(doubling: Doubling, vulnerable: bool, undertricks: u8) -> u16
    requires { undertricks ≤ 13 }
    ensures value { result ≡ undertrick_points doubling vulnerable undertricks }
    ensures most { result ≤ 7600 }
{
    let mut points = 0;
    for before in 0..undertricks {
        points += undertrick_value(doubling, vulnerable, before);
    }
    points
}

/// The points for a contract made with so many overtricks.
fn points_made(contract: &Contract, vulnerable: bool, overtricks: u8) -> u16
    requires { overtricks ≤ 6 }
    ensures value { result ≡ points_made contract.now vulnerable overtricks }
    ensures most { result ≤ 7600 }
{
    contract_points(contract)
        + u16::from(overtricks) * overtrick_value(contract, vulnerable)
        + game_premium(contract, vulnerable)
        + slam_premium(contract.bid.level.number(), vulnerable)
        + doubled_premium(contract.doubling)
}

/// What declarer's side scores for the contract with so many tricks, 0 to 13, in points: what it makes, or less than 0
/// where it goes down (Law 77). The other side scores the negative.
pub fn score(contract: &Contract, vulnerable: bool, tricks: u8) -> i32
    requires { tricks ≤ 13 }
    ensures score { result ≡ score_of contract.now vulnerable tricks }
    ensures range { IsScore result }
{
    let tricks_bid = contract.bid.level.number() + 6;
    if tricks_bid <= tricks {
        i32::from(points_made(contract, vulnerable, tricks - tricks_bid))
    } else {
        -i32::from(undertrick_points(contract.doubling, vulnerable, tricks_bid - tricks))
    }
}
