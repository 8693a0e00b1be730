//! A claim before the lead that is agreed, which no line of the protocol can refuse afterwards.
use super::deals::{CARDS_IN_A_ROW, contract_of};
use crate::tests::{deal_of, expect_eq};
use bridge_auction::Denomination;
use bridge_cards::{Seat, Side};
use bridge_play::{ConsentRefused, Play};

#[test]
fn an_agreed_claim_stands_no_longer(rt: HostRuntime) {
    let contract = contract_of(&rt, 7, Denomination::Spades, Seat::North);
    let mut play = Play::new(&deal_of(&rt, CARDS_IN_A_ROW), contract);
    let early = play.agree(Seat::East, 0);
    expect_eq(&rt, early, Err(ConsentRefused::NoClaim), "no claim");
    let early = play.agree(Seat::East, 1);
    expect_eq(&rt, early, Err(ConsentRefused::Stale), "a claim to come");
    expect_eq(&rt, play.try_claim(Seat::North, 10), Ok(()), "a claim");
    expect_eq(&rt, play.agree(Seat::East, 1), Ok(()), "East agrees");
    expect_eq(&rt, play.agree(Seat::West, 1), Ok(()), "West agrees");
    let tricks = (play.tricks(Side::NorthSouth), play.tricks(Side::EastWest));
    expect_eq(&rt, (tricks, play.is_over()), ((10, 3), true), "tricks");
    let late = play.refuse(Seat::West, 1);
    expect_eq(&rt, late, Err(ConsentRefused::NoClaim), "it was agreed");
}
