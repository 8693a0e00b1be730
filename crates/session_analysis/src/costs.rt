//! What the cards of the plays of a session cost.
ghost use Rattle.std.specs.Prelude.{◌≡◌, ◌≤◌, ◌++◌, length, map, IfOk, OnOk};
ghost use Rattle.std.specs.Option.{option_copied, option_map, option_to_list};
ghost use Rattle.session_rules.specs.State.{deal_on};
ghost use Rattle.session_analysis.specs.Analysed.{cards_cost, play_cost, played_by, cost_by, cost_on, seen_costs, AreCostsOf};

use arrayvec::ArrayVec;
use bridge_cards::{BoardNumber, DECK, Deal};
use bridge_endings::{CardCost, DealSolver};
use bridge_play::Play;
use bridge_results::{PlayCosts, Results, TablePlay, shown_id};
use bridge_session::Session;
use makeable_deals::{Part, Progress};
use session_rules::PlayId;
use std::alloc::{AllocError, Global};

/// The tricks that each card of a play gave away.
type Tricks = ArrayVec<u8, DECK>;

/// The tricks that these cards gave away.
fn tricks_of(costs: &[CardCost]) -> Tricks
    requires { length costs.now ≤ 52 }
    ensures { result.items ≡ map (λ cost. cost.tricks) costs.now }
{
    let mut tricks = Tricks::new();
    for cost in costs {
        tricks.push(cost.tricks);
    }
    tricks
}

/// The tricks that each card of a play of a deal gave away.
fn cards_cost(alloc: Global, deal: &Deal, play: &Play) -> Result<Option<Tricks>, AllocError>
    ensures { IfOk result (λ found. option_map (λ tricks. tricks.items) found ≡ cards_cost deal.now play.now) }
{
    let contract = play.contract();
    let trump = contract.bid.denomination.suit();
    let mut solver = DealSolver::new(alloc, deal)?;
    match solver.costs(trump, contract.declarer, play.cards()) {
        Some(costs) => Ok(Some(tricks_of(costs.as_slice()))),
        None => Ok(None),
    }
}

/// The same, once there is a deal and a contract.
fn play_cost(
    alloc: Global,
    deal: Option<&Deal>,
    play: Option<&Play>,
) -> Result<Option<Tricks>, AllocError>
    ensures { IfOk result (λ found. option_map (λ tricks. tricks.items) found ≡ play_cost (option_copied deal.entry) (option_copied play.entry)) }
{
    match (deal, play) {
        (Some(deal), Some(play)) => cards_cost(alloc, deal, play),
        _ => Ok(None),
    }
}

/// The same of a play of a session and its board.
fn cost_of(
    alloc: Global,
    session: &Session,
    board: BoardNumber,
    id: PlayId,
) -> Result<Option<Tricks>, AllocError>
    ensures { IfOk result (λ found. option_map (λ tricks. tricks.items) found ≡ play_cost (deal_on session.now.deals board) (played_by session.now id)) }
{
    match session.entry(id) {
        Some(known) => play_cost(alloc, session.deal(board), known.play),
        None => play_cost(alloc, session.deal(board), None),
    }
}

/// The same with the line of the results.
fn cost_by(
    alloc: Global,
    session: &Session,
    play: &TablePlay,
    id: PlayId,
) -> Result<Option<PlayCosts>, AllocError>
    ensures { IfOk result (λ found. option_map seen_costs found ≡ cost_by session.now play.now id) }
{
    match cost_of(alloc, session, play.board, id)? {
        Some(cards) => Ok(Some(PlayCosts {
            round: play.row.round,
            table: play.row.table,
            board: play.board,
            cards,
        })),
        None => Ok(None),
    }
}

/// The same of a line of the results.
fn cost_on(
    alloc: Global,
    session: &Session,
    play: &TablePlay,
) -> Result<Option<PlayCosts>, AllocError>
    ensures { IfOk result (λ found. option_map seen_costs found ≡ cost_on session.now play.now) }
{
    match shown_id(session.config(), play) {
        Some(id) => cost_by(alloc, session, play, id),
        None => Ok(None),
    }
}

/// Adds what the cards of a play cost, if it is known.
fn add_costs(found: &mut Vec<PlayCosts>, costs: Option<PlayCosts>) -> Result<(), AllocError>
    ensures { OnOk result (map seen_costs found.new.items ≡ map seen_costs found.old.items ++ option_to_list (option_map seen_costs costs)) }
{
    if let Some(known) = costs {
        found.push(known)?;
    }
    Ok(())
}

/// What the cards of each play of a session cost that is finished, void or adjusted, and has a contract.
pub fn costs_of(
    alloc: Global,
    session: &Session,
    progress: &mut Progress,
) -> Result<Vec<PlayCosts>, AllocError>
    ensures { IfOk result (λ found. AreCostsOf session.now found.items) }
{
    let results = Results::new(session);
    let plays = results.plays();
    progress.begin(Part::Play, plays.len());
    let mut found = Vec::new(alloc);
    for play in plays {
        progress.next();
        add_costs(&mut found, cost_on(alloc, session, play)?)?;
    }
    Ok(found)
}
