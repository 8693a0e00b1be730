//! Tables apart, as laws over the definitions that `step` and `see` answer by.
ghost use Rattle.std.specs.Prelude.{◌≡◌, ℕ, Some, List};
ghost use Rattle.session_rules.specs.declared.action.Action.{Action as ActionType};
ghost use Rattle.session_rules.specs.declared.view.View.{View as ViewType};
ghost use Rattle.bridge_config.specs.ConfigValue.{ConfigValue};
ghost use Rattle.session_rules.specs.declared.action.PlayId.{PlayId as PlayIdType};
ghost use Rattle.session_rules.specs.State.{SessionValue};
ghost use Rattle.session_rules.specs.Step.{step_answer};
ghost use Rattle.session_rules.specs.Apart.{player_key, AgreeAtTable};
ghost use Rattle.session_rules.specs.See.{shown_to};
ghost use Rattle.session_rules.specs.Sight.{LookAlikeTo};
ghost use Rattle.session_rules.specs.Views.{IsViewTo};
ghost use Rattle.session_rules.specs.Stage.{stage_to};
ghost use Rattle.session_rules.specs.Own.{IsOfOwnActions};

/// The answer to a player depends on the configuration, the round, the deals of the boards of the table's set and the
/// records of that table in that round, and on nothing else: two sessions that agree there give the same answer.
pub fn tables_are_judged_apart()
    ensures { (action : ActionType) (key : ℕ) (s t : SessionValue) → player_key action ≡ Some key → AgreeAtTable key s t →
        step_answer s action ≡ step_answer t action }
{}

/// What a player is shown depends on the configuration, the round, and of the current play of the table on the calls, how
/// many cards and claims were made, the claim, the current and the last trick, the tricks of both sides, the player's own
/// cards, and dummy's once a card was played. Two sessions that look alike there show the same or refuse alike, so no card
/// that is hidden can matter; so is it with the contract and whether an answer to a claim is due.
pub fn hidden_cards_are_not_shown()
    ensures shown { (key : ℕ) (s t : SessionValue) → LookAlikeTo key s t → shown_to s key ≡ shown_to t key }
    ensures views { (key : ℕ) (s t : SessionValue) (view : ViewType) → LookAlikeTo key s t → IsViewTo s key view → IsViewTo t key view }
    ensures stages { (key : ℕ) (s t : SessionValue) → LookAlikeTo key s t → stage_to s key ≡ stage_to t key }
{}

/// The record of a play depends on its own actions alone, whatever other tables do in between: after any accepted actions it
/// is the plain record of the actions of the players at its table in its round on its board, and of the rulings on it.
pub fn records_are_of_own_actions()
    ensures { (configuration : ConfigValue) (actions : List ActionType) (play : PlayIdType) (board : ℕ) → IsOfOwnActions configuration actions play board }
{}
