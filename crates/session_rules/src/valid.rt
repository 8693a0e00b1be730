//! Every session is valid, as laws over the definitions that `new` and `step` answer by.
ghost use Rattle.std.specs.Prelude.{◌≡◌, Ok};
ghost use Rattle.bridge_config.specs.ConfigValue.{ConfigValue};
ghost use Rattle.bridge_config.specs.Limits.{IsConfiguration};
ghost use Rattle.session_rules.specs.declared.action.Action.{Action as ActionType};
ghost use Rattle.session_rules.specs.State.{SessionValue, opening};
ghost use Rattle.session_rules.specs.Step.{step_answer, changed};
ghost use Rattle.session_rules.specs.Valid.{IsAction, IsValid};

/// The opening session of a configuration is valid, and each accepted action leaves a valid session valid: its calls and
/// cards are legal lists on dealt boards, its claims and rulings stand by the rules, nothing has happened in a later round,
/// and no play of an earlier one is open.
pub fn sessions_are_valid()
    ensures opening { (configuration : ConfigValue) → IsConfiguration configuration → IsValid (opening configuration) }
    ensures steps { (action : ActionType) (s : SessionValue) → IsAction action → IsValid s → step_answer s action ≡ Ok tt →
        IsValid (changed s action) }
{}
