//! What a store may rely on, as laws over the definitions of parts, actions and steps.
ghost use Rattle.session_store.specs.Keeping.{IsLawful};
ghost use Rattle.bridge_config.specs.ConfigValue.{ConfigValue};
ghost use Rattle.bridge_config.specs.Limits.{IsConfiguration};
ghost use Rattle.session_bytes.specs.SessionKeeping.{session_keeping};
ghost use Rattle.session_rules.specs.State.{opening};
ghost use Rattle.session_rules.specs.StateRange.{IsSession};

/// The opening of a configuration is a session. The parts of a session give an equal session, and other parts give none;
/// an action is read back from its bytes, and other bytes are none; all of them fit into sectors; and an accepted action
/// makes a session of a session.
pub fn sessions_can_be_stored()
    ensures opening { (configuration : ConfigValue) → IsConfiguration configuration → IsSession (opening configuration) }
    ensures lawful { IsLawful session_keeping }
{}
