//! A key has one view of a session, as a law over the definition that `see` answers by.
ghost use Rattle.std.specs.Prelude.{ℕ};
ghost use Rattle.session_rules.specs.declared.view.View.{View as ViewType};
ghost use Rattle.session_rules.specs.State.{SessionValue};
ghost use Rattle.session_rules.specs.Views.{IsViewTo, ShowSame};

/// What a player is shown of a session is determined by the session and the key: two views to one key show the same.
pub fn a_key_has_one_view()
    ensures { (s : SessionValue) (key : ℕ) (one other : ViewType) → IsViewTo s key one → IsViewTo s key other → ShowSame one other }
{}
