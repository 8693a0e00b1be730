//! What the desk takes, and from whom.
ghost use Rattle.std.specs.Prelude.{Ok, Some, None};
ghost use Rattle.session_rules.specs.Numbers.{IsTableNumber};
ghost use Rattle.session_rules.specs.State.{acting_player, director_answer, seating_of};
ghost use Rattle.desk_replies.specs.Claims.{standing, claim_to, is_asked};
ghost use Rattle.desk_replies.specs.Desk.{without_notice, with_clock, set_call};
ghost use Rattle.desk_replies.specs.Taken.{Takes, look_taken, notice_taken, call_by, state_with, state_by, refusal_with, refusal_by, by_director, taken};

use crate::asked::{Asked, Order};
use crate::claims::{SeenClaim, claim_to, is_asked};
use crate::desk::{Desk, RoundClock, TableCall};
use crate::plain_text::PlainText;
use crate::refused::DeskRefused;
use crate::said::{ClaimRefusal, Statement};
use bridge_config::Key;
use bridge_session::Session;
use bridge_table::{acting_player, check_director, seat_by};
use session_rules::Refused;

impl Desk {
    /// Lets everybody look who has a key.
    fn look(&mut self, session: &Session, key: Key) -> Result<(), DeskRefused>
        ensures { Takes (look_taken session.now self.old key.0) self.old result self.new }
    {
        if key == session.config().fields().director {
            return Ok(());
        }
        match acting_player(session.config(), key) {
            Ok(_) => Ok(()),
            Err(refused) => Err(DeskRefused::Session(refused)),
        }
    }

    /// Takes the director's notice, if none was put up in this second.
    fn take_notice(
        &mut self,
        session: &Session,
        at: u32,
        key: Key,
        text: PlainText,
    ) -> Result<(), DeskRefused>
        ensures { Takes (by_director (director_answer session.now.configuration key.0) (notice_taken self.old at text)) self.old result self.new }
    {
        check_director(session.config(), key)?;
        if self.is_soon(at) {
            return Err(DeskRefused::TooSoon);
        }
        self.put_notice(at, text);
        Ok(())
    }

    /// Takes the notice down for the director.
    fn take_no_notice(&mut self, session: &Session, key: Key) -> Result<(), DeskRefused>
        ensures { Takes (by_director (director_answer session.now.configuration key.0) (Ok (without_notice self.old))) self.old result self.new }
    {
        check_director(session.config(), key)?;
        self.drop_notice();
        Ok(())
    }

    /// Sets the clock for the director, or takes it down.
    fn take_clock(
        &mut self,
        session: &Session,
        key: Key,
        clock: Option<RoundClock>,
    ) -> Result<(), DeskRefused>
        ensures { Takes (by_director (director_answer session.now.configuration key.0) (Ok (with_clock self.old clock))) self.old result self.new }
    {
        check_director(session.config(), key)?;
        self.set_clock(clock);
        Ok(())
    }

    /// Takes the call of a table down for the director.
    fn take_answered(&mut self, session: &Session, key: Key, table: u8) -> Result<(), DeskRefused>
        ensures { Takes (by_director (director_answer session.now.configuration key.0) (Ok (set_call self.old table None))) self.old result self.new }
    {
        check_director(session.config(), key)?;
        self.drop_call(table);
        Ok(())
    }

    /// Takes a player's call from where he sits, unless there is one of his table already.
    fn take_call(
        &mut self,
        session: &Session,
        at: u32,
        key: Key,
        text: PlainText,
    ) -> Result<(), DeskRefused>
        ensures { Takes (call_by self.old at text (acting_player session.now.configuration key.0) (seating_of session.now.configuration session.now.round key.0)) self.old result self.new }
    {
        let player = acting_player(session.config(), key)?;
        let seating = seat_by(session.config(), session.round(), key)?;
        self.put_call(TableCall {
            table: seating.table,
            player,
            since: at,
            text,
        });
        Ok(())
    }

    /// Takes what is said with the claim that is seen, if it is the viewer's own.
    fn take_said(&mut self, seen: SeenClaim, text: PlainText) -> Result<(), DeskRefused>
        requires { IsTableNumber seen.table }
        ensures { Takes (state_with self.old seen.table seen.seat text (standing seen)) self.old result self.new }
    {
        match seen.standing() {
            Some(claim) if claim.claimer == seen.seat => {
                self.put_statement(seen.table, Statement { claim, text });
                Ok(())
            }
            _ => Err(DeskRefused::Session(Refused::NoClaim)),
        }
    }

    /// Takes what a player says with his claim, which stands.
    fn take_statement(
        &mut self,
        session: &Session,
        key: Key,
        text: PlainText,
    ) -> Result<(), DeskRefused>
        ensures { Takes (state_by self.old text (claim_to session.now key.0)) self.old result self.new }
    {
        let seen = claim_to(session, key)?;
        self.take_said(seen, text)
    }

    /// Takes a refusal of the claim that is seen, if one stands and the viewer is asked.
    fn take_refused(&mut self, seen: SeenClaim, asked: bool) -> Result<(), DeskRefused>
        requires { IsTableNumber seen.table }
        ensures { Takes (refusal_with self.old seen.table seen.seat asked (standing seen)) self.old result self.new }
    {
        match seen.standing() {
            Some(claim) if asked => {
                let seat = seen.seat;
                self.put_refusal(seen.table, ClaimRefusal { claim, seat });
                Ok(())
            }
            Some(_) => Err(DeskRefused::Session(Refused::NotAsked)),
            None => Err(DeskRefused::Session(Refused::NoClaim)),
        }
    }

    /// Takes it from a player that he refuses the claim which he is asked for.
    fn take_refusal(&mut self, session: &Session, key: Key) -> Result<(), DeskRefused>
        ensures { Takes (refusal_by self.old (claim_to session.now key.0) (is_asked session.now key.0)) self.old result self.new }
    {
        let seen = claim_to(session, key)?;
        let asked = is_asked(session, key)?;
        self.take_refused(seen, asked)
    }

    /// Takes what is asked for at a second, or refuses it and stands as before. Refused are `NoKey` where the key is nobody's,
    /// `NotAllowed` where a player asks what the director may, or he what a player may, `TooSoon` where a notice was put up in
    /// the same second, `Closed` and `SitsOut` where a caller sits at no table, `NoClaim` where no claim stands, or none of the
    /// player's own with which he could say something, and `NotAsked` where it is not his to refuse it.
    pub fn take(&mut self, session: &Session, at: u32, asked: Asked) -> Result<(), DeskRefused>
        ensures { Takes (taken session.now self.old at asked) self.old result self.new }
    {
        let key = asked.key;
        match asked.order {
            Order::Look => self.look(session, key),
            Order::Notice(text) => self.take_notice(session, at, key, text),
            Order::NoNotice => self.take_no_notice(session, key),
            Order::Clock(minutes) => {
                self.take_clock(session, key, Some(RoundClock { begun: at, minutes }))
            }
            Order::NoClock => self.take_clock(session, key, None),
            Order::Answered(table) => self.take_answered(session, key, table),
            Order::Call(text) => self.take_call(session, at, key, text),
            Order::State(text) => self.take_statement(session, key, text),
            Order::Refuse => self.take_refusal(session, key),
        }
    }
}
