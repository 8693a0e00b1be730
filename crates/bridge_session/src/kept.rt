//! A session that a store keeps.

use crate::session::Session;
use arrayvec::ArrayVec;
use session_bytes::ranges_of_action;
use session_rules::{Action, Refused};
use session_store::{DiskFormat, Kept, PAYLOAD_BYTES, PartsFault};
use std::alloc::Global;

impl Kept for Session {
    ghost use Rattle.session_bytes.specs.SessionKeeping.{session_keeping};
    ghost use Rattle.session_bytes.proofs.SessionLawful.{session_is_lawful};

    type Action = Action;

    type Refusal = Refused;

    ghost kept = { session_keeping };

    fn parts(&self) -> u32 {
        Session::parts(self)
    }

    fn write_part(&self, i: u32, part: &mut ArrayVec<u8, PAYLOAD_BYTES>) {
        Session::write_part(self, i, part);
    }

    fn from_parts(
        alloc: Global,
        format: DiskFormat,
        parts: &[ArrayVec<u8, PAYLOAD_BYTES>],
    ) -> Result<Session, PartsFault> {
        Session::from_parts(alloc, format, parts)
    }

    fn write_action(action: &Action, bytes: &mut ArrayVec<u8, PAYLOAD_BYTES>) {
        session_bytes::write_action(action, bytes);
    }

    fn read_action(format: DiskFormat, bytes: &[u8]) -> Option<Action> {
        session_bytes::read_action(format, bytes)
    }

    fn step(&mut self, action: &Action) -> Result<(), Refused> {
        // What the trait says of a step holds within these ranges, which the clauses of both calls state.
        ranges_of_action(action);
        self.is_session();
        Session::step(self, action)
    }

    ghost lawful = { session_is_lawful };
}
