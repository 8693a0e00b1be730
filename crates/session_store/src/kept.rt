//! What a state must be for a store to keep it.
ghost use Rattle.std.specs.Prelude.{◌≡◌, ◌<◌, [], length, map, slice_index_or, None, Some, Ok, Err, IfOk, IsErrOf, OnErr, MatchResult};
ghost use Rattle.session_store.specs.Keeping.{Keeping, IsLawful};

use crate::{DiskFormat, PartsFault};
use arrayvec::ArrayVec;
use std::alloc::Global;

/// Bytes of a part or of an action, at most.
pub const PAYLOAD_BYTES: usize = 480;

/// A state that a store can keep: written as parts, read from them, and changed by actions. What is written is of the second
/// format; what is read may be of either.
pub trait Kept: Sized + Drop {
    /// What changes a state.
    type Action: Copy + Default;
    /// Why an action is refused.
    type Refusal: Drop;

    /// What states and actions mean.
    ghost kept: { Keeping Self Self.Action Self.Refusal };

    /// The number of the state's parts, from 1 to 494.
    fn parts(&self) -> u32
        ensures count { result ≡ length (kept.parts self.now) }
        ensures state { kept.IsState self.now };

    /// Clears `part`, and writes part `i` of the state into it, counted from 0.
    fn write_part(&self, i: u32, part: &mut ArrayVec<u8, PAYLOAD_BYTES>)
        requires { i < length (kept.parts self.now) }
        ensures { part.new.items ≡ slice_index_or (kept.parts self.now) i [] };

    /// The state of these parts of a format. `Bad` where they are not exactly those of a state, `Memory` where it is out
    /// of memory, which is asked for only where they may be those of one.
    fn from_parts(
        alloc: Global,
        format: DiskFormat,
        parts: &[ArrayVec<u8, PAYLOAD_BYTES>],
    ) -> Result<Self, PartsFault>
        ensures state { IfOk result (λ s. kept.state_of format (map (λ part. part.items) parts.now) ≡ Some s) }
        ensures bad { IsErrOf result PartsFault.Bad → kept.state_of format (map (λ part. part.items) parts.now) ≡ None }
        ensures memory { IsErrOf result PartsFault.Memory → kept.MayBe format (map (λ part. part.items) parts.now) };

    /// Clears `bytes`, and writes the action into it.
    fn write_action(action: &Self::Action, bytes: &mut ArrayVec<u8, PAYLOAD_BYTES>)
        ensures bytes { bytes.new.items ≡ kept.action_bytes action.now }
        ensures action { kept.IsAction action.now };

    /// The action that these bytes of a format were written of, if they are those of one.
    fn read_action(format: DiskFormat, bytes: &[u8]) -> Option<Self::Action>
        ensures { result ≡ kept.action_of format bytes.now };

    /// Takes the action, or refuses it and changes nothing.
    fn step(&mut self, action: &Self::Action) -> Result<(), Self::Refusal>
        ensures step { MatchResult result (λ _. kept.step self.old action.now ≡ Ok self.new)
            (λ refusal. kept.step self.old action.now ≡ Err refusal) }
        ensures refused { OnErr result (self.new ≡ self.old) }
        ensures state { kept.IsState self.old }
        ensures action { kept.IsAction action.now };

    /// What is read is what was written, and steps lead from state to state.
    ghost lawful: { IsLawful kept };
}
