//! What answers lines.
ghost use Rattle.std.specs.Prelude.{◌≡◌, ◌<◌, ℕ, Bool, true, false, List, [], Option, IfSome, length, option_map};
ghost use Rattle.desk_replies.specs.declared.desk.Desk.{Desk as DeskType};
ghost use Rattle.table_server.specs.declared.line_set.LineSet.{LineSet as LineSetType};
ghost use Rattle.line_replies.specs.declared.short_reply.ShortReply.{ShortReply as ShortReplyType};

use bridge_endings::Cache;
use desk_replies::Desk;
use line_replies::ShortReply;
use std::alloc::Global;
use table_server::{LineSet, ReplyText};

/// The replies to posted lines, and how many of the lines had a key that is nobody's.
#[derive(Drop)]
pub struct Replies {
    /// The replies, one after another.
    pub text: Vec<u8>,
    /// How many lines had a key that is nobody's.
    pub wrong_keys: u64,
}

/// What answers lines, as a store of a session does.
pub trait LineServer: Drop {
    // it can take lines, as it can between two requests
    ghost is_ready: { Self → Bool };

    // it has failed
    ghost failed: { Self → Bool };

    // from the first state, these lines of a set were answered by the text, or memory for the text was refused, and left the second
    // state
    ghost answers: { LineSetType → Self → List ℕ → Option (List ℕ) → Self → Type 0 };

    // so many of these lines of a set have a key that is nobody's
    ghost counts: { LineSetType → Self → List ℕ → ℕ → Type 0 };

    // whether these bytes are a key that is nobody's
    ghost wrong_key: { Self → List ℕ → Bool };

    // whether boards are asked for by one
    ghost wrong_at_boards: { Self → List ℕ → Bool };

    // whether something is asked of the desk by one
    ghost wrong_at_desk: { Self → List ℕ → Bool };

    // what is told to the player whose key these bytes are
    ghost places: { Self → List ℕ → List ℕ };

    // what is told of all tables to the director, whose key these bytes are
    ghost tables: { Self → List ℕ → List ℕ };

    // what is told of boards where these bytes are posted, players being told of other tables or not
    ghost boards: { Self → Bool → List ℕ → List ℕ };

    // and whether they are told of them from then on
    ghost opens: { Self → Bool → List ℕ → Bool };

    // what is told of the desk where these bytes are posted at a second
    ghost desks: { Self → DeskType → ℕ → List ℕ → List ℕ };

    // and what stands on it from then on
    ghost stands: { Self → DeskType → ℕ → List ℕ → DeskType };

    // how a request to wait with this body is answered
    ghost waits: { Self → List ℕ → ShortReplyType };

    // what was told last, as such a body says, is told still
    ghost stays: { Self → DeskType → List ℕ → Type 0 };

    // the text is what is told of the results to the holder of the key that these bytes are
    ghost results: { Self → List ℕ → List ℕ → Type 0 };

    /// Answers the lines of a body of fewer than 65,536 bytes, which are of that set. `None` where memory was refused for the
    /// text; lines may have been taken then.
    fn answer(
        &mut self,
        set: LineSet,
        alloc: Global,
        cache: &mut Cache,
        body: &[u8],
    ) -> Option<Replies>
        requires ready { is_ready self.old ≡ true }
        requires short { length body.now < 65536 }
        ensures answers { answers set self.old body.now (option_map (λ replies. replies.text.items) result) self.new }
        ensures counts { IfSome result (λ replies. counts set self.old body.now replies.wrong_keys) }
        ensures ready { is_ready self.new ≡ true };

    /// Whether these bytes are a key that is nobody's.
    fn has_wrong_key(&self, key: &[u8]) -> bool
        ensures { result ≡ wrong_key self.now key.now };

    /// Whether boards are asked for by a key that is nobody's.
    fn has_wrong_key_at_boards(&self, bytes: &[u8]) -> bool
        ensures { result ≡ wrong_at_boards self.now bytes.now };

    /// Whether something is asked of the desk by a key that is nobody's.
    fn has_wrong_key_at_desk(&self, bytes: &[u8]) -> bool
        ensures { result ≡ wrong_at_desk self.now bytes.now };

    /// Adds what is told to the player whose key these bytes are, of his place.
    fn place(&self, key: &[u8], text: &mut ReplyText)
        requires { text.old.bytes ≡ [] }
        ensures { text.new.bytes ≡ places self.now key.now };

    /// Adds what is told of all tables to the director, whose key these bytes are.
    fn tables(&self, key: &[u8], text: &mut ReplyText)
        requires { text.old.bytes ≡ [] }
        ensures { text.new.bytes ≡ tables self.now key.now };

    /// What is told of boards where these bytes are posted, players being told of other tables or not. `None` where memory was
    /// refused for it.
    fn boards(&self, alloc: Global, is_open: bool, key: &[u8]) -> Option<Vec<u8>>
        ensures { IfSome result (λ text. text.items ≡ boards self.now is_open key.now) };

    /// Whether players are told of other tables once these bytes are answered.
    fn opens(&self, is_open: bool, key: &[u8]) -> bool
        ensures { result ≡ opens self.now is_open key.now };

    /// Takes what these bytes ask of the desk at a second, and gives what is told of it. `None` where memory was refused for the
    /// text; what was asked for is taken all the same.
    fn desk(&self, desk: &mut Desk, alloc: Global, at: u32, body: &[u8]) -> Option<Vec<u8>>
        ensures text { IfSome result (λ text. text.items ≡ desks self.now desk.old at body.now) }
        ensures desk { desk.new ≡ stands self.now desk.old at body.now };

    /// How a request to wait with this body is answered.
    fn wait(&self, body: &[u8]) -> ShortReply
        ensures { result ≡ waits self.now body.now };

    /// Whether what was told last, as such a body says, is told still.
    fn is_still(&self, desk: &Desk, body: &[u8]) -> bool
        ensures still { result ≡ true → stays self.now desk.now body.now }
        ensures other { result ≡ false → ¬ (stays self.now desk.now body.now) };

    /// What is told of the results to the holder of the key that these bytes are. `None` where memory was refused for it.
    fn results(&self, alloc: Global, key: &[u8]) -> Option<Vec<u8>>
        ensures { IfSome result (λ text. results self.now key.now text.items) };

    /// Whether it has failed, and answers each line with an error from then on.
    fn has_failed(&self) -> bool
        ensures { result ≡ failed self.now };
}
