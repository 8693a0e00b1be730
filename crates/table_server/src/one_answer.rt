//! Lines have one answer, as laws over the definitions that a server answers by.
ghost use Rattle.std.specs.Prelude.{◌≡◌, ℕ, List};
ghost use Rattle.session_rules.specs.State.{SessionValue};
ghost use Rattle.table_server.specs.declared.asked.Asked.{Asked as AskedType};
ghost use Rattle.table_server.specs.declared.asked.Question.{Question as QuestionType};
ghost use Rattle.table_server.specs.Answered.{AreReplies};
ghost use Rattle.table_server.specs.Standing.{Standing};
ghost use Rattle.table_server.specs.Told.{Tells};

/// A question has one answer: what a session tells who asks is determined to the byte.
pub fn a_question_has_one_answer()
    ensures { (s : SessionValue) (question : QuestionType) (one other : List ℕ) → Tells s question one → Tells s question other → one ≡ other }
{}

/// So lines have one text of replies.
pub fn lines_have_one_text_of_replies()
    ensures { (standing : Standing) (asked : List AskedType) (one other : List ℕ) → AreReplies standing asked one → AreReplies standing asked other → one ≡ other }
{}
