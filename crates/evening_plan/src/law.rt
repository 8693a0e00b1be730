//! What is said of a line agrees with how it is read, as a law over the definitions that both are given by.
ghost use Rattle.evening_plan.specs.Named.{NamesEachFault};

/// A line of at most 128 bytes that reading finds out of form, as the one of its kind, has a word that is named as out of
/// form, lacking, or one too many.
pub fn a_line_out_of_form_has_a_word_that_is_named()
    ensures { NamesEachFault }
{}
