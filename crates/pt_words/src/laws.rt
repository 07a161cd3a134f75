//! A theorem about the grammar.

ghost use Rattle.pt_words.specs.PresentAnswers.{NoPresentAnswerChanges};

/// Words without `--claims` before a word `--` ask for what they asked for before there was such an option.
pub fn no_present_answer_changes()
    ensures { NoPresentAnswerChanges }
{}
