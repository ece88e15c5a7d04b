// The answer to a question.
ghost use Rattle.tableau.specs.Theorems.{CountedAreFinite, AnswerIsRight, CountedAreBounded, QuestionsAreDecided};

/// The counted positions are finitely many.
pub fn counted_are_finite()
    ensures { CountedAreFinite }
{}

/// The computed answer is right for every well-posed question and every number of rows.
pub fn answer_is_right()
    ensures { AnswerIsRight }
{}

/// At most as many positions are counted as there are places, labels and codes.
pub fn counted_are_bounded()
    ensures { CountedAreBounded }
{}

/// Every question is decided: some shortest continuation, or none of any length.
pub fn questions_are_decided()
    ensures { QuestionsAreDecided }
{}
