//! A law of `seconds`: a public function that does nothing, with the law as its contract.
ghost use Rattle.seconds_answers.specs.Laws.{SecondsAreConfirmed};

/// What `seconds` prints of a document, `confirm` accepts over the same document: Done is a reply, and but for one that is
/// aborted the only one.
pub fn seconds_are_confirmed()
    ensures { SecondsAreConfirmed }
{}
