//! Laws of drills: public functions that do nothing, each with the law as its contract.
ghost use Rattle.drill.specs.Laws.{DrillIsAccepted, DrillIsShort, HiddenIntervalsFit};

/// The document of a drill breaks no rule, and says what was drawn.
pub fn drill_is_accepted()
    ensures { DrillIsAccepted }
{}

/// The document of a drill has no more bytes than a document may have.
pub fn drill_is_short()
    ensures { DrillIsShort }
{}

/// The hidden intervals of a drill fit its document.
pub fn hidden_intervals_fit()
    ensures { HiddenIntervalsFit }
{}
