//! Laws of placings: public functions that do nothing, each with a law as its contract.
ghost use Rattle.seconds_core.specs.Laws.{ConstraintsSayWhatIsPlaced, NegativeIsUnplaced, PlacedFits, SecondsAreCounted, SecondsSayTheRelation};
ghost use Rattle.seconds_core.specs.Timed.{max_length};
ghost use Rattle.seconds_core.specs.declared.timed.TheConstants as constants;
ghost use Rattle.std.specs.Prelude.{◌≡◌, pos};

/// The definitions have the greatest length of the program.
pub fn greatest_length_is_exact()
    ensures { constants.MAX_LENGTH ≡ pos max_length }
{}

/// A link holds of the seconds of its intervals exactly where its relation holds in a timeline that counts them from some
/// second on; and some timeline counts those of all intervals.
pub fn seconds_say_the_relation()
    ensures relation { SecondsSayTheRelation }
    ensures counted { SecondsAreCounted }
{}

/// Seconds are placed exactly where there are two for each interval and they meet each constraint.
pub fn constraints_say_what_is_placed()
    ensures { ConstraintsSayWhatIsPlaced }
{}

/// Where there is a placing, some timeline fits the net.
pub fn placed_fits()
    ensures { PlacedFits }
{}

/// Where there is a negative cycle, there is no placing.
pub fn negative_is_unplaced()
    ensures { NegativeIsUnplaced }
{}
