//! Lengths of time.

/// How many of a unit a duration has.
#[derive(Clone, Copy)]
pub enum Count {
    /// The unit is not written.
    Absent,
    /// This many: 0 to 999,999,999.
    Number(u32),
    /// An `X` is written in place of the number.
    Unknown,
}

/// A duration of ISO 8601, as it is written: how many of each unit. `P3D` has 3 days, `PXW` an unknown number of weeks,
/// and `PT90M` 90 minutes, which are not made into hours.
#[derive(Clone, Copy)]
pub struct Length {
    pub years: Count,
    pub months: Count,
    pub weeks: Count,
    pub days: Count,
    pub hours: Count,
    pub minutes: Count,
    pub seconds: Count,
}
