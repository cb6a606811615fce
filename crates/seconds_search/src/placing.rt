//! The placing of settled points.
ghost use Rattle.seconds_core.specs.Placed.{second_at};
ghost use Rattle.std.specs.List.{All};
ghost use Rattle.std.specs.Prelude.{length, ℕ, ◌+◌, ◌-ℤ◌, ◌<◌, ◌≡◌};
ghost use Rattle.seconds_search.specs.Relaxation.{IsNear};

/// The seconds of all points but the last one, the origin, counted from the second where that stands.
pub fn from_origin(mut seconds: Vec<i64>) -> Vec<i64>
    requires some { 0 < length seconds.items }
    requires near { All IsNear seconds.items }
    ensures size { length result.items + 1 ≡ length seconds.items }
    ensures counted { (p : ℕ) → p < length result.items → second_at result.items p ≡ second_at seconds.items p -ℤ second_at seconds.items (length result.items) }
{
    let Some(zero) = seconds.pop() else {
        return seconds;
    };
    for point in 0..seconds.len() {
        seconds[point] = since(seconds[point], zero);
    }
    seconds
}

/// How many seconds after another a second is.
fn since(second: i64, zero: i64) -> i64
    requires second { IsNear second }
    requires zero { IsNear zero }
    ensures { result ≡ second -ℤ zero }
{
    second - zero
}
