//! The first bytes of names, as numbers. Names are compared by these first, which is faster than to compare slices.
ghost use Rattle.std.specs.Prelude.{◌≡◌};
ghost use Rattle.tml_types.specs.Heads as spec;

/// The first eight bytes of a name, as a number to the base 256. It stands in its callers, which ask it of each name.
#[inline(always)]
pub fn head_of(name: &[u8]) -> u64
    ensures { result ≡ spec.head_of name.now }
{
    let mut head: u64 = 0;
    for byte in name.iter().take(8) {
        head = head.wrapping_mul(256).wrapping_add(u64::from(*byte));
    }
    head
}
