//! Why reading stops.
ghost use Rattle.line_texts.specs.declared.stop.Stop.TheVariants as stop;
ghost use Rattle.std.specs.Prelude.{◌≡◌};

use net_core::Memory;

/// Why no value was read.
#[derive(Clone, Copy)]
pub enum Stop<'t> {
    /// The first line of this, which is the rest of the text, is bad, or is not there.
    BadLine(&'t [u8]),
    /// Out of memory.
    Memory,
}

impl<'t> From<Memory> for Stop<'t> {
    ghost from_gives = { λ _ e. e ≡ stop.Memory };

    fn from(_e: Memory) -> Stop<'t> {
        Stop::Memory
    }
}
