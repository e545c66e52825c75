//! Masks of callbacks.

ghost use Rattle.std.specs.Prelude.{◌≡◌};
ghost use Rattle.ompt_calls.specs.Number.{is_registered};

/// Whether the callback with this value in `ompt_callbacks_t` (OpenMP 5.2, 19.4.2) is in the mask, which has bit n for
/// number n.
pub fn is_registered(mask: u64, number: u32) -> bool
    ensures { result ≡ is_registered mask number }
{
    if number >= u64::BITS {
        return false;
    }
    (mask >> number) % 2 == 1
}
