//! The registration of callbacks.

ghost use Rattle.std.specs.Prelude.{◌≡◌, ◌^◌, ℕ};
ghost use Rattle.omp_codes.specs.Answers.{answer_of};
ghost use Rattle.omp_codes.specs.declared.set_results.TheConstants.{ALWAYS};
ghost use Rattle.ompt_calls.specs.Number.{is_registered};
ghost use Rattle.tool_api.specs.Registering.{AreAlways, is_registered_after, get_answer};

use omp_codes::set_results::ALWAYS;
use omp_codes::{PROFILE, PROFILE_MASK, set_answer};
use ompt_calls::is_registered;
use std::marker::Model;

/// What a tool has registered while it is initialized. Contracts see it as a mask: bit n for the callback with number n
/// in `ompt_callbacks_t` (OpenMP 5.2, 19.4.2). Each callback that is registered is one that is called always.
#[derive(Drop)]
pub struct Registrar {
    /// The callbacks: bit n for number n.
    mask: u64,
}

impl Model for Registrar {
    ghost use Rattle.std.specs.Prelude.{ℕ};
    ghost use Rattle.tool_api.specs.Registering.{AreAlways};

    ghost Value = { ℕ };

    ghost view = { λ registrar. registrar.mask };

    ghost invariant = { λ registrar. AreAlways registrar.mask };
}

impl Registrar {
    /// A registrar that has nothing registered.
    pub fn new() -> Registrar
        ensures { result ≡ 0 }
    {
        Registrar { mask: 0 }
    }

    /// What is registered: bit n for number n.
    pub fn mask(&self) -> u64
        ensures mask { result ≡ self.now }
        ensures always { AreAlways result }
    {
        self.mask
    }

    /// Registers the callback with this number, as `ompt_set_callback` does (OpenMP 5.2, 19.6.1.3): where the answer is
    /// `ALWAYS`, it is registered. Otherwise the answer is `NEVER` or `ERROR`, and nothing changes. The answers are those of
    /// [`set_results`](omp_codes::set_results).
    pub fn set(&mut self, number: u32) -> u8
        ensures answer { result ≡ answer_of number }
        ensures registers { (other : ℕ) → is_registered self.new other ≡ is_registered_after self.old number other }
    {
        let answer = set_answer(number);
        if answer == ALWAYS {
            self.mask |= bit(number);
        }
        answer
    }

    /// Registers each callback of the profile.
    pub fn set_profile(&mut self)
        // Nothing is registered yet.
        requires { self.old ≡ 0 }
        ensures { self.new ≡ PROFILE_MASK }
    {
        for number in PROFILE {
            self.set(number);
        }
    }

    /// Whether the callback with this number is registered, as `ompt_get_callback` answers (OpenMP 5.2, 19.6.1.4): 1 where
    /// it is, else 0.
    pub fn get(&self, number: u32) -> u8
        ensures { result ≡ get_answer self.now number }
    {
        if is_registered(self.mask, number) {
            1
        } else {
            0
        }
    }
}

/// The bit of a callback that is always called.
fn bit(number: u32) -> u64
    requires { answer_of number ≡ ALWAYS }
    ensures { result ≡ 2 ^ number }
{
    1 << number
}
