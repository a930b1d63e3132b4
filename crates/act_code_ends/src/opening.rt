//! The codes of the callers, which are made anew as often as they are needed.

ghost use Rattle.std.specs.Prelude.{ℕ, IfOk};

use act_drive::Code;
use act_types::{CallerId, NoMemory};
use std::alloc::Global;

/// The codes of the callers, each made anew.
pub trait Codes<C: Code> {
    /// Which code a caller has.
    ghost makes: { Self → ℕ → C → Type 0 };

    fn code(&self, alloc: Global, caller: CallerId) -> Result<C, NoMemory>
        ensures { IfOk result (λ code. makes self.now caller code) };
}
