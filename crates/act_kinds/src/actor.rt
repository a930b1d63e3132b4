//! What an actor is, whatever its kind.

ghost use Rattle.std.specs.Prelude.{◌≡◌, ◌++◌, IfOk, OnOk, OnErr, IsOk};
ghost use Rattle.std.specs.String.{string_bytes};
ghost use Rattle.std.specs.Fmt.{AppendsText};
ghost use Rattle.act_types.specs.KindState.{KindState};
ghost use Rattle.act_types.specs.Texts.{state_text};
ghost use Rattle.act_rules.specs.Kinds.{reply_of};
ghost use Rattle.act_rules.specs.RunList.{step_of_reply};

use act_types::{Answer, Method, NoMemory, Value};
use std::alloc::Global;
use std::fmt;

/// An object that answers calls. Its meaning is its state, and `reply_of` says what a call does.
pub trait Actor: Drop {
    /// The kind, and what it holds.
    ghost state: { Self → KindState };

    /// Answers a call. A fault leaves the state.
    fn ask(&mut self, method: &Method, args: &[Value]) -> Result<Answer, NoMemory>
        ensures answer { IfOk result (λ answer.
            answer ≡ (step_of_reply (state self.old) (reply_of (state self.old) method.now args.now)).1) }
        ensures moved { OnOk result
            (state self.new ≡ (step_of_reply (state self.old) (reply_of (state self.old) method.now args.now)).0) }

        // Want of memory comes only where no fault does, and leaves the kind as it was.
        ensures err { OnErr result (self.new ≡ self.old) }
        ensures memory_last { OnErr result (IsOk (reply_of (state self.old) method.now args.now)) };

    /// Appends the state's text, or leaves the text as it was.
    fn state_text(&self, text: &mut String) -> Result<(), NoMemory>
        ensures ok { OnOk result (string_bytes text.new ≡ string_bytes text.old ++ state_text (state self.now)) }
        ensures err { OnErr result (string_bytes text.new ≡ string_bytes text.old) };
}

/// A kind behind a box.
pub type Boxed = Box<dyn Actor + Send>;

/// A box of any kind is an actor, of the state of what is in it.
impl Actor for Box<dyn Actor + Send> {
    ghost state = { λ boxed. (Actor-box boxed).state boxed.value };

    fn ask(&mut self, method: &Method, args: &[Value]) -> Result<Answer, NoMemory> {
        (**self).ask(method, args)
    }

    fn state_text(&self, text: &mut String) -> Result<(), NoMemory> {
        (**self).state_text(text)
    }
}

/// Appends what a value is written as, or leaves the text as it was.
pub(crate) fn append<D: fmt::Display + Drop>(text: &mut String, shown: D) -> Result<(), NoMemory>
    ensures ok { OnOk result (AppendsText (string_bytes text.old) (string_bytes text.new) (D.output shown)) }
    ensures err { OnErr result (string_bytes text.new ≡ string_bytes text.old) }
{
    let alloc: Global = *text.allocator();
    let spelled = shown.to_string(alloc)?;
    text.push_str(spelled.as_str())?;
    Ok(())
}
