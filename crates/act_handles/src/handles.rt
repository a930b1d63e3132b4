//! Copies of handles, and the numbers of calls.

ghost use Rattle.std.specs.Prelude.{◌≡◌, ◌≢◌, ℕ, ◌+◌, map, AllPairs, position, find, Some, None, MatchOption, IfOk, OnOk, IfErr, OnErr};
ghost use Rattle.act_rules.specs.Submissions.{copies_held, handle_refusal, is_earlier};
ghost use Rattle.act_handles.specs.Handles.{is_of, copies_in, given_of_all, IsAt, new_handle, with_copy, with_number, without_copy, copy_answer, number_answer, release_answer};
ghost use Rattle.std.specs.List.{list_all};

use act_rules::HandleRefusal;
use act_types::{ActorId, Arg, ListOf, MAX_CALLS, MAX_COPIES, NoMemory};
use std::alloc::Global;
use std::marker::Model;

/// A caller's handle of an actor: how many copies it holds, and how many of its calls to the actor
/// were given a number.
#[derive(Clone, Copy, Debug)]
pub struct Handle {
    pub actor: ActorId,
    pub copies: u32,
    pub given: u32,
}

/// The handles of one caller.
#[derive(Drop)]
pub struct Handles {
    handles: Vec<Handle>,
}

impl Model for Handles {
    ghost use Rattle.std.specs.Prelude.{List};
    ghost use Rattle.act_handles.specs.declared.handles.Handle.{Handle};
    ghost use Rattle.act_handles.specs.Handles.{IsHandles};

    ghost Value = { List Handle };

    ghost view = { λ handles. handles.handles.items };

    ghost invariant = { λ handles. IsHandles handles.handles.items };
}

/// A handle of each actor, of which one copy is held.
fn open_handles(alloc: Global, actors: &[ActorId]) -> Result<Vec<Handle>, NoMemory>
    ensures { IfOk result (λ handles. handles.items ≡ map new_handle actors.now) }
{
    let handles = actors
        .iter()
        .map(|actor| Handle {
            actor: *actor,
            copies: 1,
            given: 0,
        })
        .collect(alloc)?;
    Ok(handles)
}

/// The place of the actor's handle in a list.
fn place_in(handles: &[Handle], actor: ActorId) -> Option<usize>
    ensures { result ≡ position (is_of actor) handles.now }
{
    handles.iter().position(|handle| handle.actor == actor)
}

impl Handles {
    /// One copy of the handle of each actor, and no numbers given.
    pub fn open(alloc: Global, actors: &[ActorId]) -> Result<Handles, NoMemory>
        requires distinct { AllPairs (λ one other. one ≢ other) actors.now }
        ensures { IfOk result (λ handles. handles ≡ map new_handle actors.now) }
    {
        let handles = open_handles(alloc, actors)?;
        Ok(Handles { handles })
    }

    /// The place of the actor's handle.
    fn place_of(&self, actor: ActorId) -> Option<usize>
        ensures { MatchOption result (find (is_of actor) self.now ≡ None) (IsAt actor self.now) }
    {
        place_in(&self.handles, actor)
    }

    /// How many copies are held, which is none for an actor that is not in the list.
    pub fn holds(&self, actor: ActorId) -> u32
        ensures { result ≡ copies_held (copies_in actor self.now) }
    {
        match self.place_of(actor) {
            None => 0,
            Some(place) => self.handles[place].copies,
        }
    }

    /// The place of the actor's handle, where a copy of it is held.
    fn held_place(&self, actor: ActorId) -> Result<usize, HandleRefusal>
        ensures place { IfOk result (IsAt actor self.now) }
        ensures ok { OnOk result (handle_refusal (copies_in actor self.now) ≡ None) }
        ensures err { IfErr result (λ refusal. handle_refusal (copies_in actor self.now) ≡ Some refusal) }
    {
        let Some(place) = self.place_of(actor) else {
            return Err(HandleRefusal::NoActor);
        };
        if self.handles[place].copies == 0 {
            return Err(HandleRefusal::NoHandle);
        }
        Ok(place)
    }

    /// Why the actor's handle can't be used, if it can't.
    pub fn refusal(&self, actor: ActorId) -> Option<HandleRefusal>
        ensures { result ≡ handle_refusal (copies_in actor self.now) }
    {
        self.held_place(actor).err()
    }

    /// Adds a copy and gives their number. An `Err` changes nothing.
    pub fn copy(&mut self, actor: ActorId) -> Result<u32, HandleRefusal>
        ensures value { result ≡ copy_answer actor self.old }
        ensures ok { OnOk result (self.new ≡ with_copy actor self.old) }
        ensures err { OnErr result (self.new ≡ self.old) }
    {
        let place = self.held_place(actor)?;
        let handle = &mut self.handles[place];
        if handle.copies >= MAX_COPIES {
            return Err(HandleRefusal::TooManyCopies);
        }
        handle.copies += 1;
        Ok(handle.copies)
    }

    /// Gives a call to the actor its number and counts it. An `Err` changes nothing.
    pub fn number(&mut self, actor: ActorId) -> Result<u32, HandleRefusal>
        ensures value { result ≡ number_answer actor self.old }
        ensures ok { OnOk result (self.new ≡ with_number actor self.old) }
        ensures counted { OnOk result (given_of_all self.new ≡ given_of_all self.old + 1) }
        ensures err { OnErr result (self.new ≡ self.old) }
    {
        let place = self.held_place(actor)?;
        let numbers_given: u32 = self.handles.iter().map(|handle| handle.given).sum();
        if numbers_given >= MAX_CALLS {
            return Err(HandleRefusal::TooManyCalls);
        }
        let handle = &mut self.handles[place];
        let number = handle.given;
        handle.given += 1;
        Ok(number)
    }

    /// Lets a copy go. After the last one it gives the number of calls to the actor. An `Err`
    /// changes nothing.
    pub fn release(&mut self, actor: ActorId) -> Result<Option<u32>, HandleRefusal>
        ensures value { result ≡ release_answer actor self.old }
        ensures ok { OnOk result (self.new ≡ without_copy actor self.old) }
        ensures err { OnErr result (self.new ≡ self.old) }
    {
        let place = self.held_place(actor)?;
        let handle = &mut self.handles[place];
        handle.copies -= 1;
        if handle.copies > 0 {
            return Ok(None);
        }
        Ok(Some(handle.given))
    }
}

/// Whether each argument is a value or one of the first `count` futures.
pub fn are_earlier(args: &ListOf<Arg>, count: u32) -> bool
    ensures { result ≡ list_all (is_earlier count) args.now }
{
    args.as_slice().iter().all(|arg| match arg {
        Arg::Plain(_) => true,
        Arg::Fut(future) => future.number() < count,
    })
}
