ghost use Rattle.std.specs.Prelude.{◌≡◌, ◌∷◌, ◌++◌, [], List, Bool, true, IfOk, OnErr, IsOk};

use rl_ids::NoMemory;
use std::alloc::Global;

/// A machine takes events one by one and answers each of them.
///
/// Its meaning is a history: the list of all events that it took, the earliest first. What it answers is a
/// function of its setup, of that list and of the event; so two machines with one setup and one history answer
/// alike, however they were made and whatever they keep of the history. A channel and the book of connections
/// are machines.
///
/// Five ghost members say what a machine is. They are no code and take no time.
/// - `stands`: which histories the machine stands for. It is a relation, since a machine may have dropped what
///   no later answer depends on, and may then stand for several histories.
/// - `setup`: plain data that was given when the machine was made, and that no event changes.
/// - `any_setup`: some setup, whichever. It fills the place of a setup where there is none to show.
/// - `reply`: the answer to an event after a history, under a setup. This is the machine's definition.
/// - `is_spare`: the events that take no memory.
///
/// A machine can be dropped like any value.
pub trait Machine: Drop {
    /// What the machine takes.
    type Event: Drop;

    /// What it answers.
    type Reply: Drop;

    /// What no event changes.
    type Setup;

    ghost stands: { Self → List Self.Event → Type 0 };

    ghost setup: { Self → Self.Setup };

    ghost any_setup: { Self.Setup };

    ghost reply: { Self.Setup → List Self.Event → Self.Event → Self.Reply };

    ghost is_spare: { Self.Event → Bool };

    /// Takes one event and answers it.
    ///
    /// The answer is `reply` of the machine's setup, of each history that the machine stood for, and of the
    /// event. After it the machine stands for that history with the event behind it.
    ///
    /// `NoMemory` comes where memory is wanted; the machine then stands for the same histories as before, and
    /// the event is dropped. It never comes for an event that `is_spare` holds of. The setup stays in any case.
    fn take(&mut self, alloc: Global, event: Self::Event) -> Result<Self::Reply, NoMemory>
        ensures setup { setup self.new ≡ setup self.old }
        ensures ok { (past : List Self.Event) → stands self.old past → IfOk result (λ answer. stands self.new (past ++ event ∷ []) × (answer ≡ reply (setup self.old) past event)) }
        ensures err { (past : List Self.Event) → stands self.old past → OnErr result (stands self.new past) }
        ensures spare { is_spare event ≡ true → IsOk result };
}
