//! Commands, and the queue to which a system gives its own.
ghost use Rattle.std.specs.Prelude.{◌≡◌, [], ◌∷◌, ◌++◌, ◌≤◌, length, vec_len, OnOk, OnErr, IfErr};
ghost use Rattle.scene_model.specs.Rulebook.{queue_room};

use std::alloc::Global;

/// What may be asked to be done to a scene after the systems of a frame have run.
///
/// A command whose object does not live as it begins is skipped and changes nothing, and so is one with data that refer to an
/// id that does not live then. Kinds are the rules', and data are of their kinds.
#[derive(Drop)]
pub enum Command<D> {
    /// A new entity with these parts, each under its own kind; it gets the next id.
    Spawn(Vec<(&'static str, D)>),
    /// The entity of an id goes, with its parts; references to it are gone from then on.
    Kill(u64),
    /// The entity of an id gets a part under a kind, in the place of the one that stood there.
    Put(u64, &'static str, D),
    /// The part of an id under a kind goes, if there is one.
    Take(u64, &'static str),
}

/// The commands that a system has asked for in its turn, in order.
#[derive(Drop)]
pub struct Queue<D> {
    commands: Vec<Command<D>>,
    ghost room: { vec_len commands ≤ queue_room },
}

/// A command that was not taken into a queue, handed back.
#[derive(Drop)]
pub enum NotQueued<D> {
    /// The queue holds 1,048,576 commands.
    Full(Command<D>),
    /// Memory was wanting.
    Memory(Command<D>),
}

impl<D: Drop> Queue<D> {
    ghost use Rattle.scene_model.specs.Queues.{waiting, handed_back, IsFull};

    /// A queue without commands.
    pub fn new(alloc: Global) -> Queue<D>
        ensures { waiting result ≡ [] }
    {
        Queue {
            commands: Vec::new(alloc),
        }
    }

    /// Takes a command in, behind the others.
    ///
    /// Errors: `Full` where 1,048,576 commands wait; `Memory`; the queue is then as it was, and the command is handed back.
    pub fn push(&mut self, command: Command<D>) -> Result<(), NotQueued<D>>
        ensures ok { OnOk result (waiting self.new ≡ waiting self.old ++ command ∷ []) }
        ensures err { OnErr result (waiting self.new ≡ waiting self.old) }
        ensures back { IfErr result (λ refused. handed_back refused ≡ command) }
        ensures full { IfErr result (λ refused. IsFull refused → length (waiting self.old) ≡ queue_room) }
    {
        if self.commands.len() >= 1_048_576 {
            return Err(NotQueued::Full(command));
        }
        match self.commands.push(command) {
            Ok(()) => Ok(()),
            Err(refused) => Err(NotQueued::Memory(refused.value)),
        }
    }

    /// Lets all commands go; their room stays.
    pub fn clear(&mut self)
        ensures { waiting self.new ≡ [] }
    {
        self.commands.clear();
    }

    /// The commands that wait, the first of them first.
    pub fn as_slice(&self) -> &[Command<D>]
        ensures { result.now ≡ waiting self.now }
    {
        self.commands.as_slice()
    }

    /// How many commands wait, at most 1,048,576.
    pub fn len(&self) -> usize
        ensures value { result ≡ length (waiting self.now) }
        ensures room { result ≤ queue_room }
    {
        self.commands.len()
    }
}
