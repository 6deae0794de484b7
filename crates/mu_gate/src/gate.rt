//! A place where running threads can be held.
ghost use Rattle.std.specs.Prelude.{◌≡◌};

/// Is called by each thread of a run before each of its steps, with the number of the thread and
/// how many steps it has made. What it does changes no answer.
pub trait Gate {
    /// Lets the thread go on when the gate likes.
    fn pass(&self, thread: u8, step: u32);
}

/// A gate that does nothing.
#[derive(Clone, Copy, Debug, PartialEq, Eq)]
pub struct OpenGate;

impl Gate for OpenGate {
    fn pass(&self, _thread: u8, _step: u32) {}
}

/// The passing of a gate, which the step after it uses up. Nobody has one without passing a gate.
#[derive(Drop)]
pub struct Passed {
    /// The number of the thread that passed.
    thread: u8,
    /// How many steps it had made.
    step: u32,
}

impl Passed {
    /// The thread passes the gate after this many steps.
    pub fn through<G: Gate>(gate: &G, thread: u8, step: u32) -> Passed
        ensures thread { result.thread ≡ thread }
        ensures step { result.step ≡ step }
    {
        gate.pass(thread, step);
        Passed { thread, step }
    }
}
