//! Gates, at which workers call before a task.

/// What a worker calls before it runs a claimed task. It promises nothing, and changes nothing
/// that the engine sees.
pub trait Gate: Sync {
    /// Is called before the task with this number.
    fn at(&self, task: u32);
}

/// A gate that does nothing, which the program uses.
#[derive(Clone, Copy, Debug, Default, PartialEq, Eq)]
pub struct FreeGate;

impl Gate for FreeGate {
    fn at(&self, _task: u32) {}
}
