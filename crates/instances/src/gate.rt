//! Gates, which are called before each act.
use chart::InstanceNo;

/// Lets instances go on, and may hold them back before.
pub trait Gate {
    /// Called before each act of an instance, also before its stop, with the turn's number, from 1.
    fn before(&self, p: InstanceNo, turn: u32);
}

/// A gate that holds no instance back.
#[derive(Clone, Copy, Debug)]
pub struct Open;

impl Gate for Open {
    fn before(&self, _p: InstanceNo, _turn: u32) {}
}
