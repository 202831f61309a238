//! A desk: a register that takes commands and answers questions, whatever keeps its entries.

mod command_fault;
mod damage;
mod desk;
mod event;
mod fault_mark;
mod open_fault;

pub use command_fault::CommandFault;
pub use damage::Damage;
pub use desk::Desk;
pub use event::Event;
pub use fault_mark::FaultMark;
pub use open_fault::OpenFault;
