//! Programs as plain data: kinds of actors, their behaviours, and the instructions of these.
#![tactic(auto)]

mod behaviours;
mod code;
mod instr;
mod names;
mod opcode;
mod operand;
mod target;

pub use behaviours::Behaviours;
pub use code::{Behaviour, Kind, Program};
pub use instr::{Instr, Registers, RowRegisters};
pub use names::{Name, Names};
pub use opcode::{Opcode, OperandKind};
pub use operand::{Operand, Operands};
pub use target::Target;
