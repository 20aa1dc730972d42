// Instructions.

ghost use Rattle.std.specs.Prelude.{◌≡◌, ◌≤◌, length};
ghost use Rattle.behaviour_code.specs.Find.{is_label};

use crate::names::Name;
use crate::target::Target;
use orca_names::VALUES_LIMIT;
use plain_list::Listed;
use std::marker::Model;

/// The registers of a letter's arguments: 0 to 8 numbers, seen as a list.
#[derive(Clone, Debug, PartialEq, Eq, Drop)]
pub struct Registers {
    numbers: Listed<u64>,
}

impl Model for Registers {
    ghost use Rattle.std.specs.Prelude.{◌≤◌, List, ℕ, length};
    ghost use Rattle.orca_names.specs.declared.limits.TheConstants.{VALUES_LIMIT};

    ghost Value = { List ℕ };

    ghost view = { λ r. r.numbers };

    ghost invariant = { λ r. length r.numbers ≤ VALUES_LIMIT };

    ghost inverse = { λ numbers. record { numbers = numbers } };
}

impl Registers {
    /// The registers of these numbers. It takes no memory.
    pub fn of(numbers: Vec<u64>) -> Registers
        requires { length numbers.items ≤ VALUES_LIMIT }
        ensures { result ≡ numbers.items }
    {
        Registers {
            numbers: Listed::from(numbers),
        }
    }

    /// The numbers, in their order.
    pub fn as_slice(&self) -> &[u64]
        ensures value { result.now ≡ self.now }
        ensures room { length result.now ≤ VALUES_LIMIT }
    {
        let numbers = &self.numbers;
        numbers.as_slice()
    }
}

/// The registers of a row's values: 1 to 8 numbers, seen as a list.
#[derive(Clone, Debug, PartialEq, Eq, Drop)]
pub struct RowRegisters {
    numbers: Registers,
}

impl Model for RowRegisters {
    ghost use Rattle.std.specs.Prelude.{◌≤◌, List, ℕ, length};
    ghost use Rattle.orca_names.specs.declared.limits.TheConstants.{VALUES_LIMIT};

    ghost Value = { List ℕ };

    ghost view = { λ r. r.numbers };

    ghost invariant = { λ r. (1 ≤ length r.numbers) × (length r.numbers ≤ VALUES_LIMIT) };

    ghost inverse = { λ numbers. record { numbers = numbers } };
}

impl RowRegisters {
    /// The registers of these numbers. It takes no memory.
    pub fn of(numbers: Vec<u64>) -> RowRegisters
        requires { (1 ≤ length numbers.items) × (length numbers.items ≤ VALUES_LIMIT) }
        ensures { result ≡ numbers.items }
    {
        RowRegisters {
            numbers: Registers::of(numbers),
        }
    }

    /// The numbers, in their order.
    pub fn as_slice(&self) -> &[u64]
        ensures value { result.now ≡ self.now }
        ensures room { (1 ≤ length result.now) × (length result.now ≤ VALUES_LIMIT) }
    {
        let numbers = &self.numbers;
        numbers.as_slice()
    }
}

/// One instruction, with its operands in the order of its line: registers, fields and numbers by
/// their numbers, labels, kinds and behaviours by their names.
#[derive(Clone, Debug, PartialEq, Eq, Drop)]
pub enum Instr {
    /// `drop rD`: rD becomes null.
    Drop(u64),
    /// `int rD N`: rD becomes the number.
    Int(u64, u64),
    /// `self rD`: rD becomes this actor.
    Own(u64),
    /// `copy rD rS`: rD becomes what rS holds.
    Copy(u64, u64),
    /// `add rD rA rB`: rD becomes the sum modulo 2^64. A value that is no number counts as 0.
    Add(u64, u64, u64),
    /// `sub rD rA rB`: rD becomes the difference modulo 2^64.
    Sub(u64, u64, u64),
    /// `mul rD rA rB`: rD becomes the product modulo 2^64.
    Mul(u64, u64, u64),
    /// `less rD rA rB`: rD becomes 1 where rA's number is less than rB's, else 0.
    Less(u64, u64, u64),
    /// `same rD rA rB`: rD becomes 1 where the two values are equal, else 0.
    Same(u64, u64, u64),
    /// `row rD rA ..`: makes an object of these values, and rD becomes it.
    Row(u64, RowRegisters),
    /// `get rD rS N`: rD becomes the value at place N of rS's row, null where there is none.
    Get(u64, u64, u64),
    /// `load rD fI`: rD becomes what the field holds.
    Load(u64, u64),
    /// `store fI rS`: the field becomes what rS holds.
    Store(u64, u64),
    /// `jump L`: goes on behind the label.
    Jump(Target),
    /// `jzero rA L`: goes on behind the label where rA's number is 0.
    JumpZero(u64, Target),
    /// `label L`: does nothing.
    Label(Name),
    /// `pin`: this actor is pinned from now on.
    Pin,
    /// `unpin`: this actor is pinned no longer.
    Unpin,
    /// `new rD NAME`: makes an actor of the kind, and rD becomes it.
    New(u64, Target),
    /// `send rT NAME rA ..`: sends rT, where it is an actor, a letter with these arguments.
    Send(u64, Name, Registers),
    /// `print rA`: prints what rA holds.
    Print(u64),
}

impl Instr {
    /// Whether it is the label of this name.
    pub fn is_label(&self, name: Name) -> bool
        ensures { result ≡ is_label name self.now }
    {
        match self {
            Instr::Label(label) => *label == name,
            _ => false,
        }
    }

    /// Keeps the place where the name was found that it leads to, if it leads to one.
    pub fn set_place(&mut self, place: u32)
        ensures { self.new ≡ self.old }
    {
        match self {
            Instr::Jump(target) => target.set_place(place),
            Instr::JumpZero(_, target) => target.set_place(place),
            Instr::New(_, target) => target.set_place(place),
            _ => {}
        }
    }
}
