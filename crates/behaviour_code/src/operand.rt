// The operands of instructions.

ghost use Rattle.std.specs.Prelude.{◌≡◌, [], ◌∷◌};
ghost use Rattle.behaviour_code.specs.Operands.{listed, opcode_of, operands_in};

use crate::instr::Instr;
use crate::names::Name;
use crate::opcode::Opcode;

/// An operand of an instruction.
#[derive(Clone, Copy, Debug, PartialEq, Eq)]
pub enum Operand {
    Register(u64),
    Field(u64),
    Number(u64),
    Name(Name),
}

/// The operands of an instruction, in the order of its line.
#[derive(Clone, Copy, Debug)]
pub struct Operands<'a> {
    pub first: Option<Operand>,
    pub second: Option<Operand>,
    pub third: Option<Operand>,
    /// The registers behind these.
    pub further: &'a [u64],
}

impl<'a> Operands<'a> {
    fn none() -> Operands<'a>
        ensures { listed result ≡ [] }
    {
        Operands {
            first: None,
            second: None,
            third: None,
            further: &[],
        }
    }

    fn one(first: Operand) -> Operands<'a>
        ensures { listed result ≡ first ∷ [] }
    {
        Operands {
            first: Some(first),
            second: None,
            third: None,
            further: &[],
        }
    }

    fn two(first: Operand, second: Operand) -> Operands<'a>
        ensures { listed result ≡ first ∷ second ∷ [] }
    {
        Operands {
            first: Some(first),
            second: Some(second),
            third: None,
            further: &[],
        }
    }

    fn three(first: Operand, second: Operand, third: Operand) -> Operands<'a>
        ensures { listed result ≡ first ∷ second ∷ third ∷ [] }
    {
        Operands {
            first: Some(first),
            second: Some(second),
            third: Some(third),
            further: &[],
        }
    }
}

impl Instr {
    /// Its operation.
    pub fn opcode(&self) -> Opcode
        ensures { result ≡ opcode_of self.now }
    {
        match self {
            Instr::Drop(_) => Opcode::Drop,
            Instr::Int(..) => Opcode::Int,
            Instr::Own(_) => Opcode::Own,
            Instr::Copy(..) => Opcode::Copy,
            Instr::Add(..) => Opcode::Add,
            Instr::Sub(..) => Opcode::Sub,
            Instr::Mul(..) => Opcode::Mul,
            Instr::Less(..) => Opcode::Less,
            Instr::Same(..) => Opcode::Same,
            Instr::Row(..) => Opcode::Row,
            Instr::Get(..) => Opcode::Get,
            Instr::Load(..) => Opcode::Load,
            Instr::Store(..) => Opcode::Store,
            Instr::Jump(_) => Opcode::Jump,
            Instr::JumpZero(..) => Opcode::JumpZero,
            Instr::Label(_) => Opcode::Label,
            Instr::Pin => Opcode::Pin,
            Instr::Unpin => Opcode::Unpin,
            Instr::New(..) => Opcode::New,
            Instr::Send(..) => Opcode::Send,
            Instr::Print(_) => Opcode::Print,
        }
    }

    /// Its operands. They take no memory.
    pub fn operands(&self) -> Operands<'_>
        ensures { listed result ≡ operands_in self.now }
    {
        use Operand::{Field, Number, Register};

        match self {
            Instr::Drop(d) | Instr::Own(d) | Instr::Print(d) => Operands::one(Register(*d)),
            Instr::Int(d, n) => Operands::two(Register(*d), Number(*n)),
            Instr::Copy(d, s) => Operands::two(Register(*d), Register(*s)),
            Instr::Add(d, a, b)
            | Instr::Sub(d, a, b)
            | Instr::Mul(d, a, b)
            | Instr::Less(d, a, b)
            | Instr::Same(d, a, b) => Operands::three(Register(*d), Register(*a), Register(*b)),
            Instr::Row(d, values) => Operands {
                first: Some(Register(*d)),
                second: None,
                third: None,
                further: values.as_slice(),
            },
            Instr::Get(d, s, n) => Operands::three(Register(*d), Register(*s), Number(*n)),
            Instr::Load(d, f) => Operands::two(Register(*d), Field(*f)),
            Instr::Store(f, s) => Operands::two(Field(*f), Register(*s)),
            Instr::Label(l) => Operands::one(Operand::Name(*l)),
            Instr::Jump(l) => Operands::one(Operand::Name(l.name())),
            Instr::JumpZero(r, l) | Instr::New(r, l) => {
                Operands::two(Register(*r), Operand::Name(l.name()))
            }
            Instr::Pin | Instr::Unpin => Operands::none(),
            Instr::Send(to, behaviour, values) => Operands {
                first: Some(Register(*to)),
                second: Some(Operand::Name(*behaviour)),
                third: None,
                further: values.as_slice(),
            },
        }
    }
}
