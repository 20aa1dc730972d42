// The table of instructions: their operations, and the operands that each takes.

ghost use Rattle.std.specs.Prelude.{◌≡◌, bytes_eq, find};
ghost use Rattle.behaviour_code.specs.Opcodes.{all_opcodes, most_further, operand_kinds, spelling};

/// The operation of an instruction.
#[derive(Clone, Copy, Debug, PartialEq, Eq)]
pub enum Opcode {
    Drop,
    Int,
    Own,
    Copy,
    Add,
    Sub,
    Mul,
    Less,
    Same,
    Row,
    Get,
    Load,
    Store,
    Jump,
    JumpZero,
    Label,
    Pin,
    Unpin,
    New,
    Send,
    Print,
}

/// What an operand has to be.
#[derive(Clone, Copy, Debug, PartialEq, Eq)]
pub enum OperandKind {
    Register,
    Field,
    Number,
    Name,
}

const ALL_OPCODES: [Opcode; 21] = [
    Opcode::Drop,
    Opcode::Int,
    Opcode::Own,
    Opcode::Copy,
    Opcode::Add,
    Opcode::Sub,
    Opcode::Mul,
    Opcode::Less,
    Opcode::Same,
    Opcode::Row,
    Opcode::Get,
    Opcode::Load,
    Opcode::Store,
    Opcode::Jump,
    Opcode::JumpZero,
    Opcode::Label,
    Opcode::Pin,
    Opcode::Unpin,
    Opcode::New,
    Opcode::Send,
    Opcode::Print,
];

impl Opcode {
    /// The word that begins its line.
    pub fn spelling(self) -> &'static str
        ensures { result.now ≡ spelling self }
    {
        match self {
            Opcode::Drop => "drop",
            Opcode::Int => "int",
            Opcode::Own => "self",
            Opcode::Copy => "copy",
            Opcode::Add => "add",
            Opcode::Sub => "sub",
            Opcode::Mul => "mul",
            Opcode::Less => "less",
            Opcode::Same => "same",
            Opcode::Row => "row",
            Opcode::Get => "get",
            Opcode::Load => "load",
            Opcode::Store => "store",
            Opcode::Jump => "jump",
            Opcode::JumpZero => "jzero",
            Opcode::Label => "label",
            Opcode::Pin => "pin",
            Opcode::Unpin => "unpin",
            Opcode::New => "new",
            Opcode::Send => "send",
            Opcode::Print => "print",
        }
    }

    fn is_spelled(self, word: &[u8]) -> bool
        ensures { result ≡ bytes_eq (spelling self) word.now }
    {
        self.spelling().as_bytes() == word
    }

    /// The operation of this word, which is looked for in the whole table.
    pub fn spelled(word: &[u8]) -> Option<Opcode>
        ensures { result ≡ find (λ opcode. bytes_eq (spelling opcode) word.now) all_opcodes }
    {
        ALL_OPCODES
            .iter()
            .copied()
            .find(|opcode| opcode.is_spelled(word))
    }

    /// What its operands have to be, in their order.
    pub fn operand_kinds(self) -> &'static [OperandKind]
        ensures { result.now ≡ operand_kinds self }
    {
        match self {
            Opcode::Pin | Opcode::Unpin => &[],
            Opcode::Drop | Opcode::Own | Opcode::Print => &[OperandKind::Register],
            Opcode::Int => &[OperandKind::Register, OperandKind::Number],
            Opcode::Copy | Opcode::Row => &[OperandKind::Register, OperandKind::Register],
            Opcode::Add | Opcode::Sub | Opcode::Mul | Opcode::Less | Opcode::Same => {
                &[
                    OperandKind::Register,
                    OperandKind::Register,
                    OperandKind::Register,
                ]
            }
            Opcode::Get => &[
                OperandKind::Register,
                OperandKind::Register,
                OperandKind::Number,
            ],
            Opcode::Load => &[OperandKind::Register, OperandKind::Field],
            Opcode::Store => &[OperandKind::Field, OperandKind::Register],
            Opcode::Jump | Opcode::Label => &[OperandKind::Name],
            Opcode::JumpZero | Opcode::New | Opcode::Send => {
                &[OperandKind::Register, OperandKind::Name]
            }
        }
    }

    /// How many registers may follow these operands.
    pub fn most_further(self) -> usize
        ensures { result ≡ most_further self }
    {
        match self {
            Opcode::Row => 7,
            Opcode::Send => 8,
            _ => 0,
        }
    }
}
