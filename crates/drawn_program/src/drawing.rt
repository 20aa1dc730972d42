// Programs that are drawn by lot, as texts.

use orca_names::NoMemory;
use std::alloc::Global;

/// The places of a text that are drawn by lot, each a letter that no other place has.
const REGISTERS: &[&str] = &["r1", "r2", "r3", "r4", "r5", "r6", "r7", "r8"];

const FIELDS: &[&str] = &["f0", "f1"];

const PLACES: &[&str] = &["0", "1", "2"];

const KINDS: &[&str] = &["Main", "A", "B"];

/// Some stand twice, so that they come more often.
const INSTRUCTIONS: &[&str] = &[
    "self R\n",
    "copy R R\n",
    "drop R\n",
    "row R R\n",
    "row R R R\n",
    "row R R R\n",
    "get r8 R P\nprint r8\n",
    "get r8 R P\nprint r8\n",
    "get r8 R P\nprint r8\n",
    "load R F\n",
    "store F R\n",
    "store F R\n",
    "new R K\n",
    "new R K\n",
    "send R step r0 R R R\n",
    "send R step r0 R R R\n",
    "send R step r0 R R R\n",
    "send R keep R\n",
    "send R keep R\n",
    "send R nothing R\n",
    "pin\n",
    "unpin\n",
];

/// The first turn. Its letters say how often letters may follow one another.
const START: &str =
    "kind Main 2\non start 0\nself r1\nnew r2 A\nnew r3 B\nrow r4 r1 r2\nrow r5 r4\nint r0 6\nIIIIIIsend r2 step r0 r3 r4 r5\nsend r3 step r0 r2 r5 r4\nsend r2 keep r3\nsend r3 keep r2\nend\n";

/// The other behaviours of each kind.
const STEP: &str =
    "on step 4\njzero r0 done\nint r15 1\nsub r0 r0 r15\nload r4 f0\nload r5 f1\nself r6\nrow r7 r1 r6\nget r8 r2 0\nprint r8\nIIIIIIIIlabel done\nend\non keep 1\nstore f0 r0\nend\n";

/// A row of numbers, which its first one determines.
#[derive(Clone, Copy, Debug)]
pub struct Lot(pub u64);

impl Lot {
    /// One of these texts; an empty one where there are none.
    pub fn draw(&mut self, texts: &[&'static str]) -> &'static str {
        self.0 = self
            .0
            .wrapping_mul(6364136223846793005)
            .wrapping_add(1442695040888963407);
        let at = (self.0 >> 33) as usize % texts.len().max(1);
        match texts.get(at) {
            Some(text) => *text,
            None => "",
        }
    }
}

/// Adds an instruction.
fn add_instruction(out: &mut String, lot: &mut Lot) -> Result<(), NoMemory> {
    for c in lot.draw(INSTRUCTIONS).chars() {
        match c {
            'R' => out.push_str(lot.draw(REGISTERS))?,
            'F' => out.push_str(lot.draw(FIELDS))?,
            'P' => out.push_str(lot.draw(PLACES))?,
            'K' => out.push_str(lot.draw(KINDS))?,
            _ => out.push(c)?,
        }
    }
    Ok(())
}

/// Adds a text, where each I stands for an instruction.
fn add(out: &mut String, lot: &mut Lot, text: &str) -> Result<(), NoMemory> {
    for c in text.chars() {
        if c == 'I' {
            add_instruction(out, lot)?;
        } else {
            out.push(c)?;
        }
    }
    Ok(())
}

/// A program that keeps the checker's rules and ends by itself.
///
/// # Errors
/// `NoMemory` where memory was refused.
pub fn program(alloc: Global, lot: &mut Lot) -> Result<String, NoMemory> {
    let mut out = String::new(alloc);
    for text in [START, STEP, "kind A 2\n", STEP, "kind B 2\n", STEP] {
        add(&mut out, lot, text)?;
    }
    Ok(out)
}
