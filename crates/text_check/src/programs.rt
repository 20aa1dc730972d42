// The programs of texts.

ghost use Rattle.std.specs.Prelude.{IfOk};
ghost use Rattle.behaviour_code.specs.WellFormed.{IsWellFormed};

use behaviour_code::Program;
use behaviour_text::parse;
use orca_names::TEXT_LIMIT;
use std::alloc::Global;
use std::test::Fail;

/// The program of a text.
pub fn program(alloc: Global, text: &str) -> Result<Program, Fail>
    ensures { IfOk result IsWellFormed }
{
    if text.len() > TEXT_LIMIT {
        return Err(Fail::from("the text is too long"));
    }
    Ok(parse(alloc, text.as_bytes())?)
}
