// The first lines: what the picture is of.

ghost use Rattle.std.specs.Prelude.{◌≡◌, ◌++◌, ◌∷◌, [], codes, IfOk, OnOk, map, string_bytes};
ghost use Rattle.behaviour_text.specs.Text.{line_of};
ghost use Rattle.text_lines.specs.Lines.{lines_of};
ghost use Rattle.picture_rules.specs.Words.{text_of_lines};
ghost use Rattle.picture_rules.specs.Pictures.{head_lines, option_lines, text_line, trace_word};

use behaviour_code::Program;
use behaviour_text::print;
use orca_names::{NoMemory, Options, Trace};
use std::alloc::{AllocError, Global};
use text_lines::lines;

/// The line of a tracing.
fn push_trace(out: &mut String, trace: Trace) -> Result<(), AllocError>
    ensures { OnOk result (string_bytes out.new
        ≡ string_bytes out.old ++ line_of (codes "trace" ∷ trace_word trace ∷ [])) }
{
    match trace {
        Trace::Deep => out.push_str("trace deep\n"),
        Trace::Roots => out.push_str("trace roots\n"),
    }
}

/// The lines of what a run chose.
fn push_options(out: &mut String, options: &Options) -> Result<(), AllocError>
    ensures { OnOk result (string_bytes out.new
        ≡ string_bytes out.old ++ text_of_lines (option_lines options.now)) }
{
    write!(out, "picture 1\nweight {}\n", options.weight)?;
    push_trace(out, options.trace)
}

/// The lines of what a run chose, as bytes.
fn option_bytes(alloc: Global, options: &Options) -> Result<Vec<u8>, AllocError>
    ensures { IfOk result (λ bytes. bytes.items ≡ text_of_lines (option_lines options.now)) }
{
    let mut out = String::new(alloc);
    push_options(&mut out, options)?;
    Ok(out.into_bytes())
}

/// Each line of a text behind a word.
fn push_text(alloc: Global, out: &mut Vec<u8>, text: &[u8]) -> Result<(), NoMemory>
    ensures { OnOk result (out.new.items
        ≡ out.old.items ++ text_of_lines (map text_line (lines_of text.now))) }
{
    let spans = lines(alloc, text)?;
    for span in spans.iter() {
        out.extend_from_slice(b"text ")?;
        out.extend_from_slice(&text[span.from..span.to])?;
        out.push(b'\n')?;
    }
    Ok(())
}

/// The lines of the options and of the program.
///
/// # Errors
/// `NoMemory` where memory was refused.
pub fn head(alloc: Global, options: &Options, program: &Program) -> Result<Vec<u8>, NoMemory>
    ensures { IfOk result (λ bytes. bytes.items ≡ text_of_lines (head_lines program.now options.now)) }
{
    let text = print(alloc, program)?;
    let mut out = option_bytes(alloc, options)?;
    push_text(alloc, &mut out, &text)?;
    Ok(out)
}
