// The command that the words are read by.

ghost use Rattle.std.specs.Prelude.{◌≡◌, false, IfOk};
ghost use Rattle.clap.specs.Words.{app_of, rule_of, with_rule};
ghost use Rattle.clap.specs.declared.builder.command.Command.TheViews.{out-Command};
ghost use Rattle.word_line.specs.Commands.{base_line, command_line, count_rule, flag_rule, load_line, option_rule, run_line, with_line, with_options, why_line};

use clap::{Arg, ArgAction, Command};
use std::alloc::{AllocError, Global};

/// An option with a value.
fn option<'a>(alloc: Global, name: &'a str) -> Arg<'a>
    ensures rule { rule_of result ≡ option_rule name.entry.now }
    ensures global { result.global ≡ false }
{
    Arg::new(alloc, name).long(name).action(ArgAction::Set)
}

/// An option without a value.
fn flag<'a>(alloc: Global, name: &'a str) -> Arg<'a>
    ensures rule { rule_of result ≡ flag_rule name.entry.now }
    ensures global { result.global ≡ false }
{
    Arg::new(alloc, name).long(name).action(ArgAction::SetTrue)
}

/// The word of `load` that stands by itself.
fn count<'a>(alloc: Global) -> Arg<'a>
    ensures rule { rule_of result ≡ count_rule }
    ensures global { result.global ≡ false }
{
    Arg::new(alloc, "count")
        .action(ArgAction::Set)
        .required(true)
}

/// The command with one more argument.
#[tactic(auto, using(crate::proofs::Numbers::none_global))]
fn with_arg<'a>(command: Command<'a>, arg: Arg<'a>) -> Result<Command<'a>, AllocError>
    requires { ((out-Command command).has_globals ≡ false) × (arg.global ≡ false) }
    ensures app { IfOk result (λ c.
        app_of c ≡ with_rule (app_of command.entry) (rule_of arg.entry)) }
    ensures globals { IfOk result (λ c. (out-Command c).has_globals ≡ false) }
{
    command.arg(arg)
}

/// The command with the options of a run too.
fn with_options<'a>(alloc: Global, command: Command<'a>) -> Result<Command<'a>, AllocError>
    requires { (out-Command command).has_globals ≡ false }
    ensures app { IfOk result (λ c. app_of c ≡ with_options (app_of command.entry)) }
    ensures globals { IfOk result (λ c. (out-Command c).has_globals ≡ false) }
{
    let command = with_arg(command, option(alloc, "workers"))?;
    let command = with_arg(command, option(alloc, "budget"))?;
    let command = with_arg(command, flag(alloc, "counts"))?;
    let command = with_arg(command, flag(alloc, "book"))?;
    let command = with_arg(command, option(alloc, "weight"))?;
    let command = with_arg(command, option(alloc, "trace"))?;
    with_arg(command, option(alloc, "rows"))
}

/// The subcommand `run` with its options.
fn run_command<'a>(alloc: Global) -> Result<Command<'a>, AllocError>
    ensures app { IfOk result (λ c. app_of c ≡ run_line) }
    ensures globals { IfOk result (λ c. (out-Command c).has_globals ≡ false) }
{
    with_options(alloc, Command::new(alloc, "run"))
}

/// The subcommand `load` with its number and its options.
fn load_command<'a>(alloc: Global) -> Result<Command<'a>, AllocError>
    ensures app { IfOk result (λ c. app_of c ≡ load_line) }
    ensures globals { IfOk result (λ c. (out-Command c).has_globals ≡ false) }
{
    let load = with_arg(Command::new(alloc, "load"), count(alloc))?;
    with_options(alloc, load)
}

/// The subcommand `why` with its options.
fn why_command<'a>(alloc: Global) -> Result<Command<'a>, AllocError>
    ensures app { IfOk result (λ c. app_of c ≡ why_line) }
    ensures globals { IfOk result (λ c. (out-Command c).has_globals ≡ false) }
{
    let why = with_arg(Command::new(alloc, "why"), option(alloc, "budget"))?;
    with_arg(why, option(alloc, "weight"))
}

/// The command with one more subcommand.
fn with_line<'a>(command: Command<'a>, line: Command<'a>) -> Result<Command<'a>, AllocError>
    requires { (out-Command line).has_globals ≡ false }
    ensures { IfOk result (λ c. app_of c ≡ with_line (app_of command.entry) (app_of line.entry)) }
{
    command.subcommand(line)
}

/// The command without its subcommands; it has no help and no version.
fn base_command<'a>(alloc: Global) -> Command<'a>
    ensures app { app_of result ≡ base_line }
    ensures globals { (out-Command result).has_globals ≡ false }
{
    Command::new(alloc, "pony_cli")
        .no_binary_name(true)
        .disable_help_flag(true)
        .disable_help_subcommand(true)
}

pub(crate) fn command<'a>(alloc: Global) -> Result<Command<'a>, AllocError>
    ensures { IfOk result (λ c. app_of c ≡ command_line) }
{
    let command = with_line(base_command(alloc), run_command(alloc)?)?;
    let command = with_line(command, load_command(alloc)?)?;
    let command = with_line(command, Command::new(alloc, "audit"))?;
    with_line(command, why_command(alloc)?)
}
