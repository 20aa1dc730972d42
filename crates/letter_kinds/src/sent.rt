// Arguments that are sent.

ghost use Rattle.std.specs.Prelude.{◌≡◌, [], IfOk};

use orca_names::{Args, NoMemory};
use std::alloc::Global;
use std::marker::Model;

/// The arguments of a letter, in memory of their own: a letter moves more often than they are read,
/// and they are large. Contracts see the values.
#[derive(Debug, Drop)]
pub struct SentArgs {
    args: Box<Args>,
}

impl Model for SentArgs {
    ghost use Rattle.std.specs.Prelude.{List};
    ghost use Rattle.orca_names.specs.declared.names.Value as names;

    ghost Value = { List names.Value };

    ghost view = { λ sent. sent.args.value };
}

impl SentArgs {
    /// No values, in memory for any that are sent.
    ///
    /// # Errors
    /// `NoMemory` where memory was refused.
    #[inline(never)]
    pub fn new(alloc: Global) -> Result<SentArgs, NoMemory>
        ensures { IfOk result (λ sent. sent ≡ []) }
    {
        let args = Box::new(alloc, Args::new())?;
        Ok(SentArgs { args })
    }

    /// The values.
    #[inline(always)]
    pub fn as_args(&self) -> &Args
        ensures { result.now ≡ self.now }
    {
        &self.args
    }

    /// Becomes these values, in place.
    #[inline(always)]
    pub fn copy_from(&mut self, args: &Args)
        ensures { self.new ≡ args.now }
    {
        self.args.copy_from(args);
    }
}
