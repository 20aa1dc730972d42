// What holds of the machine at every moment, whatever was done with it.

ghost use Rattle.std.specs.Prelude.{◌<◌};
ghost use Rattle.orca_core.specs.Laws.{ComesToRest, CountsInFewBits, IsExactAtQuiet, IsTracedByRoots, KeepsTheReachable};

use crate::machine::Orca;

// Each looks at the machine, whose invariant then gives the run that led to it.
impl<'a> Orca<'a> {
    /// Nothing that is reachable was ever freed: beside the machine that frees nothing, under the same
    /// choices, prints are equal, what is reachable is left, nothing names what was freed, and counts
    /// balance.
    pub fn keeps_the_reachable(&self)
        ensures { KeepsTheReachable self.now }
    {
        let _ = &self.core;
    }

    /// With root-only tracing its four facts hold: no letter takes from a count what is not there; an idle
    /// actor that did nothing since it collected has just what is marked; what fields, registers and own rows
    /// name is owned or held, with its owner; and each thing that a prefix of letters counts for is counted
    /// after it, or is an own object that a counted one leads to.
    pub fn is_traced_by_roots(&self)
        ensures { IsTracedByRoots self.now }
    {
        let _ = &self.core;
    }

    /// Where no event is enabled, exactly what is reachable is left, cycles of actors included.
    pub fn is_exact_at_quiet(&self)
        ensures { IsExactAtQuiet self.now }
    {
        let _ = &self.core;
    }

    /// Without choices the machine comes to rest: each further event leaves less work to do.
    pub fn comes_to_rest(&self)
        ensures { ComesToRest self.now }
    {
        let _ = &self.core;
    }

    /// No count, and no count that is told of, needs more than 43 bits.
    pub fn counts_in_few_bits(&self)
        ensures { CountsInFewBits self.now }
    {
        let _ = &self.core;
    }

    /// An increment is by at least 1.
    pub fn weight_is_above_zero(&self)
        ensures { 0 < self.now.state.options.weight }
    {
        let _ = &self.core;
    }
}
