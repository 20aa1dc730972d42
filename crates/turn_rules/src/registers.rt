// The registers of a frame.

ghost use Rattle.std.specs.Prelude.{◌≡◌, ◌≤◌, ◌-◌, ◌++◌, length, replicate, slice_index_or, slice_set};
ghost use Rattle.orca_names.specs.declared.names.Value.TheVariants.{Null};

use orca_names::{Args, REGISTERS, VALUES_LIMIT, Value};
use std::marker::Model;

/// The sixteen registers of a frame, seen as a list.
#[derive(Clone, Copy, Debug, PartialEq, Eq)]
pub struct RegisterFile {
    places: [Value; REGISTERS],
}

impl Model for RegisterFile {
    ghost use Rattle.std.specs.Prelude.{◌≡◌, List, length};
    ghost use Rattle.orca_names.specs.declared.names.Value as names;

    ghost Value = { List names.Value };

    ghost view = { λ r. r.places };

    ghost invariant = { λ r. length r.places ≡ 16 };

    ghost inverse = { λ values. record { places = values } };
}

impl RegisterFile {
    /// The registers with which a behaviour starts: its arguments, and null in all others.
    pub fn of(args: &Args) -> RegisterFile
        ensures { result ≡ args.now ++ replicate (16 - length args.now) Null }
    {
        let mut places = [Value::Null; REGISTERS];
        let values = args.as_slice();
        for (i, value) in values.iter().enumerate() {
            places[i] = *value;
        }
        RegisterFile { places }
    }

    /// Sixteen nulls.
    pub fn nulls() -> RegisterFile
        ensures { result ≡ replicate 16 Null }
    {
        RegisterFile {
            places: [Value::Null; REGISTERS],
        }
    }

    /// The registers with which a behaviour starts, in place: its arguments, then nulls.
    pub fn start(&mut self, args: &Args)
        ensures { self.new ≡ args.now ++ replicate (16 - length args.now) Null }
    {
        let (first, rest) = self.places.split_at_mut(VALUES_LIMIT);
        first.copy_from_slice(args.places());
        rest.copy_from_slice(&[Value::Null; REGISTERS - VALUES_LIMIT]);
    }

    /// What a register holds, null past the last.
    pub fn read(&self, r: u64) -> Value
        ensures { result ≡ slice_index_or self.now r Null }
    {
        let places = &self.places;
        if r < REGISTERS as u64 {
            places[r as usize]
        } else {
            Value::Null
        }
    }

    /// Writes a register; past the last nothing is written.
    pub fn write(&mut self, r: u64, value: Value)
        ensures { self.new ≡ slice_set self.old r value }
    {
        let places = &mut self.places;
        if r < REGISTERS as u64 {
            places[r as usize] = value;
        }
    }

    /// The values, in the order of the registers.
    pub fn as_slice(&self) -> &[Value]
        ensures value { result.now ≡ self.now }
        ensures sixteen { length result.now ≡ 16 }
    {
        &self.places
    }
}
