// Few values in eight fixed places, seen as a list.

ghost use Rattle.std.specs.Prelude.{◌≡◌, ◌+◌, ◌<◌, ◌≤◌, [], ◌∷◌, ◌++◌, length, slice_get, slice_set, replicate, Some};
ghost use Rattle.orca_names.specs.declared.names.Value.TheVariants.{Null};
ghost use Rattle.orca_names.specs.Places.{padded};

use crate::limits::VALUES_LIMIT;
use crate::names::Value;
use std::marker::Model;

/// The arguments of a letter, or the values of an actor's fields: 0 to 8 values, seen as a list.
#[derive(Clone, Copy, Debug, PartialEq, Eq)]
pub struct Args {
    places: [Value; VALUES_LIMIT],
    used: usize,
}

impl Model for Args {
    ghost use Rattle.std.specs.Prelude.{List, length, take};
    ghost use Rattle.std.proofs.Common.{sym};
    ghost use Rattle.orca_names.specs.declared.names.Value as names;
    ghost use Rattle.orca_names.specs.Places.{padded, UsesPlaces, length-take-used};

    ghost Value = { List names.Value };

    ghost view = { λ args. take args.used args.places };

    ghost invariant = { λ args. UsesPlaces args.used args.places };

    ghost inverse = { λ values. record { places = padded values; used = length values } };

    ghost inverse_ok = { λ args kept i. record { places = sym kept.rest i; used = length-take-used args.used args.places kept i } };
}

impl Args {
    /// No values.
    pub fn new() -> Args
        ensures { result ≡ [] }
    {
        Args::nulls(0)
    }

    /// So many nulls.
    pub fn nulls(count: usize) -> Args
        requires { count ≤ 8 }
        ensures { result ≡ replicate count Null }
    {
        Args {
            places: [Value::Null; VALUES_LIMIT],
            used: count,
        }
    }

    /// These values.
    pub fn of(values: &[Value]) -> Args
        requires { length values.now ≤ 8 }
        ensures { result ≡ values.now }
    {
        let mut args = Args::new();
        args.extend_from_slice(values);
        args
    }

    /// One value more, at the end.
    pub fn push(&mut self, value: Value)
        requires { length self.old < 8 }
        ensures { self.new ≡ self.old ++ value ∷ [] }
    {
        let places = &mut self.places;
        places[self.used] = value;
        self.used += 1;
    }

    /// These values more, at the end.
    #[inline(always)]
    pub fn extend_from_slice(&mut self, values: &[Value])
        requires { length self.old + length values.now ≤ 8 }
        ensures { self.new ≡ self.old ++ values.now }
    {
        for value in values {
            self.push(*value);
        }
    }

    /// The number of values.
    pub fn len(&self) -> u64
        ensures count { result ≡ length self.now }
        ensures room { result ≤ 8 }
    {
        self.used as u64
    }

    /// The values, in their order.
    pub fn as_slice(&self) -> &[Value]
        ensures value { result.now ≡ self.now }
        ensures room { length result.now ≤ 8 }
    {
        let places = &self.places;
        &places[..self.used]
    }

    /// All eight places: the values, and null in those that are left.
    pub fn places(&self) -> &[Value]
        ensures value { result.now ≡ padded self.now }
        ensures eight { length result.now ≡ 8 }
    {
        &self.places
    }

    /// Becomes the values of another, in place.
    #[inline(always)]
    pub fn copy_from(&mut self, other: &Args)
        ensures { self.new ≡ other.now }
    {
        let places = &mut self.places;
        places.copy_from_slice(&other.places);
        self.used = other.used;
    }

    /// The value at a place, counted from 0.
    pub fn at(&self, i: u64) -> Value
        requires { i < length self.now }
        ensures { slice_get self.now i ≡ Some result }
    {
        let places = &self.places;
        places[i as usize]
    }

    /// The value at a place, counted from 0, or `None` past the last.
    pub fn get(&self, i: u64) -> Option<Value>
        ensures { result ≡ slice_get self.now i }
    {
        if i < self.len() {
            Some(self.at(i))
        } else {
            None
        }
    }

    /// Writes the value at a place, counted from 0.
    pub fn set(&mut self, i: u64, value: Value)
        requires { i < length self.old }
        ensures { self.new ≡ slice_set self.old i value }
    {
        let places = &mut self.places;
        places[i as usize] = value;
    }
}

/// An object's content, which never changes: 1 to 8 values, seen as a list.
#[derive(Clone, Copy, Debug, PartialEq, Eq)]
pub struct Row {
    values: Args,
}

impl Model for Row {
    ghost use Rattle.std.specs.Prelude.{◌≤◌, List, length};
    ghost use Rattle.orca_names.specs.declared.names.Value as names;

    ghost Value = { List names.Value };

    ghost view = { λ row. row.values };

    ghost invariant = { λ row. (1 ≤ length row.values) × (length row.values ≤ 8) };

    ghost inverse = { λ values. record { values = values } };
}

impl Row {
    /// A row of these values.
    pub fn of(values: &[Value]) -> Row
        requires { (1 ≤ length values.now) × (length values.now ≤ 8) }
        ensures { result ≡ values.now }
    {
        Row {
            values: Args::of(values),
        }
    }

    /// A row of these values.
    pub fn from_args(values: Args) -> Row
        requires { 1 ≤ length values }
        ensures { result ≡ values }
    {
        Row { values }
    }

    /// Becomes a row of these values, in place.
    #[inline(always)]
    pub fn set_values(&mut self, values: &[Value])
        requires { (1 ≤ length values.now) × (length values.now ≤ 8) }
        ensures { self.new ≡ values.now }
    {
        let args = &mut self.values;
        *args = Args::new();
        args.extend_from_slice(values);
    }

    /// The number of values.
    pub fn len(&self) -> u64
        ensures count { result ≡ length self.now }
        ensures room { (1 ≤ result) × (result ≤ 8) }
    {
        self.values.len()
    }

    /// The values, in their order.
    pub fn as_slice(&self) -> &[Value]
        ensures value { result.now ≡ self.now }
        ensures room { (1 ≤ length result.now) × (length result.now ≤ 8) }
    {
        let values = &self.values;
        values.as_slice()
    }

    /// The value at a place, counted from 0.
    pub fn at(&self, i: u64) -> Value
        requires { i < length self.now }
        ensures { slice_get self.now i ≡ Some result }
    {
        self.values.at(i)
    }

    /// The value at a place, counted from 0, or `None` past the last.
    pub fn get(&self, i: u64) -> Option<Value>
        ensures { result ≡ slice_get self.now i }
    {
        self.values.get(i)
    }
}

/// What an actor keeps from one behaviour to the next: its fields, and whether it is pinned.
///
/// A pinned actor is a root: it stands for one that waits for events of the outside.
#[derive(Clone, Copy, Debug, PartialEq, Eq)]
pub struct Fields {
    pub values: Args,
    pub pinned: bool,
}

impl Fields {
    /// Becomes what another actor keeps, in place.
    #[inline(always)]
    pub fn copy_from(&mut self, other: &Fields)
        ensures { self.new ≡ other.now }
    {
        self.values.copy_from(&other.values);
        self.pinned = other.pinned;
    }
}
