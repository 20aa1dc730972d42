// What a turn changes.

ghost use Rattle.std.specs.Prelude.{◌≡◌, ◌+◌, ◌<◌, ◌≤◌, ◌++◌, [], List, Option, length, map, slice_index_or, OnOk, OnErr};
ghost use Rattle.orca_names.specs.declared.names.ObjName.{ObjName as object_name};
ghost use Rattle.orca_names.specs.declared.names.Value as names;
ghost use Rattle.orca_names.specs.declared.names.Value.TheVariants.{Null};
ghost use Rattle.turn_rules.specs.Segment.{number_at, value_at, with_field, with_pinned, with_register, with_row};
ghost use Rattle.turn_step.specs.Turns.{setting_of};
ghost use Rattle.orca_names.specs.declared.limits.TheConstants.{BODY_LIMIT};

use crate::setting::Setting;
use behaviour_code::RowRegisters;
use orca_names::{Args, Fields, NoMemory, ObjName, Row, Serial, Value};
use std::alloc::Global;
use std::marker::Model;
use turn_rules::RegisterFile;

/// What a turn changes, seen by contracts as the definition has it: the registers, the fields with
/// pinned, and the rows made so far. It is room that serves again for the next turn.
#[derive(Debug, Drop)]
pub struct Turn {
    registers: RegisterFile,
    fields: Fields,
    made: Vec<Row>,
}

impl Model for Turn {
    ghost use Rattle.turn_rules.specs.Segment as segment;

    ghost Value = { segment.Turn };

    ghost view = { λ t.
        record { registers = t.registers; fields = t.fields; made = t.made.items } };
}

impl Turn {
    /// Room for a turn. It takes no memory.
    pub fn new(alloc: Global) -> Turn {
        Turn {
            registers: RegisterFile::nulls(),
            fields: Fields {
                values: Args::new(),
                pinned: false,
            },
            made: Vec::new(alloc),
        }
    }

    /// A turn begins with these registers and fields; nothing is made yet.
    pub fn begin(&mut self, registers: &RegisterFile, fields: &Fields)
        ensures { self.new ≡ record { registers = registers.now; fields = fields.now; made = [] } }
    {
        self.registers = *registers;
        self.fields.copy_from(fields);
        self.made.clear();
    }

    /// Nothing is made yet.
    pub fn clear_made(&mut self)
        ensures { self.new ≡ record self.old { made = [] } }
    {
        self.made.clear();
    }

    /// The rows made so far.
    pub fn into_made(self) -> Vec<Row>
        ensures { result.items ≡ self.made }
    {
        let Turn {
            registers: _,
            fields: _,
            made,
        } = self;
        made
    }

    /// The registers.
    pub fn registers(&self) -> &RegisterFile
        ensures { result.now ≡ self.now.registers }
    {
        &self.registers
    }

    /// The fields, with pinned.
    pub fn fields(&self) -> &Fields
        ensures { result.now ≡ self.now.fields }
    {
        &self.fields
    }

    /// The rows made so far, in their order.
    pub fn made(&self) -> &[Row]
        ensures { result.now ≡ self.now.made }
    {
        self.made.as_slice()
    }

    /// What a register holds, null past the last.
    pub fn value(&self, r: u64) -> Value
        ensures { result ≡ value_at self.now r }
    {
        self.registers.read(r)
    }

    /// A register becomes what another holds, null past the last. Each way writes for itself, so that the
    /// value is copied once.
    pub(crate) fn copy(&mut self, d: u64, r: u64)
        ensures { self.new ≡ with_register self.old d (value_at self.old r) }
    {
        match self.registers.as_slice().get(r as usize) {
            Some(value) => {
                let value = *value;
                self.registers.write(d, value)
            }
            None => self.registers.write(d, Value::Null),
        }
    }

    /// A register becomes what a field holds, null past the last.
    pub(crate) fn load(&mut self, d: u64, f: u64)
        ensures { self.new ≡ with_register self.old d (slice_index_or self.old.fields.values f Null) }
    {
        if f < self.fields.values.len() {
            self.registers.write(d, self.fields.values.at(f));
        } else {
            self.registers.write(d, Value::Null);
        }
    }

    /// The values of so many registers.
    pub fn gather(&self, numbers: &[u64]) -> Args
        requires { length numbers.now ≤ 8 }
        ensures { result ≡ map (value_at self.now) numbers.now }
    {
        let mut args = Args::new();
        self.gather_into(numbers, &mut args);
        args
    }

    /// Puts the values of so many registers behind what is there.
    pub fn gather_into(&self, numbers: &[u64], args: &mut Args)
        requires { length args.old + length numbers.now ≤ 8 }
        ensures { args.new ≡ args.old ++ map (value_at self.now) numbers.now }
    {
        for r in numbers {
            // Each way pushes for itself, so that a value is copied once.
            match self.registers.as_slice().get(*r as usize) {
                Some(value) => args.push(*value),
                None => args.push(Value::Null),
            }
        }
    }

    /// Puts a value into a register; past the last nothing is put.
    pub fn put(&mut self, d: u64, value: Value)
        ensures { self.new ≡ with_register self.old d value }
    {
        self.registers.write(d, value);
    }

    /// Stores a value into a field; past the last nothing is stored.
    pub(crate) fn store(&mut self, f: u64, value: Value)
        ensures { self.new ≡ with_field self.old f value }
    {
        if f < self.fields.values.len() {
            self.fields.values.set(f, value);
        }
    }

    /// Pins the actor or unpins it.
    pub(crate) fn set_pinned(&mut self, pinned: bool)
        ensures { self.new ≡ with_pinned self.old pinned }
    {
        self.fields.pinned = pinned;
    }

    /// Makes a row of the values of so many registers, and puts its object into a register.
    ///
    /// # Errors
    /// Where memory is refused, nothing changes.
    pub(crate) fn make_row(
        &mut self,
        setting: &Setting<'_>,
        d: u64,
        values: &RowRegisters,
    ) -> Result<(), NoMemory>
        requires { length self.old.made < BODY_LIMIT }
        ensures ok { OnOk result ((rows : object_name → Option (List names.Value)) →
            self.new ≡ with_row (setting_of setting.now rows) self.old d values.now) }
        ensures err { OnErr result (self.new ≡ self.old) }
    {
        let serial = setting.base + self.made.len() as u64;
        let row = Row::from_args(self.gather(values.as_slice()));
        self.made.push(row)?;
        let name = ObjName {
            owner: setting.me,
            serial: Serial::of(serial),
        };
        self.registers.write(d, Value::Obj(name));
        Ok(())
    }
}
