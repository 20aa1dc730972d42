// A walk along edges, level by level.

ghost use Rattle.std.specs.Prelude.{◌≡◌, ◌≤◌, ◌∷◌, [], map, length, OnOk};
ghost use Rattle.orca_core.specs.Machine.{NoneIsAway};
ghost use Rattle.why_path.specs.Checks.{is_loose};
ghost use Rattle.why_path.specs.Edges.{lead_of, leads_from, leads_of, leads_of_letters, leads_of_seat};
ghost use Rattle.why_path.specs.Seats.{as_seat};
ghost use Rattle.why_path.specs.Walk.{IsUnderWay, edge_in, reached, reached_from};

use crate::lines::place_of;
use crate::seats::{Seated, seat_of};
use crate::values::{args_of, registers_of, row_left};
use mail_rows::MailRow;
use orca_core::Orca;
use orca_names::{Edge, NoMemory, Reason, Thing, Value, Why};

/// What holds values that lead on.
#[derive(Clone, Copy)]
pub(crate) enum Holder {
    Fields,
    Registers,
    Letter(u64),
    Row,
}

impl Holder {
    // The edge of a place.
    fn edge(&self, i: u8) -> Edge
        ensures { result ≡ edge_in self.now i }
    {
        match self {
            Holder::Fields => Edge::Field(i),
            Holder::Registers => Edge::Register(i),
            Holder::Letter(letter) => Edge::Letter {
                letter: *letter,
                argument: i,
            },
            Holder::Row => Edge::Place(i),
        }
    }
}

/// From where a walk goes on, and to which level.
#[derive(Clone, Copy)]
pub(crate) struct Step {
    pub parent: Thing,
    pub level: u64,
}

/// The lines so far, and the things that were reached last, from which the walk goes on next.
#[derive(Drop)]
pub(crate) struct Walk {
    pub reasons: Vec<Reason>,
    pub next: Vec<Thing>,
}

/// Whether nothing is known that keeps the thing.
pub(crate) fn is_loose(why: &Why) -> bool
    ensures { result ≡ is_loose why.now }
{
    match why {
        Why::Loose => true,
        Why::Pinned => false,
        Why::Frame => false,
        Why::Letter => false,
        Why::By { parent: _, edge: _ } => false,
    }
}

impl Walk {
    // A thing is reached by an edge.
    fn reach(&mut self, step: &Step, edge: Edge, thing: &Thing) -> Result<(), NoMemory>
        requires { IsUnderWay step.now.level self.old }
        ensures lines { OnOk result (self.new.reasons.items
            ≡ map (reached step.now.parent step.now.level ((edge, thing.now) ∷ [])) self.old.reasons.items) }
        ensures next { OnOk result (IsUnderWay step.now.level self.new) }
    {
        let Ok(i) = place_of(self.reasons.as_slice(), thing) else {
            return Ok(());
        };
        if !is_loose(&self.reasons[i].why) {
            return Ok(());
        }
        self.next.push(*thing)?;
        self.reasons[i] = Reason {
            thing: *thing,
            level: step.level,
            why: Why::By {
                parent: step.parent,
                edge,
            },
        };
        Ok(())
    }

    // What a value names is reached, if it names a thing.
    fn reach_value(&mut self, step: &Step, edge: Edge, value: &Value) -> Result<(), NoMemory>
        requires { IsUnderWay step.now.level self.old }
        ensures lines { OnOk result (self.new.reasons.items
            ≡ map (reached step.now.parent step.now.level (lead_of edge value.now)) self.old.reasons.items) }
        ensures next { OnOk result (IsUnderWay step.now.level self.new) }
    {
        match value.thing() {
            Some(thing) => self.reach(step, edge, &thing),
            None => Ok(()),
        }
    }

    // What these values name is reached.
    fn reach_values(
        &mut self,
        step: &Step,
        holder: Holder,
        values: &[Value],
    ) -> Result<(), NoMemory>
        requires few { length values.now ≤ 16 }
        requires next { IsUnderWay step.now.level self.old }
        ensures lines { OnOk result (self.new.reasons.items
            ≡ map (reached step.now.parent step.now.level (leads_from (edge_in holder) 0 values.now))
            self.old.reasons.items) }
        ensures next { OnOk result (IsUnderWay step.now.level self.new) }
    {
        for (i, value) in values.iter().enumerate() {
            self.reach_value(step, holder.edge(i as u8), value)?;
        }
        Ok(())
    }

    // What the arguments of these letters name is reached.
    fn reach_letters(&mut self, step: &Step, mail: &MailRow) -> Result<(), NoMemory>
        requires { IsUnderWay step.now.level self.old }
        ensures lines { OnOk result (self.new.reasons.items
            ≡ map (reached step.now.parent step.now.level (leads_of_letters 0 mail.now.letters))
            self.old.reasons.items) }
        ensures next { OnOk result (IsUnderWay step.now.level self.new) }
    {
        for k in 0..mail.len() {
            self.reach_values(step, Holder::Letter(k), args_of(mail.at(k)))?;
        }
        Ok(())
    }

    // What an actor leads to is reached.
    fn reach_of_seat(&mut self, step: &Step, seat: &Seated<'_>) -> Result<(), NoMemory>
        requires { IsUnderWay step.now.level self.old }
        ensures lines { OnOk result (self.new.reasons.items
            ≡ map (reached step.now.parent step.now.level (leads_of_seat (as_seat seat.now)))
            self.old.reasons.items) }
        ensures next { OnOk result (IsUnderWay step.now.level self.new) }
    {
        self.reach_values(step, Holder::Fields, seat.cell.fields.values.as_slice())?;
        self.reach_values(step, Holder::Registers, registers_of(seat))?;
        self.reach_letters(step, seat.mail)
    }

    // What the parent leads to is reached.
    fn reach_from(&mut self, orca: &Orca<'_>, step: &Step) -> Result<(), NoMemory>
        requires home { NoneIsAway orca.now }
        requires none { orca.now.blocks ≡ [] }
        requires next { IsUnderWay step.now.level self.old }
        ensures lines { OnOk result (self.new.reasons.items
            ≡ map (reached step.now.parent step.now.level (leads_of orca.now.state.actors step.now.parent))
            self.old.reasons.items) }
        ensures next { OnOk result (IsUnderWay step.now.level self.new) }
    {
        match &step.parent {
            Thing::Actor(a) => match seat_of(orca, *a) {
                Some(seat) => self.reach_of_seat(step, &seat),
                None => Ok(()),
            },
            Thing::Obj(n) => {
                self.reach_values(step, Holder::Row, row_left(orca, *n))?;
                let owner = Thing::Actor(n.owner);
                self.reach(step, Edge::Owner, &owner)
            }
        }
    }

    /// What these things lead to is reached, and comes next.
    pub(crate) fn reach_level(
        &mut self,
        orca: &Orca<'_>,
        front: &[Thing],
        level: u64,
    ) -> Result<(), NoMemory>
        requires home { NoneIsAway orca.now }
        requires none { orca.now.blocks ≡ [] }
        requires next { IsUnderWay level self.old }
        ensures lines { OnOk result (self.new.reasons.items
            ≡ map (reached_from orca.now.state.actors level front.now) self.old.reasons.items) }
        ensures next { OnOk result (IsUnderWay level self.new) }
    {
        for parent in front {
            let step = Step {
                parent: *parent,
                level,
            };
            self.reach_from(orca, &step)?;
        }
        Ok(())
    }
}
