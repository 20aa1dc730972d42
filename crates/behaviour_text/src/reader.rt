// What was read so far.

ghost use Rattle.std.specs.Prelude.{◌≡◌, ◌<◌, ◌^◌, ℕ, List, OnOk, IfOk, Some, None, map, length, true};
ghost use Rattle.behaviour_code.specs.Names.{is_name};
ghost use Rattle.behaviour_text.specs.Faults.{words_fault, word_fault};
ghost use Rattle.behaviour_text.specs.Items.{name_place, operand_numbers};
ghost use Rattle.behaviour_text.specs.Reading.{start, place_of, kinds_begun, close_kind, with_kind, with_on, with_end, with_instr, with_item, with_word, with_words, intern_name, IsNamed};
ghost use Rattle.behaviour_text.specs.Table.{shape_fault, fits_count, word_operands};

use crate::errors::FaultKind;
use crate::items::{instruction, name_place, small_at};
use crate::place::{Place, Stage, place_fault};
use crate::table::{COMMENT_MARK, LineWord, line_word, put_numbers, starts_with};
use crate::words::word_at;
use behaviour_code::{Behaviour, Behaviours, Instr, Kind, Name, Names};
use plain_list::Listed;
use std::alloc::{AllocError, Global};
use std::{mem, str};

/// What was read so far: the kinds before the last one, that one, and the behaviour that is begun.
#[derive(Drop)]
pub(crate) struct Reader {
    pub(crate) names: Names,
    pub(crate) kinds: Listed<Kind>,
    pub(crate) stage: Stage,
    pub(crate) kind_name: Name,
    pub(crate) fields: u8,
    pub(crate) behaviours: Listed<Behaviour>,
    pub(crate) behaviour_name: Name,
    pub(crate) parameters: u8,
    pub(crate) body: Listed<Instr>,
}

impl Reader {
    /// Nothing is read. It takes no memory.
    #[tactic(auto, unfolding(crate::specs::Reading::start))]
    pub(crate) fn new(alloc: Global) -> Reader
        ensures { result ≡ start }
    {
        Reader {
            names: Names::new(alloc),
            kinds: Listed::new(alloc),
            stage: Stage::Start,
            kind_name: Name(0),
            fields: 0,
            behaviours: Listed::new(alloc),
            behaviour_name: Name(0),
            parameters: 0,
            body: Listed::new(alloc),
        }
    }

    fn kinds_begun(&self) -> usize
        ensures { result ≡ kinds_begun self.now.stage (length self.now.kinds) }
    {
        let kinds = self.kinds.as_slice();
        match self.stage {
            Stage::Start => kinds.len(),
            _ => kinds.len() + 1,
        }
    }

    /// The place of the next line.
    fn place(&self) -> Place
        ensures { result ≡ place_of self.now }
    {
        Place {
            stage: self.stage,
            kinds: self.kinds_begun(),
            behaviours: self.behaviours.len(),
            instructions: self.body.len(),
        }
    }

    /// Puts the last kind to the others.
    #[tactic(auto, unfolding(crate::specs::Reading::close_kind))]
    pub(crate) fn close_kind(&mut self, alloc: Global) -> Result<(), AllocError>
        ensures { OnOk result (self.new ≡ close_kind self.old) }
    {
        if self.stage == Stage::Start {
            return Ok(());
        }
        let kind = Kind {
            name: self.kind_name,
            fields: self.fields,
            behaviours: Behaviours::from(mem::replace(&mut self.behaviours, Listed::new(alloc))),
        };
        self.kinds.push(kind)
    }

    #[tactic(auto, unfolding(crate::specs::Reading::with_kind))]
    fn begin_kind(&mut self, alloc: Global, name: Name, fields: u8) -> Result<(), AllocError>
        ensures { OnOk result (self.new ≡ with_kind self.old name fields) }
    {
        self.close_kind(alloc)?;
        self.stage = Stage::InKind;
        self.kind_name = name;
        self.fields = fields;
        self.behaviours = Listed::new(alloc);
        Ok(())
    }

    #[tactic(auto, unfolding(crate::specs::Reading::with_on))]
    fn begin_behaviour(&mut self, alloc: Global, name: Name, parameters: u8)
        ensures { self.new ≡ with_on self.old name parameters }
    {
        self.stage = Stage::InBehaviour;
        self.behaviour_name = name;
        self.parameters = parameters;
        self.body = Listed::new(alloc);
    }

    #[tactic(auto, unfolding(crate::specs::Reading::with_end))]
    fn end_behaviour(&mut self, alloc: Global) -> Result<(), AllocError>
        ensures { OnOk result (self.new ≡ with_end self.old) }
    {
        let behaviour = Behaviour {
            name: self.behaviour_name,
            parameters: self.parameters,
            body: mem::replace(&mut self.body, Listed::new(alloc)),
        };
        self.stage = Stage::InKind;
        self.behaviours.push(behaviour)
    }

    #[tactic(auto, unfolding(crate::specs::Reading::with_instr))]
    fn add_instruction(&mut self, instr: Instr) -> Result<(), AllocError>
        ensures { OnOk result (self.new ≡ with_instr self.old instr) }
    {
        self.body.push(instr)
    }

    /// The name of a line, whose text is kept from then on.
    fn name_of(&mut self, word: LineWord, operands: &[&[u8]]) -> Result<Name, AllocError>
        requires few { length self.old.names < 2 ^ 32 }
        requires fits { shape_fault word (map (λ w. w.now) operands.now) ≡ None }
        ensures { IfOk result
            (λ name. IsNamed self.old self.new
            (intern_name self.old.names (name_place word) (map (λ w. w.now) operands.now)) name) }
    {
        match name_place(word) {
            Some(place) => {
                let text = text_of(word_at(operands, place));
                self.names.intern(text)
            }
            None => Ok(Name(0)),
        }
    }

    fn take_item(
        &mut self,
        alloc: Global,
        word: LineWord,
        name: Name,
        numbers: &[u64],
    ) -> Result<(), AllocError>
        requires { fits_count word (length numbers.now) ≡ true }
        ensures { (words : List (List ℕ)) → numbers.now ≡ operand_numbers (word_operands word) words
            → OnOk result (self.new ≡ with_item self.old word name words) }
    {
        match word {
            LineWord::Kind => self.begin_kind(alloc, name, small_at(numbers, 1)),
            LineWord::On => {
                self.begin_behaviour(alloc, name, small_at(numbers, 1));
                Ok(())
            }
            LineWord::End => self.end_behaviour(alloc),
            LineWord::Instr(opcode) => {
                let instr = instruction(alloc, opcode, name, numbers)?;
                self.add_instruction(instr)
            }
        }
    }

    /// Takes a line whose operands have no fault, and say these numbers.
    fn take_fitting(
        &mut self,
        alloc: Global,
        word: LineWord,
        operands: &[&[u8]],
        numbers: &[u64],
    ) -> Result<(), AllocError>
        requires few { length self.old.names < 2 ^ 32 }
        requires fits { shape_fault word (map (λ w. w.now) operands.now) ≡ None }
        requires numbers { numbers.now
            ≡ operand_numbers (word_operands word) (map (λ w. w.now) operands.now) }
        ensures { OnOk result (self.new
            ≡ with_word self.old (Some word) (map (λ w. w.now) operands.now)) }
    {
        let name = self.name_of(word, operands)?;
        self.take_item(alloc, word, name, numbers)
    }

    /// The lowest fault of a line; without one the line is taken.
    fn take_word(
        &mut self,
        alloc: Global,
        numbers: &mut Vec<u64>,
        word: LineWord,
        operands: &[&[u8]],
    ) -> Result<Option<FaultKind>, AllocError>
        requires few { length self.old.names < 2 ^ 32 }
        ensures fault { IfOk result (λ fault. fault
            ≡ word_fault (place_of self.old) (Some word) (map (λ w. w.now) operands.now)) }
        ensures next { IfOk result (λ fault. fault ≡ None
            → self.new ≡ with_word self.old (Some word) (map (λ w. w.now) operands.now)) }
    {
        if let Some(kind) = put_numbers(numbers, word, operands)? {
            return Ok(Some(kind));
        }
        let fault = place_fault(self.place(), word, numbers);
        if fault.is_none() {
            self.take_fitting(alloc, word, operands, numbers)?;
        }
        Ok(fault)
    }

    /// The lowest fault of a line of these words; without one the line is taken. The numbers of its
    /// operands are put into a list that each line uses again.
    #[tactic(auto, unfolding(crate::specs::Reading::with_words, crate::specs::Faults::words_fault))]
    pub(crate) fn take_words(
        &mut self,
        alloc: Global,
        numbers: &mut Vec<u64>,
        words: &[&[u8]],
    ) -> Result<Option<FaultKind>, AllocError>
        requires few { length self.old.names < 2 ^ 32 }
        ensures fault { IfOk result (λ fault. fault
            ≡ words_fault (place_of self.old) (map (λ w. w.now) words.now)) }
        ensures next { IfOk result (λ fault. fault ≡ None
            → self.new ≡ with_words self.old (map (λ w. w.now) words.now)) }
    {
        match words {
            [] => Ok(None),
            [first, operands @ ..] => {
                if starts_with(COMMENT_MARK, first) {
                    return Ok(None);
                }
                match line_word(first) {
                    Some(word) => self.take_word(alloc, numbers, word, operands),
                    None => Ok(Some(FaultKind::UnknownWord)),
                }
            }
        }
    }
}

/// The text of a name.
fn text_of(word: &[u8]) -> &str
    requires { is_name word.now ≡ true }
    ensures { result.now ≡ word.now }
{
    match str::from_utf8(word) {
        Ok(text) => text,
        Err(_) => unreachable!(),
    }
}
