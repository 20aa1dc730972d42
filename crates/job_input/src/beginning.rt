// Where nothing begins, and where something does: the input of a job, its program, and its book.

ghost use Rattle.std.specs.Prelude.{◌≡◌, ◌≤◌, ◌<◌, ◌^◌, false, length, vec_len, IfErr, IfOk};
ghost use Rattle.word_line.specs.Orders.{IsJobInRange};
ghost use Rattle.word_line.specs.declared.order.Job.TheVariants.{Audit as audit_job};
ghost use Rattle.behaviour_code.specs.WellFormed.{IsWellFormed};
ghost use Rattle.behaviour_check.specs.Rules.{first_broken};
ghost use Rattle.run_book.specs.Reading.{IsBookText};
ghost use Rattle.job_input.specs.Inputs.{IsInput, RunsProgram};
ghost use Rattle.job_input.specs.Begins.{BreaksRule, GivesBegun, InputStops, IsBegun, IsBookStop, IsReadStop, IsRunnable, IsStop, IsTextStop};
ghost use Rattle.job_input.specs.Streams.{most_bytes, sides};

use behaviour_check::{Checked, check};
use behaviour_code::Program;
use behaviour_text::{TextErr, parse};
use load_maker::program_of;
use orca_names::TEXT_LIMIT;
use outside_world::{ReadErr, Source, read_to_end};
use report_text::Status;
use run_book::{Book, BookErr, read_text, split_at_book};
use std::alloc::Global;
use word_line::Job;

/// One byte more than a text may have: where so many were given, the input is too long.
const MOST_BYTES: usize = TEXT_LIMIT + 1;

/// What a job begins.
#[derive(Drop)]
pub enum Begun {
    /// The run of a program.
    Run { code: Checked },
    /// The audit of a book against a program.
    Audit { code: Checked, book: Book },
}

/// The input of a job: all that the source has left, or the text of the load program.
///
/// # Errors
/// `ReadFault` where the source failed, `NoMemory` where memory was refused.
fn input_of<S: Source>(alloc: Global, job: Job, source: &mut S) -> Result<Vec<u8>, Status>
    requires range { IsJobInRange job }
    requires goes_on { S.ended source.old ≡ false }
    ensures input { IfOk result (λ input. IsInput job
        (sides S.left S.faults source.old source.new) input.items) }
    ensures bounded { IfOk result (λ input. vec_len input ≤ most_bytes) }
    ensures stop { IfErr result (λ stop. IsReadStop stop job
        (sides S.left S.faults source.old source.new)) }
{
    match job {
        Job::Load(count) => match program_of(alloc, count) {
            Ok(text) => Ok(text),
            Err(_) => Err(Status::NoMemory),
        },
        Job::Run | Job::Audit | Job::Why => match read_to_end(alloc, source, MOST_BYTES) {
            Ok(bytes) => Ok(bytes),
            Err(ReadErr::Failed) => Err(Status::ReadFault),
            Err(ReadErr::NoMemory) => Err(Status::NoMemory),
        },
    }
}

/// The program, once it is checked.
///
/// # Errors
/// `BadProgram` where it breaks a rule.
fn check_program(program: Program) -> Result<Checked, Status>
    requires { IsWellFormed program }
    ensures ok { IfOk result (λ code. (code ≡ program) × (first_broken program ≡ None)) }
    ensures stop { IfErr result (λ stop. BreaksRule stop program) }
{
    match check(program) {
        Ok(code) => Ok(code),
        Err(fault) => Err(Status::BadProgram {
            kind: fault.kind,
            behaviour: fault.behaviour,
            step: fault.step,
            rule: fault.rule,
        }),
    }
}

/// The program whose text this is, once it is checked.
///
/// # Errors
/// `BadText` and `BadProgram`, where the text is no program's, or its program breaks a rule; `NoMemory`
/// where memory was refused.
fn program_in(alloc: Global, text: &[u8]) -> Result<Checked, Status>
    requires { length text.now < 2 ^ 32 }
    ensures ok { IfOk result (λ code. IsRunnable text.now code) }
    ensures stop { IfErr result (λ stop. IsTextStop stop text.now) }
{
    match parse(alloc, text) {
        Ok(program) => check_program(program),
        Err(TextErr::Fault { line, kind }) => Err(Status::BadText {
            line,
            kind: kind.number(),
        }),
        Err(TextErr::NoMemory) => Err(Status::NoMemory),
    }
}

/// The book whose text this is.
///
/// # Errors
/// `BadBook` where the text is no book's, `NoMemory` where memory was refused.
fn book_in(alloc: Global, bytes: &[u8]) -> Result<Book, Status>
    ensures ok { IfOk result (IsBookText bytes.now) }
    ensures stop { IfErr result (λ stop. IsBookStop stop bytes.now) }
{
    match read_text(alloc, bytes) {
        Ok(book) => Ok(book),
        Err(BookErr::Fault { line, kind }) => Err(Status::BadBook { line, kind }),
        Err(BookErr::NoMemory) => Err(Status::NoMemory),
    }
}

/// The audit that an input gives: of the book in it, against the program before it.
///
/// # Errors
/// `BadText`, `BadProgram` and `BadBook`, in this order; `NoMemory` where memory was refused.
fn audit_of(alloc: Global, input: &[u8]) -> Result<Begun, Status>
    requires { length input.now < most_bytes }
    ensures ok { IfOk result (IsBegun audit_job input.now) }
    ensures stop { IfErr result (InputStops audit_job input.now) }
{
    let (text, bytes) = split_at_book(input);
    let code = program_in(alloc, text)?;
    let book = book_in(alloc, bytes)?;
    Ok(Begun::Audit { code, book })
}

/// The run that an input gives.
///
/// # Errors
/// `BadText` and `BadProgram`; `NoMemory` where memory was refused.
fn run_of(alloc: Global, job: Job, input: &[u8]) -> Result<Begun, Status>
    requires runs { RunsProgram job }
    requires short { length input.now < most_bytes }
    ensures ok { IfOk result (IsBegun job input.now) }
    ensures stop { IfErr result (InputStops job input.now) }
{
    let code = program_in(alloc, input)?;
    Ok(Begun::Run { code })
}

/// What an input gives to a job.
///
/// # Errors
/// `TooLong` where it is too long, and why else nothing begins.
fn begin_with(alloc: Global, job: Job, input: &[u8]) -> Result<Begun, Status>
    requires { length input.now ≤ most_bytes }
    ensures ok { IfOk result (IsBegun job input.now) }
    ensures stop { IfErr result (InputStops job input.now) }
{
    if input.len() >= MOST_BYTES {
        return Err(Status::TooLong);
    }
    match job {
        Job::Audit => audit_of(alloc, input),
        Job::Run | Job::Load(_) | Job::Why => run_of(alloc, job, input),
    }
}

/// What a job begins.
///
/// # Errors
/// Why nothing begins.
pub fn begin<S: Source>(alloc: Global, job: Job, source: &mut S) -> Result<Begun, Status>
    requires range { IsJobInRange job }
    requires goes_on { S.ended source.old ≡ false }
    ensures ok { IfOk result (GivesBegun job (sides S.left S.faults source.old source.new)) }
    ensures stop { IfErr result (λ stop. IsStop stop job
        (sides S.left S.faults source.old source.new)) }
{
    let input = input_of(alloc, job, source)?;
    begin_with(alloc, job, &input)
}
