// The top call.

ghost use Rattle.std.specs.Prelude.{◌≡◌, ◌≢◌, [], Some, false, map};
ghost use Rattle.report_text.specs.Refusals.{HasRefusal};
ghost use Rattle.word_line.specs.Orders.{IsInRange, order_of};
ghost use Rattle.pony_run.specs.Causes.{Causes, OrderCauses};
ghost use Rattle.pony_run.specs.Headline.{Answers, alone};
ghost use Rattle.pony_run.specs.Inner.{StopsWith};
ghost use Rattle.job_input.specs.Streams.{sides};

use crate::auditing::audit_book;
use crate::runs::{Outcome, run_by_one, run_checked};
use crate::writing::tell;
use job_input::{Begun, begin};
use orca_names::Trace;
use outside_world::{Gate, Sink, Source};
use report_text::Status;
use run_book::Book;
use std::alloc::Global;
use std::sync::Wait;
use std::thread::Threads;
use word_line::{Order, WordErr, read_words};

/// The answer of a call that began no run.
fn idle(alloc: Global, status: Status) -> Outcome
    ensures status { result.status ≡ status }
    ensures book { result.book.entries ≡ [] }
{
    Outcome {
        status,
        book: Book::new(alloc, 256, Trace::Deep),
    }
}

/// Writes the line of a refusal as far as the sink takes it, and answers the refusal.
fn refuse<K: Sink>(alloc: Global, refusal: Status, sink: &mut K) -> Outcome
    requires { HasRefusal refusal }
    ensures { StopsWith refusal (sides K.written K.faults sink.old sink.new)
        result.book result.status }
{
    let status = tell(alloc, refusal, sink);
    idle(alloc, status)
}

/// Ends a call in which nothing begins: writes the line of the refusal as far as the sink takes it, and
/// answers the refusal, or want of memory, with an empty book. For `NoMemory` nothing is written.
pub fn stop<K: Sink>(alloc: Global, answer: Status, sink: &mut K) -> Outcome
    requires { answer ≢ Status.NoMemory → HasRefusal answer }
    ensures { StopsWith answer (sides K.written K.faults sink.old sink.new)
        result.book result.status }
{
    match answer {
        Status::NoMemory => idle(alloc, Status::NoMemory),
        refusal => refuse(alloc, refusal, sink),
    }
}

/// The job of an order given to one worker, by what it answers.
fn run_alone<S: Source, K: Sink>(
    alloc: Global,
    order: &Order,
    source: &mut S,
    sink: &mut K,
) -> Outcome
    requires order { IsInRange order.now }
    requires goes_on { S.ended source.old ≡ false }
    ensures { Answers (Some order.now) (sides S.left S.faults source.old source.new)
        (sides K.written K.faults sink.old sink.new) result.book result.status }
{
    match begin(alloc, order.job, source) {
        Ok(Begun::Run { code }) => run_by_one(alloc, order, &code, sink),
        Ok(Begun::Audit { code, book }) => audit_book(alloc, &code, book, sink),
        Err(answer) => stop(alloc, answer, sink),
    }
}

/// The job of an order, by what it answers.
fn run_job<R: AllocGlobal + Threads + Wait + Sync, S: Source, K: Sink, G: Gate + Sync>(
    rt: &R,
    order: &Order,
    source: &mut S,
    sink: &mut K,
    gate: &G,
) -> Outcome
    requires order { IsInRange order.now }
    requires goes_on { S.ended source.old ≡ false }
    ensures { Answers (Some order.now) (sides S.left S.faults source.old source.new)
        (sides K.written K.faults sink.old sink.new) result.book result.status }
{
    match begin(rt.alloc(), order.job, source) {
        Ok(Begun::Run { code }) => run_checked(rt, order, &code, sink, gate),
        Ok(Begun::Audit { code, book }) => audit_book(rt.alloc(), &code, book, sink),
        Err(answer) => stop(rt.alloc(), answer, sink),
    }
}

/// The call with one worker, whatever the order says of workers, once the words are read: no thread
/// and no lock. The source has not answered its end yet.
pub fn run_single<S: Source, K: Sink>(
    alloc: Global,
    order: &Order,
    source: &mut S,
    sink: &mut K,
) -> Outcome
    requires order { IsInRange order.now }
    requires goes_on { S.ended source.old ≡ false }
    ensures answers { Answers (Some (alone order.now)) (sides S.left S.faults source.old source.new)
        (sides K.written K.faults sink.old sink.new) result.book result.status }
    ensures causes { OrderCauses (alone order.now) (sides S.left S.faults source.old source.new)
        (sides K.written K.faults sink.old sink.new) result.status result.book }
{
    let order = Order {
        workers: 1,
        ..*order
    };
    run_alone(alloc, &order, source, sink)
}

/// The whole call, by what it answers.
fn run_all<R: AllocGlobal + Threads + Wait + Sync, S: Source, K: Sink, G: Gate + Sync>(
    rt: &R,
    words: &[&str],
    source: &mut S,
    sink: &mut K,
    gate: &G,
) -> Outcome
    requires { S.ended source.old ≡ false }
    ensures { Answers (order_of (map (λ word. word.now) words.entry.now))
        (sides S.left S.faults source.old source.new)
        (sides K.written K.faults sink.old sink.new) result.book result.status }
{
    match read_words(rt.alloc(), words) {
        Ok(order) => run_job(rt, &order, source, sink, gate),
        Err(WordErr::BadWords) => refuse(rt.alloc(), Status::BadWords, sink),
        Err(WordErr::NoMemory) => idle(rt.alloc(), Status::NoMemory),
    }
}

/// The program's whole work: reads the words after its name and the source, runs or audits what they
/// give, and writes to the sink. The source has not answered its end yet.
///
/// Several workers run the program together, each in a thread where one can be made, and pass the gate
/// before each segment; then one worker ends the run.
///
/// The first clause says what the call did for the status that it answers, the second one when each
/// status comes. `NoMemory` alone is free: it comes where memory was refused, and nothing is written
/// then.
pub fn run_words<R: AllocGlobal + Threads + Wait + Sync, S: Source, K: Sink, G: Gate + Sync>(
    rt: &R,
    words: &[&str],
    source: &mut S,
    sink: &mut K,
    gate: &G,
) -> Outcome
    requires { S.ended source.old ≡ false }
    ensures answers { Answers (order_of (map (λ word. word.now) words.entry.now))
        (sides S.left S.faults source.old source.new)
        (sides K.written K.faults sink.old sink.new) result.book result.status }
    ensures causes { Causes (order_of (map (λ word. word.now) words.entry.now))
        (sides S.left S.faults source.old source.new)
        (sides K.written K.faults sink.old sink.new) result.status result.book }
{
    run_all(rt, words, source, sink, gate)
}
