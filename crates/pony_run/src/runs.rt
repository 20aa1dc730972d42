// A checked program is run, by one worker or by several, and its report is written.

ghost use Rattle.std.specs.Prelude.{◌≡◌, ◌≢◌, ◌≤◌, [], IfOk, None, unwrap_or};
ghost use Rattle.block_table.specs.Blocks.{free_blocks};
ghost use Rattle.row_blocks.specs.Blocks.{MayPutEach};
ghost use Rattle.row_store.specs.Vectors.{places_in};
ghost use Rattle.word_line.specs.declared.order.TheConstants.{MOST_ROWS};
ghost use Rattle.orca_core.specs.Machine.{Stand};
ghost use Rattle.report_text.specs.Ends.{IsEnd};
ghost use Rattle.word_line.specs.Orders.{IsInRange};
ghost use Rattle.pony_run.specs.Inner.{IsAnswerOf, IsUnderWay, RunAnswers, WritesReport};
ghost use Rattle.job_input.specs.Streams.{sides};

use crate::reporting::report_of_run;
use crate::working::run_in;
use crate::writing::write_text;
use behaviour_check::Checked;
use orca_core::Orca;
use orca_names::NoMemory;
use outside_world::{Gate, Sink};
use quiet_pass::{End, finish};
use report_text::Status;
use row_store::{BLOCK_WORDS, NoBlocks, RowWords};
use run_book::Book;
use std::alloc::Global;
use std::sync::Wait;
use std::thread::Threads;
use word_line::Order;

/// What a call answers: its status, and the book of the run, or the one that was read for an audit. It is
/// empty where no run began and no book was read.
#[derive(Debug, Drop)]
pub struct Outcome {
    pub status: Status,
    pub book: Book,
}

/// Writes the report of a run that ended so, whole in memory before its first write, and answers
/// how the call ends.
fn write_report<K: Sink>(
    alloc: Global,
    order: &Order,
    code: &Checked,
    orca: &Orca<'_>,
    book: &Book,
    end: Status,
    sink: &mut K,
) -> Status
    requires end { IsEnd end }
    requires range { IsInRange order.now }
    requires run { IsUnderWay order.now code.now orca.now book.now }
    ensures { WritesReport end order.now book.now orca.now.state
        (sides K.written K.faults sink.old sink.new) result }
{
    match report_of_run(alloc, order, code, orca, book, &end) {
        Ok(text) => write_text(&text, end, sink),
        Err(NoMemory) => Status::NoMemory,
    }
}

/// How a call ends whose run ended so, if its report is written; want of memory has none.
fn answer_of(end: End) -> Option<Status>
    ensures { IsAnswerOf end result }
{
    match end {
        End::Quiet => Some(Status::Quiet),
        End::Budget => Some(Status::Budget),
        End::Full { actor } => Some(Status::ActorsFull { actor }),
        End::NoRows { actor } => Some(Status::RowsFull { actor }),
        End::NoMemory => None,
    }
}

/// Takes a run to its end by one worker, and writes its report. The words hold the rows that lie in blocks.
fn end_run<W: RowWords, K: Sink>(
    alloc: Global,
    order: &Order,
    code: &Checked,
    orca: Orca<'_>,
    book: Book,
    words: &mut W,
    sink: &mut K,
) -> Outcome
    requires range { IsInRange order.now }
    requires run { IsUnderWay order.now code.now orca book }
    requires stand { Stand (W.known words.old) orca }
    requires put { MayPutEach orca.blocks (W.places words.old) }
    ensures { RunAnswers order.now code.now
        (sides K.written K.faults sink.old sink.new) result.book result.status }
{
    let mut orca = orca;
    let mut book = book;
    let end = finish(alloc, &mut orca, &mut book, order.budget, words);
    let Some(answer) = answer_of(end) else {
        return Outcome {
            status: Status::NoMemory,
            book,
        };
    };
    let status = write_report(alloc, order, code, &orca, &book, answer, sink);
    Outcome { status, book }
}

/// The answer of a call whose run has not begun for want of memory.
fn starve(alloc: Global, order: &Order) -> Outcome
    requires { IsInRange order.now }
    ensures status { result.status ≡ Status.NoMemory }
    ensures book { result.book ≡ record {
      entries = [];
      spare = 0;
      weight = order.now.weight;
      trace = order.now.trace;
    } }
{
    Outcome {
        status: Status::NoMemory,
        book: Book::new(alloc, order.weight, order.trace),
    }
}

/// Begins a run of a checked program, takes it to its end by one worker, and writes its report. The words
/// are those of the blocks that the order asks for.
#[tactic(auto, using(crate::proofs::Running::no_entry_yet))]
fn run_over<W: RowWords, K: Sink>(
    alloc: Global,
    order: &Order,
    code: &Checked,
    words: &mut W,
    sink: &mut K,
) -> Outcome
    requires range { IsInRange order.now }
    requires put { MayPutEach (free_blocks (unwrap_or order.now.rows 0)) (W.places words.old) }
    ensures { RunAnswers order.now code.now (sides K.written K.faults sink.old sink.new)
        result.book result.status }
{
    match Orca::start(alloc, code, order.weight, order.rows, order.trace) {
        Ok(orca) => {
            let book = Book::new(alloc, order.weight, order.trace);
            end_run(alloc, order, code, orca, book, words, sink)
        }
        Err(_) => starve(alloc, order),
    }
}

/// As many words as so many blocks have.
fn words_for(alloc: Global, blocks: u32) -> Result<Vec<u64>, NoMemory>
    requires { blocks ≤ MOST_ROWS }
    ensures { IfOk result (λ words. MayPutEach (free_blocks blocks) (places_in words.items)) }
{
    Ok(vec![in alloc; 0u64; BLOCK_WORDS as usize * blocks as usize]?)
}

/// Runs a checked program by one worker, and writes its report.
pub(crate) fn run_by_one<K: Sink>(
    alloc: Global,
    order: &Order,
    code: &Checked,
    sink: &mut K,
) -> Outcome
    requires { IsInRange order.now }
    ensures { RunAnswers order.now code.now (sides K.written K.faults sink.old sink.new)
        result.book result.status }
{
    let Some(blocks) = order.rows else {
        return run_over(alloc, order, code, &mut NoBlocks::default(), sink);
    };
    match words_for(alloc, blocks) {
        Ok(mut words) => run_over(alloc, order, code, &mut words, sink),
        Err(NoMemory) => starve(alloc, order),
    }
}

/// Runs a checked program by several workers, one of whom ends the run, and writes its report.
#[tactic(auto, using(crate::proofs::Running::runs_without))]
fn run_by_several<R: AllocGlobal + Threads + Wait + Sync, K: Sink, G: Gate + Sync>(
    rt: &R,
    order: &Order,
    code: &Checked,
    sink: &mut K,
    gate: &G,
) -> Outcome
    requires range { IsInRange order.now }
    requires several { order.now.workers ≢ 1 }
    requires rows { order.now.rows ≡ None }
    ensures { RunAnswers order.now code.now (sides K.written K.faults sink.old sink.new)
        result.book result.status }
{
    match run_in(rt, order, code, gate) {
        Ok((orca, book)) => {
            let words = &mut NoBlocks::default();
            end_run(rt.alloc(), order, code, orca, book, words, sink)
        }
        Err(NoMemory) => starve(rt.alloc(), order),
    }
}

/// Runs a checked program by as many workers as the order says, or by one where its rows are to lie in
/// blocks, and writes its report.
pub(crate) fn run_checked<R: AllocGlobal + Threads + Wait + Sync, K: Sink, G: Gate + Sync>(
    rt: &R,
    order: &Order,
    code: &Checked,
    sink: &mut K,
    gate: &G,
) -> Outcome
    requires { IsInRange order.now }
    ensures { RunAnswers order.now code.now (sides K.written K.faults sink.old sink.new)
        result.book result.status }
{
    if order.workers == 1 || order.rows.is_some() {
        run_by_one(rt.alloc(), order, code, sink)
    } else {
        run_by_several(rt, order, code, sink, gate)
    }
}
