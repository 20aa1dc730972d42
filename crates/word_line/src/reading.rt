// The order that the words give.

ghost use Rattle.std.specs.Prelude.{◌≡◌, ◌≢◌, ◌≤◌, IfOk, IfErr, IfSome, Some, None, map, option_map};
ghost use Rattle.clap.specs.Words.{first_of, found_of, rows_of, subcommand_rows_of};
ghost use Rattle.orca_names.specs.declared.trace.Trace.TheVariants.{Deep};
ghost use Rattle.word_line.specs.Orders.{IsInRange, IsJobInRange, audit_order, budget_in, flag_in, load_with, number_in, option_in, order_in, order_of, order_with, rows_in, trace_in, weight_in, why_with};
ghost use Rattle.word_line.specs.declared.order.WordErr.TheVariants.{BadWords};

use crate::command::command;
use crate::order::{Job, LEAST_WEIGHT, MOST_ROWS, MOST_WEIGHT, Order, WordErr};
use clap::ArgMatches;
use clap::error::ErrorKind;
use load_maker::NODES_LIMIT;
use orca_names::{BOOK_LIMIT, Trace, WORKERS_LIMIT};
use std::alloc::Global;

/// The number that the text is, where it is from `least` to `most`.
fn number_in(text: &str, least: u64, most: u64) -> Option<u64>
    ensures number { result ≡ number_in least most text.now }
    ensures range { IfSome result (λ n. (least ≤ n) × (n ≤ most)) }
{
    match text.parse::<u64>() {
        Ok(number) => {
            if least <= number && number <= most {
                Some(number)
            } else {
                None
            }
        }
        Err(_) => None,
    }
}

/// The text of an option.
fn text_of<'a>(matches: &ArgMatches<'a>, name: &str) -> Option<&'a str>
    ensures { option_map (λ text. text.now) result
        ≡ first_of name.now (rows_of (found_of matches.now)) }
{
    matches.get_str(name)
}

/// The number of an option, from `least` to `most`, or `default` where it is not given.
fn option_in(
    matches: &ArgMatches<'_>,
    name: &str,
    least: u64,
    most: u64,
    default: u64,
) -> Option<u64>
    requires { (least ≤ default) × (default ≤ most) }
    ensures number { result
        ≡ option_in least most default name.now (rows_of (found_of matches.now)) }
    ensures range { IfSome result (λ n. (least ≤ n) × (n ≤ most)) }
{
    match text_of(matches, name) {
        Some(text) => number_in(text, least, most),
        None => Some(default),
    }
}

/// The budget, that of no words where it is not given.
fn budget_in(matches: &ArgMatches<'_>) -> Option<u64>
    ensures number { result ≡ budget_in (rows_of (found_of matches.now)) }
    ensures range { IfSome result (λ n. (1 ≤ n) × (n ≤ BOOK_LIMIT)) }
{
    option_in(matches, "budget", 1, BOOK_LIMIT, Order::default().budget)
}

/// The weight, that of no words where it is not given.
fn weight_in(matches: &ArgMatches<'_>) -> Option<u32>
    ensures number { result ≡ weight_in (rows_of (found_of matches.now)) }
    ensures range { IfSome result (λ n. (LEAST_WEIGHT ≤ n) × (n ≤ MOST_WEIGHT)) }
{
    let weight = u64::from(Order::default().weight);
    let (least, most) = (u64::from(LEAST_WEIGHT), u64::from(MOST_WEIGHT));
    let weight = option_in(matches, "weight", least, most, weight)?;
    Some(weight as u32)
}

/// Whether an option without a value is given.
fn flag_in(matches: &ArgMatches<'_>, name: &str) -> bool
    ensures { result ≡ flag_in name.now (rows_of (found_of matches.now)) }
{
    match text_of(matches, name) {
        Some(text) => text == "true",
        None => false,
    }
}

/// The tracing, deep where it is not given.
fn trace_in(matches: &ArgMatches<'_>) -> Option<Trace>
    ensures { result ≡ trace_in (rows_of (found_of matches.now)) }
{
    match text_of(matches, "trace") {
        Some("deep") => Some(Trace::Deep),
        Some("roots") => Some(Trace::Roots),
        Some(_) => None,
        None => Some(Trace::Deep),
    }
}

/// How many blocks rows lie in, none where it is not given; with it, tracing must be deep.
fn rows_in(matches: &ArgMatches<'_>, trace: Trace) -> Option<Option<u32>>
    ensures rows { result ≡ rows_in trace (rows_of (found_of matches.now)) }
    ensures range { IfSome result (λ rows. IfSome rows (λ n. (1 ≤ n) × (n ≤ MOST_ROWS))) }
    ensures tracing { IfSome result (λ rows. IfSome rows (λ _. trace ≡ Deep)) }
{
    match (text_of(matches, "rows"), trace) {
        (None, _) => Some(None),
        (Some(text), Trace::Deep) => {
            let count = number_in(text, 1, u64::from(MOST_ROWS))?;
            Some(Some(count as u32))
        }
        (Some(_), Trace::Roots) => None,
    }
}

/// The order that the options give for the job, which asks for no reasons.
fn order_with(matches: &ArgMatches<'_>, job: Job) -> Option<Order>
    requires range { IsJobInRange job }
    requires other { job ≢ Job.Why }
    ensures order { result ≡ order_with job (rows_of (found_of matches.now)) }
    ensures range { IfSome result IsInRange }
{
    let workers = u64::from(Order::default().workers);
    let workers = option_in(matches, "workers", 1, u64::from(WORKERS_LIMIT), workers)?;
    let budget = budget_in(matches)?;
    let weight = weight_in(matches)?;
    let trace = trace_in(matches)?;
    let rows = rows_in(matches, trace)?;
    Some(Order {
        job,
        workers: workers as u32,
        budget,
        counts: flag_in(matches, "counts"),
        book: flag_in(matches, "book"),
        weight,
        trace,
        rows,
    })
}

/// The order that the number and the options of `load` give.
fn load_with(matches: &ArgMatches<'_>) -> Option<Order>
    ensures order { result ≡ load_with (rows_of (found_of matches.now)) }
    ensures range { IfSome result IsInRange }
{
    let text = text_of(matches, "count")?;
    let count = number_in(text, 1, u64::from(NODES_LIMIT))? as u32;
    order_with(matches, Job::Load(count))
}

/// The order that the options of `why` give.
fn why_with(matches: &ArgMatches<'_>) -> Option<Order>
    ensures order { result ≡ why_with (rows_of (found_of matches.now)) }
    ensures range { IfSome result IsInRange }
{
    Some(Order {
        job: Job::Why,
        workers: 1,
        budget: budget_in(matches)?,
        weight: weight_in(matches)?,
        ..Order::default()
    })
}

/// The order of `audit`: that of no words, for an audit.
fn audit_order() -> Order
    ensures { result ≡ audit_order }
{
    Order {
        job: Job::Audit,
        ..Order::default()
    }
}

/// The order that the subcommand gives.
fn order_in(matches: &ArgMatches<'_>) -> Option<Order>
    ensures order { result ≡ order_in (subcommand_rows_of matches.now) }
    ensures range { IfSome result IsInRange }
{
    match matches.subcommand() {
        Some(("run", inner)) => order_with(inner, Job::Run),
        Some(("load", inner)) => load_with(inner),
        Some(("audit", _)) => Some(audit_order()),
        Some(("why", inner)) => why_with(inner),
        _ => None,
    }
}

/// As `read_words`, at words that live as long as their list.
#[tactic(auto, unfolding(crate::specs::Orders::order_of))]
fn read_list<'a>(alloc: Global, words: &'a [&'a str]) -> Result<Order, WordErr>
    ensures order { IfOk result (λ order. order_of (map (λ word. word.now) words.entry.now)
        ≡ Some order) }
    ensures bad { IfErr result (λ e. e ≡ BadWords
        → order_of (map (λ word. word.now) words.entry.now) ≡ None) }
    ensures range { IfOk result IsInRange }
{
    if words.is_empty() {
        return Ok(Order::default());
    }
    let Ok(command) = command(alloc) else {
        return Err(WordErr::NoMemory);
    };
    match command.try_get_matches_from(words) {
        Ok(matches) => order_in(&matches).ok_or(WordErr::BadWords),
        Err(error) => match error.kind() {
            ErrorKind::OutOfMemory => Err(WordErr::NoMemory),
            _ => Err(WordErr::BadWords),
        },
    }
}

/// The order that the words after the program's name give. No words read as `run`.
///
/// # Errors
/// `BadWords` exactly where the words have no reading and memory was not refused, `NoMemory` where
/// it was refused.
pub fn read_words(alloc: Global, words: &[&str]) -> Result<Order, WordErr>
    ensures order { IfOk result (λ order. order_of (map (λ word. word.now) words.entry.now)
        ≡ Some order) }
    ensures bad { IfErr result (λ e. e ≡ BadWords
        → order_of (map (λ word. word.now) words.entry.now) ≡ None) }
    ensures range { IfOk result IsInRange }
{
    read_list(alloc, words)
}
