// The line of an entry.

ghost use Rattle.std.specs.Prelude.{◌≡◌, ◌≢◌, ◌<◌, ◌^◌, ◌++◌, ℕ, false, MatchOption};
ghost use Rattle.std.specs.Fmt.{decimal};
ghost use Rattle.event_rule.specs.declared.event.Event.{Event as event_type};
ghost use Rattle.run_book.specs.Reading.{IsEntry};

use event_rule::Event;
use itoa::Buffer;
use orca_names::{ActorName, Serial};
use std::str;

/// The number that a text is the one spelling of.
fn number_in(text: &str) -> Option<u64>
    ensures { MatchOption result ((n : ℕ) → n < 2 ^ 64 → text.now ≢ decimal n)
        (λ n. text.now ≡ decimal n) }
{
    match text.parse::<u64>() {
        Ok(number) => {
            if Buffer::new().format(number) == text {
                Some(number)
            } else {
                None
            }
        }
        Err(_) => None,
    }
}

/// The number that bytes are the one spelling of.
pub(crate) fn number_of(word: &[u8]) -> Option<u64>
    ensures { MatchOption result ((n : ℕ) → n < 2 ^ 64 → word.now ≢ decimal n)
        (λ n. word.now ≡ decimal n) }
{
    match str::from_utf8(word) {
        Ok(text) => number_in(text),
        Err(_) => None,
    }
}

/// The token behind these words.
fn token_after(line: &[u8], words: &[u8]) -> Option<u64>
    ensures { MatchOption result ((n : ℕ) → n < 2 ^ 64 → line.now ≢ words.now ++ decimal n)
        (λ n. line.now ≡ words.now ++ decimal n) }
{
    match line.strip_prefix(words) {
        Some(rest) => number_of(rest),
        None => None,
    }
}

/// The actor behind these words.
fn actor_after(line: &[u8], words: &[u8]) -> Option<ActorName>
    ensures { MatchOption result ((n : ℕ) → n < 2 ^ 32 → line.now ≢ words.now ++ decimal n)
        (λ a. line.now ≡ words.now ++ decimal a) }
{
    match token_after(line, words) {
        Some(number) => {
            if number <= u64::from(u32::MAX) {
                Some(ActorName(number as u32))
            } else {
                None
            }
        }
        None => None,
    }
}

/// The entry of a line, where it is no `leave`.
fn lasting_entry_of(line: &[u8]) -> Option<Event>
    ensures { MatchOption result ((e : event_type) → ¬ IsEntry false e line.now)
        (λ e. IsEntry false e line.now) }
{
    if line == b"hear".as_slice() {
        return Some(Event::Hear);
    }
    if line == b"scan".as_slice() {
        return Some(Event::Scan);
    }
    if let Some(actor) = actor_after(line, b"take ") {
        return Some(Event::Take(actor));
    }
    if let Some(actor) = actor_after(line, b"go ") {
        return Some(Event::Go(actor));
    }
    if let Some(actor) = actor_after(line, b"collect ") {
        return Some(Event::Collect(actor));
    }
    if let Some(actor) = actor_after(line, b"block ") {
        return Some(Event::Block(actor));
    }
    match token_after(line, b"reap ") {
        Some(token) => Some(Event::Reap(Serial::of(token))),
        None => None,
    }
}

/// The entry of a line, where `leave` may be one or not.
pub(crate) fn entry_of(leaves: bool, line: &[u8]) -> Option<Event>
    ensures { MatchOption result ((e : event_type) → ¬ IsEntry leaves e line.now)
        (λ e. IsEntry leaves e line.now) }
{
    match lasting_entry_of(line) {
        Some(entry) => Some(entry),
        None => {
            if leaves {
                match actor_after(line, b"leave ") {
                    Some(actor) => Some(Event::Leave(actor)),
                    None => None,
                }
            } else {
                None
            }
        }
    }
}
