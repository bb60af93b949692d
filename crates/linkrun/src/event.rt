//! The events of a script, and the lines that state them.
ghost use Rattle.std.specs.Prelude.{◌≡◌, ◌≢◌, ◌++◌, ℕ, List, IfOk, OnErr, MatchOption};
ghost use Rattle.linkrun.specs.declared.event.Event.{Event};
ghost use Rattle.linkrun.specs.Line.{IsNumber, IsBytes, Begins, Denotes, DenotesNoWord, DenotesNoNumber, DenotesNoBytes};

use crate::number::parse_number;
use amqp_link::pair::Event as Call;
use amqp_link::{DeliveryTag, Payload};
use line_text::hex::parse_bytes;
use std::alloc::{AllocError, Global};

/// What a line asks of the pair.
#[derive(Drop)]
pub enum Event {
    /// A call: `attach LIMIT`, `grant N`, `send HEX`, `arrive ID`, `cut`, `resume`, `putback`, `handout TAG`,
    /// `settle TAG` or `withdraw TAG`.
    Call(Call),
    /// `show TAG`: what the receiver holds of the delivery of this tag.
    Show(DeliveryTag),
    /// `fate N`: what became of the sender's registration of this number, counted from 0.
    Fate(u32),
}

/// The event that `line`, without its line end, states, or `None` if it states none.
///
/// A word and its argument are separated by exactly one space, so an empty word is no event. Allocates only
/// if the line states an event.
pub fn parse_event(alloc: Global, line: &[u8]) -> Result<Option<Event>, AllocError>
    ensures ok { IfOk result (λ found.
        MatchOption found ((event : Event) → ¬ (Denotes line.now event)) (Denotes line.now)) }
    ensures err { OnErr result ((event : Event) × Denotes line.now event) }
{
    if let Some(event) = event_of_a_word(line) {
        return Ok(Some(event));
    }
    if let Some(event) = event_with_number(line) {
        return Ok(Some(event));
    }
    event_with_bytes(alloc, line)
}

// The event of a line that is a word alone.
fn event_of_a_word(line: &[u8]) -> Option<Event>
    ensures { MatchOption result (DenotesNoWord line.now) (Denotes line.now) }
{
    match line {
        b"cut" => Some(Event::Call(Call::Cut)),
        b"resume" => Some(Event::Call(Call::ResumeNext)),
        b"putback" => Some(Event::Call(Call::PutBackNext)),
        _ => None,
    }
}

// The event of a line with a number.
fn event_with_number(line: &[u8]) -> Option<Event>
    ensures { MatchOption result (DenotesNoNumber line.now) (Denotes line.now) }
{
    if let Some(limit) = number_after(b"attach ", line) {
        return Some(Event::Call(Call::Attach(limit)));
    }
    if let Some(credit) = number_after(b"grant ", line) {
        return Some(Event::Call(Call::Grant(credit)));
    }
    if let Some(id) = number_after(b"arrive ", line) {
        return Some(Event::Call(Call::Arrive(id)));
    }
    number_after(b"fate ", line).map(Event::Fate)
}

// The event of a line with bytes. Allocates only if there is one.
fn event_with_bytes(alloc: Global, line: &[u8]) -> Result<Option<Event>, AllocError>
    ensures ok { IfOk result (λ found.
        MatchOption found (DenotesNoBytes line.now) (Denotes line.now)) }
    ensures err { OnErr result ((event : Event) × Denotes line.now event) }
{
    if let Some(bytes) = bytes_after(alloc, b"send ", line)? {
        return Ok(Some(Event::Call(Call::Send(Payload::from_vec(bytes)?))));
    }
    if let Some(bytes) = bytes_after(alloc, b"handout ", line)? {
        return Ok(Some(Event::Call(Call::HandOut(DeliveryTag::from(bytes)))));
    }
    if let Some(bytes) = bytes_after(alloc, b"settle ", line)? {
        return Ok(Some(Event::Call(Call::Settle(DeliveryTag::from(bytes)))));
    }
    if let Some(bytes) = bytes_after(alloc, b"withdraw ", line)? {
        return Ok(Some(Event::Call(Call::Withdraw(DeliveryTag::from(bytes)))));
    }
    if let Some(bytes) = bytes_after(alloc, b"show ", line)? {
        return Ok(Some(Event::Show(DeliveryTag::from(bytes))));
    }
    Ok(None)
}

// The number after the word and its space.
fn number_after(word: &[u8], line: &[u8]) -> Option<u32>
    ensures { MatchOption result
        ((n : ℕ) → ¬ (Begins word.now (λ text. IsNumber text n) line.now))
        (λ n. Begins word.now (λ text. IsNumber text n) line.now) }
{
    parse_number(text_after(word, line)?)
}

// The bytes after the word and its space. Allocates only if there are some.
fn bytes_after(alloc: Global, word: &[u8], line: &[u8]) -> Result<Option<Vec<u8>>, AllocError>
    ensures ok { IfOk result (λ found. MatchOption found
        ((bytes : List ℕ) → ¬ (Begins word.now (λ text. IsBytes text bytes) line.now))
        (λ bytes. Begins word.now (λ text. IsBytes text bytes.items) line.now)) }
    ensures err { OnErr result
        ((bytes : List ℕ) × Begins word.now (λ text. IsBytes text bytes) line.now) }
{
    match text_after(word, line) {
        Some(text) => parse_bytes(alloc, text),
        None => Ok(None),
    }
}

// The text after the word and its space.
fn text_after<'a>(word: &[u8], line: &'a [u8]) -> Option<&'a [u8]>
    ensures { MatchOption result
        ((rest : List ℕ) → line.now ≢ word.now ++ rest)
        (λ text. line.now ≡ word.now ++ text.now) }
{
    line.strip_prefix(word)
}
