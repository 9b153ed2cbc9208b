//! The commands of a script.
ghost use Rattle.std.specs.Prelude.{◌≡◌, ◌∷◌, ◌*◌, ◌<◌, ◌==◌, [], take, Some, None, is_some, IfOk};
ghost use Rattle.std.specs.Option.{option_map_or};
ghost use Rattle.std.specs.List.{slice_split};
ghost use Rattle.ddcmp_pair.specs.Place.{same_bytes};
ghost use Rattle.ddcmp_line.specs.ScriptWords.{is_digit as is_digit_byte};
ghost use Rattle.ddcmp_line.specs.ScriptWords.{end_named as end_of_word};
ghost use Rattle.ddcmp_line.specs.ScriptWords.{number_in as number_of_word};
ghost use Rattle.ddcmp_line.specs.ScriptWords.{bytes_of_digits as bytes_of_word};
ghost use Rattle.ddcmp_line.specs.ScriptWords.{byte_in as byte_of_word, alone};
ghost use Rattle.ddcmp_line.specs.ScriptWords.{command_at as command_of, asked_at, cut_of};
ghost use Rattle.ddcmp_line.specs.ScriptWords.{asked_with, asked_damage, asked_by, asked_in};
ghost use Rattle.ddcmp_line.specs.ScriptWords.{words as words_of, reading_of};
ghost use Rattle.ddcmp_line.specs.ScriptWords.{without_cr as without_cr_of};

use ddcmp_pair::{Bytes, End, Event};
use ddcmp_proto::Memory;
use hex::FromHexError;
use std::alloc::Global;

/// The command of a line of a script.
#[derive(Drop)]
pub enum ScriptCommand {
    /// An event other than an arrival.
    Happens(Event),
    /// The first frame of an end's line arrives at the other end: all of it, or this many bytes.
    Carry(End, Option<u32>),
    /// The first frame of an end's line is dropped.
    Lose(End),
    /// This byte of the first frame, counted from 0, is changed by exclusive or.
    Damage(End, u32, u8),
    /// These bytes arrive at an end.
    Raw(End, Bytes),
    /// All frames on both lines are lost, and both ends settle.
    Settle,
    /// The same, and then the line is repaired by two rounds.
    Recover,
    /// The state of an end is written.
    State(End),
}

/// A parsed line of a script.
#[derive(Drop)]
pub enum ParsedLine {
    /// An empty line, or a comment.
    Skipped,
    Asks(ScriptCommand),
    NoCommand,
    /// A command with a word that isn't hexadecimal.
    NotHex,
}

/// Returns a line without the CR at its end.
#[tactic(auto, unfolding(crate::specs::ScriptWords::without_cr))]
pub fn without_cr(line: &[u8]) -> &[u8]
    ensures { result.now ≡ without_cr_of line.now }
{
    if !line.is_empty() && line[line.len() - 1] == b'\r' {
        &line[..line.len() - 1]
    } else {
        line
    }
}

/// Returns what is before the first blank, and what is after it if there is one.
fn cut(line: &[u8]) -> (&[u8], Option<&[u8]>)
    ensures { slice_split (λ c. c == 32) line.now ≡ result.0.now
        ∷ option_map_or (λ rest. slice_split (λ c. c == 32) rest.now) result.1 [] }
{
    for at in 0..line.len() {
        if line[at] == b' ' {
            return (&line[..at], Some(&line[at + 1..]));
        }
    }
    (line, None)
}

/// Returns whether two words are equal.
fn is_word(word: &[u8], name: &[u8]) -> bool
    ensures { result ≡ same_bytes word.now name.now }
{
    word == name
}

#[tactic(auto, unfolding(crate::specs::ScriptWords::end_named))]
fn end_named(word: &[u8]) -> Option<End>
    ensures { result ≡ end_of_word word.now }
{
    if is_word(word, b"A") {
        Some(End::A)
    } else if is_word(word, b"B") {
        Some(End::B)
    } else {
        None
    }
}

/// The maximum number of digits of a number.
const DIGITS: usize = 5;

/// Returns the number that a word of one to five decimal digits stands for.
#[tactic(auto, unfolding(crate::specs::ScriptWords::number_in))]
fn number_in(word: &[u8]) -> Option<u32>
    ensures { result ≡ number_of_word word.now }
{
    if word.is_empty() || DIGITS < word.len() {
        return None;
    }
    let mut number = 0;
    for i in 0..word.len() {
        let byte = word[i];
        if !is_digit(byte) {
            return None;
        }
        number = number * 10 + (byte - b'0') as u32;
    }
    Some(number)
}

fn is_digit(byte: u8) -> bool
    ensures { result ≡ is_digit_byte byte }
{
    b'0' <= byte && byte <= b'9'
}

/// Decodes a hexadecimal word; returns none if it isn't one.
#[tactic(auto, unfolding(crate::specs::ScriptWords::bytes_of_digits))]
fn bytes_of_digits(alloc: Global, word: &[u8]) -> Result<Option<Bytes>, Memory>
    ensures { IfOk result (λ bytes. bytes ≡ bytes_of_word word.now) }
{
    match hex::decode(alloc, word) {
        Ok(bytes) => Ok(Some(Bytes::new(bytes))),
        Err(FromHexError::OutOfMemory) => Err(Memory),
        Err(_refused) => Ok(None),
    }
}

/// Returns the byte that a word of two hexadecimal digits stands for.
#[tactic(auto, unfolding(crate::specs::ScriptWords::byte_in))]
fn byte_in(word: &[u8]) -> Option<u8>
    ensures { result ≡ byte_of_word word.now }
{
    let mut byte = [0];
    match hex::decode_to_slice(word, &mut byte) {
        Ok(()) => Some(byte[0]),
        Err(_refused) => None,
    }
}

/// Parses a line of one word.
#[tactic(auto, unfolding(crate::specs::ScriptWords::alone))]
fn read_alone(verb: &[u8]) -> ParsedLine
    ensures { result ≡ alone verb.now }
{
    if is_word(verb, b"clear") {
        ParsedLine::Asks(ScriptCommand::Happens(Event::Clear))
    } else if is_word(verb, b"settle") {
        ParsedLine::Asks(ScriptCommand::Settle)
    } else if is_word(verb, b"recover") {
        ParsedLine::Asks(ScriptCommand::Recover)
    } else {
        ParsedLine::NoCommand
    }
}

/// Returns the command of a line with no word after the end.
#[tactic(auto, unfolding(crate::specs::ScriptWords::command_at))]
fn command_at(verb: &[u8], end: End) -> Option<ScriptCommand>
    ensures { result ≡ command_of verb.now end }
{
    if is_word(verb, b"start") {
        Some(ScriptCommand::Happens(Event::Start(end)))
    } else if is_word(verb, b"halt") {
        Some(ScriptCommand::Happens(Event::Halt(end)))
    } else if is_word(verb, b"poll") {
        Some(ScriptCommand::Happens(Event::Poll(end)))
    } else if is_word(verb, b"pass") {
        Some(ScriptCommand::Carry(end, None))
    } else if is_word(verb, b"lose") {
        Some(ScriptCommand::Lose(end))
    } else if is_word(verb, b"expire") {
        Some(ScriptCommand::Happens(Event::Expire(end)))
    } else if is_word(verb, b"take") {
        Some(ScriptCommand::Happens(Event::Take(end)))
    } else if is_word(verb, b"state") {
        Some(ScriptCommand::State(end))
    } else {
        None
    }
}

/// Parses a line of two words; `send` has the empty message then.
#[tactic(auto, unfolding(crate::specs::ScriptWords::asked_at))]
fn read_at(alloc: Global, verb: &[u8], end: End) -> ParsedLine
    ensures { result ≡ asked_at verb.now end }
{
    if is_word(verb, b"send") {
        let nothing = Bytes::new(Vec::new(alloc));
        return ParsedLine::Asks(ScriptCommand::Happens(Event::Send(end, nothing)));
    }
    match command_at(verb, end) {
        Some(command) => ParsedLine::Asks(command),
        None => ParsedLine::NoCommand,
    }
}

/// Parses a line of three words.
#[tactic(auto, unfolding(crate::specs::ScriptWords::asked_with))]
fn read_with(alloc: Global, verb: &[u8], end: End, word: &[u8]) -> Result<ParsedLine, Memory>
    ensures { IfOk result (λ reading. reading ≡ asked_with verb.now end word.now) }
{
    if word.is_empty() {
        return Ok(ParsedLine::NoCommand);
    }
    if is_word(verb, b"cut") {
        return Ok(read_cut(end, number_in(word)));
    }
    let sends = is_word(verb, b"send");
    if !sends && !is_word(verb, b"raw") {
        return Ok(ParsedLine::NoCommand);
    }
    let Some(bytes) = bytes_of_digits(alloc, word)? else {
        return Ok(ParsedLine::NotHex);
    };
    if sends {
        Ok(ParsedLine::Asks(ScriptCommand::Happens(Event::Send(end, bytes))))
    } else {
        Ok(ParsedLine::Asks(ScriptCommand::Raw(end, bytes)))
    }
}

/// Returns the command for a part of a frame, which has at least one byte.
fn read_cut(end: End, number: Option<u32>) -> ParsedLine
    ensures { result ≡ cut_of end number }
{
    match number {
        Some(n) if 0 < n => ParsedLine::Asks(ScriptCommand::Carry(end, Some(n))),
        _ => ParsedLine::NoCommand,
    }
}

/// Parses a line of four words.
#[tactic(auto, unfolding(crate::specs::ScriptWords::asked_damage))]
fn read_damage(verb: &[u8], end: End, number: &[u8], word: &[u8]) -> ParsedLine
    ensures { result ≡ asked_damage verb.now end number.now word.now }
{
    if !is_word(verb, b"damage") || word.is_empty() {
        return ParsedLine::NoCommand;
    }
    let Some(at) = number_in(number) else {
        return ParsedLine::NoCommand;
    };
    match byte_in(word) {
        Some(byte) => ParsedLine::Asks(ScriptCommand::Damage(end, at, byte)),
        None => ParsedLine::NotHex,
    }
}

/// Parses the words after the second.
#[tactic(auto, unfolding(crate::specs::ScriptWords::asked_by, crate::specs::ScriptWords::words))]
fn read_further(alloc: Global, verb: &[u8], end: End, words: &[u8]) -> Result<ParsedLine, Memory>
    ensures { IfOk result (λ reading. reading ≡ asked_by verb.now end (words_of words.now)) }
{
    let (word, rest) = cut(words);
    let Some(rest) = rest else {
        return read_with(alloc, verb, end, word);
    };
    let (byte, rest) = cut(rest);
    if rest.is_some() {
        return Ok(ParsedLine::NoCommand);
    }
    Ok(read_damage(verb, end, word, byte))
}

/// Parses the words of a line.
#[tactic(auto, unfolding(crate::specs::ScriptWords::asked_in, crate::specs::ScriptWords::words))]
fn read_words(alloc: Global, line: &[u8]) -> Result<ParsedLine, Memory>
    ensures { IfOk result (λ reading. reading ≡ asked_in (words_of line.now)) }
{
    let (verb, rest) = cut(line);
    let Some(rest) = rest else {
        return Ok(read_alone(verb));
    };
    let (word, rest) = cut(rest);
    let Some(end) = end_named(word) else {
        return Ok(ParsedLine::NoCommand);
    };
    match rest {
        Some(rest) => read_further(alloc, verb, end, rest),
        None => Ok(read_at(alloc, verb, end)),
    }
}

/// Parses a line.
#[tactic(auto, unfolding(crate::specs::ScriptWords::reading_of))]
pub fn read_line(alloc: Global, line: &[u8]) -> Result<ParsedLine, Memory>
    ensures { IfOk result (λ reading. reading ≡ reading_of line.now) }
{
    if line.is_empty() || line[0] == b'#' {
        return Ok(ParsedLine::Skipped);
    }
    read_words(alloc, line)
}
