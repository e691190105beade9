// The event of a script's line.
#![tactic(auto)]

ghost use Rattle.std.specs.Prelude.{◌≡◌};
ghost use Rattle.events.specs.Fields.{fields};
ghost use Rattle.events.specs.Events.{event_of, write_event, read_event, fault_event};

pub mod numbers;
pub mod places;

use numbers::{decimal, hexadecimal, leading_number};

// What a line asks for: 64 equal bytes to be written, a line to be read, or a pattern's word and check to be xored in.
#[derive(Clone, Copy, Debug, PartialEq, Eq)]
pub enum Event {
    Write {
        line: u32,
        byte: u8,
    },
    Read {
        line: u32,
    },
    Fault {
        line: u32,
        chip: u32,
        word: u64,
        check: u8,
    },
}

// The event of a line, its line feed left out, if the line asks for anything that is known.
#[tactic(auto, using(crate::specs::EventLaws::line_rules), unfolding(crate::specs::Events::letter_event))]
pub fn event_of(line: &[u8]) -> Option<Event>
    ensures { result ≡ event_of line.now }
{
    match line {
        [b'w', b' ', fields @ ..] => write_event(fields),
        [b'r', b' ', fields @ ..] => read_event(fields),
        [b'f', b' ', fields @ ..] => fault_event(fields),
        _ => None,
    }
}

// The fields L HH.
fn write_event(rest: &[u8]) -> Option<Event>
    ensures { result ≡ write_event (fields rest.now) }
{
    let (line, field) = leading_number(rest)?;
    let byte = hexadecimal(field, 2)?;
    Some(Event::Write {
        line,
        byte: byte as u8,
    })
}

// The field L.
fn read_event(rest: &[u8]) -> Option<Event>
    ensures { result ≡ read_event (fields rest.now) }
{
    let line = decimal(rest)?;
    Some(Event::Read { line })
}

// The fields L K and a pattern: 18 hexadecimal digits, word then check.
fn fault_event(rest: &[u8]) -> Option<Event>
    ensures { result ≡ fault_event (fields rest.now) }
{
    let (line, rest) = leading_number(rest)?;
    let (chip, pattern) = leading_number(rest)?;
    if pattern.len() != 18 {
        return None;
    }
    let (word, check) = pattern.split_at(16);
    let word = hexadecimal(word, 16)?;
    let check = hexadecimal(check, 2)?;
    Some(Event::Fault {
        line,
        chip,
        word,
        check: check as u8,
    })
}
