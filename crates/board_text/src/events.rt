ghost use Rattle.std.specs.Prelude.{◌≡◌, ℕ, ◌^◌, ◌<◌, ◌++◌, Err, IfOk, IfSome, IsSome, List, Some, true, decimal, length};
ghost use Rattle.std.specs.IoError.{error_kind};
ghost use Rattle.board_text.specs.declared.events.ListFault.TheVariants.{Line, Memory};
ghost use Rattle.board_text.specs.Faults.{kind_of};
ghost use Rattle.history.specs.declared.call.Call.{Call as Called};
ghost use Rattle.board_text.specs.Lists.{Justified, is_plain, NoCallAt, letter_of, line_of, lines_of, route_of};

use history::call::{Answer, Call, Event};
use std::alloc::{AllocFailed, Global};
use std::{io, str};

// Why a file gives no list of calls.
#[derive(Clone, Copy, PartialEq, Eq, Debug)]
pub enum ListFault {
    // The line of this number, from 1, has no call.
    Line(usize),
    // There is no memory for the list.
    Memory,
}

impl From<AllocFailed<Event>> for ListFault {
    ghost from_gives = { λ _ fault. fault ≡ Memory };

    fn from(_error: AllocFailed<Event>) -> ListFault {
        ListFault::Memory
    }
}

impl From<ListFault> for io::Error {
    ghost from_gives = { λ fault error. error_kind error ≡ kind_of fault };

    fn from(fault: ListFault) -> io::Error {
        let kind = match fault {
            ListFault::Line(_) => io::ErrorKind::InvalidData,
            ListFault::Memory => io::ErrorKind::OutOfMemory,
        };
        io::Error::from(kind)
    }
}

// The calls of a file. Each stands as an event that was done, until a board writes its answer.
pub fn list_of(heap: Global, bytes: &[u8]) -> Result<Vec<Event>, ListFault>
    ensures ok { IfOk result (λ events. bytes.now ≡ lines_of events.items) }
    ensures err { (number : ℕ) → result ≡ Err (Line number) → NoCallAt number bytes.now }
{
    let mut events = Vec::new(heap);
    let mut rest = bytes;
    while !rest.is_empty() {
        let Some((call, after)) = first_call(rest) else {
            return Err(ListFault::Line(events.len() + 1));
        };
        events.push(Event {
            call,
            answer: Answer::Done,
        })?;
        rest = after;
    }
    Ok(events)
}

// The call of the first line, and the bytes after it. Every line has seven bytes.
fn first_call(bytes: &[u8]) -> Option<(Call, &[u8])>
    ensures only { IfSome result (λ p. bytes.now ≡ line_of p.0 ++ p.1.now) }
    ensures every { (c : Called) (after : List ℕ) → route_of c < 100000 → bytes.now ≡ line_of c ++ after → IsSome result }
{
    let (line, after) = bytes.split_at_checked(7)?;
    Some((call_of(line)?, after))
}

// The call of a line. A claim has the route 0.
fn call_of(line: &[u8]) -> Option<Call>
    requires { length line.now ≡ 7 }
    ensures only { IfSome result (λ c. line.now ≡ line_of c) }
    ensures every { (c : Called) → route_of c < 2 ^ 64 → line.now ≡ line_of c → result ≡ Some c }
{
    let [letter, columns @ .., b'\n'] = line else {
        return None;
    };
    call_by(*letter, number_in(columns)?)
}

// The call of a letter and a route.
fn call_by(letter: u8, route: usize) -> Option<Call>
    ensures only { IfSome result (λ c. (letter ≡ letter_of c) × (route ≡ route_of c)) }
    ensures every { (c : Called) → letter ≡ letter_of c → route ≡ route_of c → result ≡ Some c }
{
    match letter {
        b'H' => Some(Call::Drive(route, true)),
        b'L' => Some(Call::Drive(route, false)),
        b'M' => Some(Call::Mask(route, true)),
        b'U' => Some(Call::Mask(route, false)),
        b'C' if route == 0 => Some(Call::Claim),
        b'E' => Some(Call::Complete(route)),
        _ => None,
    }
}

// The number that stands in some columns behind blanks.
#[tactic(auto, using(crate::proofs::Numbers::one_blank_more, crate::proofs::Numbers::one_blank_less, crate::proofs::Numbers::no_blank, crate::proofs::Numbers::written))]
fn number_in(columns: &[u8]) -> Option<usize>
    ensures only { IfSome result (λ n. Justified n columns.now) }
    ensures every { (n : ℕ) → n < 2 ^ 64 → Justified n columns.now → result ≡ Some n }
{
    match columns.split_first() {
        Some((first, rest)) if *first == b' ' => number_in(rest),
        _ => number_of(columns),
    }
}

// The number of some digits, with no sign and no zero ahead of them.
#[tactic(auto, using(crate::proofs::Numbers::plain_decimal))]
fn number_of(digits: &[u8]) -> Option<usize>
    ensures only { IfSome result (λ n. digits.now ≡ decimal n) }
    ensures every { (n : ℕ) → n < 2 ^ 64 → digits.now ≡ decimal n → result ≡ Some n }
{
    if is_plain(digits) {
        parsed(digits)
    } else {
        None
    }
}

// Whether no sign, and no zero ahead of other digits, is in front.
fn is_plain(digits: &[u8]) -> bool
    ensures { result ≡ is_plain digits.now }
{
    !matches!(digits, [b'+', ..] | [b'0', _, ..])
}

// The number of some digits.
#[tactic(auto, using(crate::proofs::Numbers::parsed_only, crate::proofs::Numbers::parsed_every, crate::proofs::Numbers::is_text))]
fn parsed(digits: &[u8]) -> Option<usize>
    ensures only { is_plain digits.now ≡ true → IfSome result (λ n. digits.now ≡ decimal n) }
    ensures every { (n : ℕ) → n < 2 ^ 64 → digits.now ≡ decimal n → result ≡ Some n }
{
    match str::from_utf8(digits) {
        Ok(text) => text.parse::<usize>().ok(),
        Err(_) => None,
    }
}
