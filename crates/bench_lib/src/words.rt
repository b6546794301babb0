// Calls and answers as words.
use history::call::{Answer, Call};

// The call of a word: the upper half says what, the lower names the route.
pub(crate) fn call_of(word: u32) -> Call {
    let route = (word % 65536) as usize;
    match word / 65536 {
        0 => Call::Drive(route, false),
        1 => Call::Drive(route, true),
        2 => Call::Mask(route, false),
        3 => Call::Mask(route, true),
        4 => Call::Complete(route),
        _ => Call::Claim,
    }
}

// The word of an answer: 1 done, 2 none named, 1024 and more a refusal, 65536 and more a route.
pub(crate) fn answer_word(answer: Answer) -> u64 {
    match answer {
        Answer::Done => 1,
        Answer::Named(None) => 2,
        Answer::Named(Some(route)) => 65536u64.wrapping_add(route as u64),
        Answer::Refused(number) => 1024 + u64::from(number),
    }
}
