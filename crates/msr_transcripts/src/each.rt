//! A run that is repeated with each number of a range.

use crate::runs;
use crate::runs::Answer;
use crate::stage::Stage;

/// What came of the run with that number in the place of `{number}`.
fn answer_with(stage: &mut Stage<'_>, run: &str, number: usize) -> Answer {
    let digits = stage.made(format!(in stage.alloc(); "{number}"));
    let run = stage.made(run.replace(stage.alloc(), "{number}", digits.as_str()));
    stage.note(!run.contains('{'));
    runs::answer_to(stage, run.as_str())
}

/// Prints what came of the run with these numbers, the first and the last of which are told.
fn tell_alike(stage: &mut Stage<'_>, first: usize, last: usize, answer: &Answer) {
    let numbers = if first == last {
        format!(in stage.alloc(); "{first}: ")
    } else {
        format!(in stage.alloc(); "{first} to {last}: ")
    };
    stage.say(numbers);
    answer.tell(stage);
}

/// `each FROM to TO SETTINGS $ WORDS`: the run with each number for `{number}`; equal neighbours are told once, after
/// `1 to 47: `.
pub fn step(stage: &mut Stage<'_>, text: &str) {
    let (first, rest) = stage.parts(text, " to ");
    let (last, run) = stage.parts(rest, " ");
    let (mut first, last) = (stage.count(first), stage.count(last));
    stage.note(first <= last);
    let mut answer = answer_with(stage, run, first);
    for number in first..=last {
        let next = answer_with(stage, run, number);
        if next != answer {
            tell_alike(stage, first, number.saturating_sub(1), &answer);
            first = number;
            answer = next;
        }
    }
    tell_alike(stage, first, last, &answer);
}
