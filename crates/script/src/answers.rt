ghost use Rattle.std.specs.Prelude.{◌≡◌, IfOk, string_bytes, OnOk};
ghost use Rattle.script.specs.Answers.{answer_line, Gains};
ghost use Rattle.script.specs.Script.{shown};

use protocol::answer::Answer;
use protocol::call::Call;
use protocol::version::Version;
use record::refusal::Refusal;
use std::alloc::{AllocError, Global};

// One answer, as a line. No Display: the text is the script's own, and the type another crate's.
fn write_answer(out: &mut String, answer: Answer) -> Result<(), AllocError>
    ensures { OnOk result (Gains out.old out.new (answer_line answer)) }
{
    match answer {
        Answer::Refused(refusal) => writeln!(out, "{}", u8::from(refusal)),
        Answer::Done => writeln!(out, "0"),
        Answer::Attempt(attempt) => writeln!(out, "0 {attempt}"),
        Answer::Length(length) => writeln!(out, "0 {length}"),
        Answer::Taken(count, outcome) => writeln!(out, "0 {count} {}", u8::from(outcome)),
        Answer::Holds(Version { number, value }) => {
            writeln!(out, "0 {number} {} {}", value.root, value.setup)
        }
    }
}

// The refusals of lines and the answers to calls, each on a line, in the order of the script.
#[tactic(auto, unfolding(crate::specs::Script::shown))]
fn write_lines(
    out: &mut String,
    lines: &[Result<Call, Refusal>],
    answers: &[Answer],
) -> Result<(), AllocError>
    ensures { OnOk result (Gains out.old out.new (shown lines.now answers.now)) }
{
    let mut left = answers.iter();
    for line in lines {
        match line {
            Err(refusal) => write_answer(out, Answer::Refused(*refusal))?,
            Ok(_) => {
                if let Some(answer) = left.next() {
                    write_answer(out, *answer)?;
                }
            }
        }
    }
    Ok(())
}

// What a script prints, from what its lines ask for and what the calls among them were answered.
pub fn show(
    heap: Global,
    lines: &[Result<Call, Refusal>],
    answers: &[Answer],
) -> Result<String, AllocError>
    ensures { IfOk result (λ t. string_bytes t ≡ shown lines.now answers.now) }
{
    let mut out = String::new(heap);
    write_lines(&mut out, lines, answers)?;
    Ok(out)
}
