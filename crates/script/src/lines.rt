ghost use Rattle.std.specs.Prelude.{◌≡◌, map, IfOk};
ghost use Rattle.script.specs.Commands.{parsed_line};
ghost use Rattle.script.specs.Cutting.{without_line_feed};
ghost use Rattle.script.specs.Parts.{lines_of};
ghost use Rattle.script.specs.Script.{parsed, calls_of};

use crate::command::parse_line;
use protocol::call::Call;
use record::refusal::Refusal;
use std::alloc::{AllocError, Global};

const MOST_BYTES: usize = 65_536;

// A line without the line feed that ends it.
fn without_line_feed(line: &[u8]) -> &[u8]
    ensures { result.now ≡ without_line_feed line.now }
{
    match line {
        [text @ .., b'\n'] => text,
        _ => line,
    }
}

fn parse_lines(heap: Global, input: &[u8]) -> Result<Vec<Result<Call, Refusal>>, AllocError>
    ensures { IfOk result (λ v. v.items ≡ map parsed_line (lines_of input.now)) }
{
    input
        .split_inclusive(|b| *b == b'\n')
        .map(|line| parse_line(without_line_feed(line)))
        .collect(heap)
}

// What each line of an input asks for, or why it is refused.
pub fn parse(heap: Global, input: &[u8]) -> Result<Vec<Result<Call, Refusal>>, AllocError>
    ensures { IfOk result (λ v. v.items ≡ parsed input.now) }
{
    if input.len() <= MOST_BYTES {
        parse_lines(heap, input)
    } else {
        Ok(vec![in heap; Err(Refusal::InputTooLong)]?)
    }
}

// The calls of the lines that are not refused, in their order.
pub fn calls(heap: Global, lines: &[Result<Call, Refusal>]) -> Result<Vec<Call>, AllocError>
    ensures { IfOk result (λ v. v.items ≡ calls_of lines.now) }
{
    lines.iter().filter_map(|line| line.ok()).collect(heap)
}
