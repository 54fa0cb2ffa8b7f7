ghost use Rattle.std.specs.Prelude.{◌≡◌, ◌==◌, position, IfSome};
ghost use Rattle.std.specs.List.{slice_get, before_first};
ghost use Rattle.std.specs.Option.{option_map};
ghost use Rattle.script.specs.Cutting.{Starts};
ghost use Rattle.script.specs.Parts.{number_count, parts_of, LiesIn, part_of};

use crate::token::Token;

// Where the first `stop` stands.
fn position_of(stop: u8, bytes: &[u8]) -> Option<usize>
    ensures { result ≡ position (λ b. b == stop) bytes.now }
{
    bytes.iter().position(|b| *b == stop)
}

// What stands before the first `stop`.
fn before(stop: u8, bytes: &[u8]) -> &[u8]
    ensures { result.now ≡ before_first (λ b. b == stop) bytes.now }
{
    &bytes[..position_of(stop, bytes).unwrap_or(bytes.len())]
}

// How many numbers follow the first field of a line.
// tried: `filter(..).count()`, with which 65 KB of refused proposals take 13% more instructions
pub(crate) fn count_numbers(line: &[u8]) -> usize
    ensures { result ≡ number_count line.now }
{
    line.iter().map(|b| usize::from(*b == b' ')).sum()
}

// Where a field begins, counted from 0, if there is one. `split` and `nth` would give no place.
#[tactic(auto, using(crate::proofs::Cuts::passing))]
fn start(line: &[u8], index: usize) -> Option<usize>
    ensures { Starts line.now index result }
{
    let mut place = 0;
    for _passed in 0..index {
        place += position_of(b' ', &line[place..])? + 1;
    }
    Some(place)
}

// A field of a line, counted from 0, if there is one.
pub fn token(line: &[u8], index: usize) -> Option<Token<'_>>
    ensures value { option_map part_of result ≡ slice_get (parts_of line.now) index }
    ensures lies { IfSome result (λ t. LiesIn line.now (part_of t)) }
{
    let place = start(line, index)?;
    let bytes = before(b' ', &line[place..]);
    Some(if index == 0 {
        Token::Word { bytes, place }
    } else {
        Token::Number { bytes, place }
    })
}
