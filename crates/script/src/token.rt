ghost use Rattle.std.specs.Prelude.{◌≡◌};
ghost use Rattle.script.specs.Parts.{part_of};

// A field of a line: its bytes, which are the line's own, and its place there.
#[derive(Clone, Copy, Debug)]
pub enum Token<'a> {
    Word { bytes: &'a [u8], place: usize },
    Number { bytes: &'a [u8], place: usize },
}

impl<'a> Token<'a> {
    pub fn bytes(self) -> &'a [u8]
        ensures { result.now ≡ (part_of self.entry).bytes }
    {
        match self {
            Token::Word { bytes, .. } | Token::Number { bytes, .. } => bytes,
        }
    }
}
