ghost use Rattle.std.specs.Prelude.{◌≡◌};
ghost use Rattle.og_texts.specs.Places.{line_at_end, column_at_end, line_of, column_of};

/// Where a byte stands in its text.
#[derive(Clone, Copy, Debug, PartialEq, Eq)]
pub struct Place {
    /// The line, counted from 1.
    pub line: u64,
    /// The column, counted in bytes from 1.
    pub column: u64,
}

impl Place {
    /// The place of the byte at the offset, or of the text's end where there is none. In `a\nbc` the byte 3 stands
    /// at 2:2.
    pub fn of(text: &[u8], at: u32) -> Place
        ensures line { result.line ≡ line_of text.now at }
        ensures column { result.column ≡ column_of text.now at }
    {
        match text.get(..at as usize) {
            Some(front) => Place::behind(front),
            None => Place::behind(text),
        }
    }

    /// The place right behind these bytes.
    fn behind(front: &[u8]) -> Place
        ensures line { result.line ≡ line_at_end front.now }
        ensures column { result.column ≡ column_at_end front.now }
    {
        let mut place = Place { line: 1, column: 1 };
        'bytes: for byte in front {
            if *byte == b'\n' {
                place.line += 1;
                place.column = 1;
            } else {
                place.column += 1;
            }
        }
        place
    }
}
