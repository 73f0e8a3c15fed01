ghost use Rattle.std.specs.Prelude.{◌≡◌};
ghost use Rattle.std.specs.Iterator.{YieldsFirstRef, item_count};
ghost use Rattle.script.specs.Pieces.{lines, words};
ghost use Rattle.script.specs.Reading.{ReturnsRead, word_at, end_of};
ghost use Rattle.script.specs.Rests.{lines_left, words_left};

/// The lines of a text.
#[derive(Drop)]
pub struct Lines<'a> {
    rest: &'a [u8],
}

impl<'a> Lines<'a> {
    pub fn new(text: &'a [u8]) -> Lines<'a>
        ensures { lines_left result ≡ lines text.now }
    {
        Lines { rest: text }
    }
}

impl<'a> Iterator for Lines<'a> {
    type Item = &'a [u8];

    ghost next_gives = { YieldsFirstRef lines_left };

    ghost remaining = { item_count lines_left };

    fn next(&mut self) -> Option<&'a [u8]> {
        let rest = self.rest;
        if rest.is_empty() {
            return None;
        }
        match rest.iter().position(|byte| *byte == b'\n') {
            Some(end) => {
                self.rest = &rest[end + 1..];
                Some(&rest[..end])
            }
            None => {
                self.rest = &[];
                Some(rest)
            }
        }
    }
}

/// The words of a line that haven't been read.
#[derive(Clone, Copy)]
pub struct Words<'a> {
    rest: Option<&'a [u8]>,
}

impl<'a> Words<'a> {
    pub fn new(line: &'a [u8]) -> Words<'a>
        ensures { words_left result ≡ words line.now }
    {
        Words { rest: Some(line) }
    }

    /// The first word, and the words after it.
    pub fn first(self) -> Option<(&'a [u8], Words<'a>)>
        ensures { ReturnsRead (λ found. (found.0.now, words_left found.1)) result (word_at (words_left self.entry)) }
    {
        let line = self.rest?;
        match line.iter().position(|byte| *byte == b' ') {
            Some(end) => {
                let after = Words {
                    rest: Some(&line[end + 1..]),
                };
                Some((&line[..end], after))
            }
            None => Some((line, Words { rest: None })),
        }
    }

    /// Nothing, if no word is left.
    pub fn end(self) -> Option<()>
        ensures { ReturnsRead (λ _. tt) result (end_of (words_left self.entry)) }
    {
        match self.rest {
            None => Some(()),
            Some(_) => None,
        }
    }
}
