//! A text that is cut at each `|`.

ghost use Rattle.std.specs.Prelude.{◌≡◌};
ghost use Rattle.std.specs.Iterator.{YieldsFirstRef, item_count};
ghost use Rattle.channel.specs.Channels.{parts, parts_left};

/// The parts of a text, parted by `|`.
#[derive(Drop)]
pub struct Parts<'a> {
    rest: Option<&'a str>,
}

impl<'a> Parts<'a> {
    pub fn new(text: &'a str) -> Parts<'a>
        ensures { parts_left result ≡ parts text.now }
    {
        Parts { rest: Some(text) }
    }
}

impl<'a> Iterator for Parts<'a> {
    type Item = &'a str;

    ghost next_gives = { YieldsFirstRef parts_left };

    ghost remaining = { item_count parts_left };

    fn next(&mut self) -> Option<&'a str> {
        let rest = self.rest?;
        match rest.split_once('|') {
            Some((part, after)) => {
                self.rest = Some(after);
                Some(part)
            }
            None => {
                self.rest = None;
                Some(rest)
            }
        }
    }
}
