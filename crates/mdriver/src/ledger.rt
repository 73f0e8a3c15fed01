//! Which lines are shown, and what is counted in place of the others.

ghost use Rattle.std.specs.Prelude.{◌≡◌, ◌↔◌, IfOk, IsTrue, Some};
ghost use Rattle.mdriver.specs.Ledgers.{IsRepeat, nothing_told, notices_text, shown_text, with_lost, with_repeat, with_shown};

use std::alloc::{AllocError, Global};
use std::fmt;
use std::marker::Model;

/// The line that was shown last, how often it was told again since, and how many lines were lost since.
#[derive(Drop)]
pub struct Ledger {
    last: Option<Vec<u8>>,
    repeats: u64,
    lost: u64,
}

impl Model for Ledger {
    ghost use Rattle.std.specs.Prelude.{option_map};
    ghost use Rattle.mdriver.specs.Ledgers.{Told};

    ghost Value = { Told };

    ghost view = { λ l. record { last = option_map (λ v. v.items) l.last; repeats = l.repeats; lost = l.lost } };
}

/// What the counts tell, a line each where there is something to tell.
#[derive(Clone, Copy)]
struct Notices {
    repeats: u64,
    lost: u64,
}

impl fmt::Display for Notices {
    ghost output = { λ n. Some (notices_text n.repeats n.lost) };

    fn fmt<W: fmt::Write>(&self, f: &mut fmt::Formatter<W>) -> fmt::Result {
        let (repeats, lost) = (self.repeats, self.lost);
        if repeats > 0 {
            write!(f, "the line above came {repeats} more times\n")?;
        }
        if lost > 0 {
            write!(f, "{lost} lines were lost: the error output was full\n")?;
        }
        Ok(())
    }
}

impl Ledger {
    /// Nothing was told yet.
    pub fn new() -> Ledger
        ensures { result ≡ nothing_told }
    {
        Ledger {
            last: None,
            repeats: 0,
            lost: 0,
        }
    }

    /// Whether the line is the one that was shown last. An empty line isn't.
    pub fn is_repeat(&self, line: &[u8]) -> bool
        ensures { IsTrue result ↔ IsRepeat self.now line.now }
    {
        match &self.last {
            Some(last) => !line.is_empty() && last.as_slice() == line,
            None => false,
        }
    }

    /// What the counts tell. The error comes where memory was refused.
    pub fn notices(&self, alloc: Global) -> Result<Vec<u8>, AllocError>
        ensures { IfOk result (λ text. text.items ≡ notices_text self.now.repeats self.now.lost) }
    {
        let notices = Notices {
            repeats: self.repeats,
            lost: self.lost,
        };
        Ok(format!(in alloc; "{notices}")?.into_bytes())
    }

    /// What is to be shown for a line: what the counts tell, and the line, each ended by a line feed. The error comes
    /// where memory was refused.
    pub fn text(&self, alloc: Global, line: &[u8]) -> Result<Vec<u8>, AllocError>
        ensures { IfOk result (λ text. text.items ≡ shown_text self.now line.now) }
    {
        let mut text = self.notices(alloc)?;
        text.extend_from_slice(line)?;
        text.push(b'\n')?;
        Ok(text)
    }

    /// The line that was shown last was told again. The count stays at the greatest `u64`.
    pub fn repeat(&mut self)
        ensures { self.new ≡ with_repeat self.old }
    {
        self.repeats = self.repeats.saturating_add(1);
    }

    /// A line was shown, behind what the counts told.
    pub fn show(&mut self, line: Vec<u8>)
        ensures { self.new ≡ with_shown self.old line.items }
    {
        self.last = Some(line);
        self.repeats = 0;
        self.lost = 0;
    }

    /// A line found no room, and is lost. The count stays at the greatest `u64`.
    pub fn lose(&mut self)
        ensures { self.new ≡ with_lost self.old }
    {
        self.lost = self.lost.saturating_add(1);
    }
}
