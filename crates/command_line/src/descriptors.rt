//! Which standard descriptors a line can't do without.

ghost use Rattle.std.specs.Prelude.{◌≡◌, ◌↔◌, IfNone, IfSome, IsTrue, Some, codes, map};
ghost use Rattle.std.specs.List.{list_any};
ghost use Rattle.command_line.specs.Descriptors.{Lacks, ReadsInput, begins_with, descriptor_text, is_help_word};

use crate::readers::{Reader, line_reader};
use std::fmt;

/// One of the three descriptors that a process begins with.
#[derive(Clone, Copy, Debug, PartialEq, Eq)]
pub enum Descriptor {
    Input,
    Output,
    /// The error output.
    Errors,
}

impl fmt::Display for Descriptor {
    ghost output = { λ descriptor. Some (descriptor_text descriptor) };

    fn fmt<W: fmt::Write>(&self, f: &mut fmt::Formatter<W>) -> fmt::Result {
        match self {
            Descriptor::Input => f.write_str("standard input"),
            Descriptor::Output => f.write_str("standard output"),
            Descriptor::Errors => f.write_str("standard error"),
        }
    }
}

/// Which of them were closed when the process began.
#[derive(Clone, Copy, Debug, PartialEq, Eq)]
pub struct Closed {
    pub input: bool,
    pub output: bool,
    pub errors: bool,
}

/// Whether a word of the line asks for help.
fn asks_for_help(line: &[&str]) -> bool
    ensures { result ≡ list_any (λ s. is_help_word s.now) line.now }
{
    line.iter().any(|word| *word == "--help" || *word == "-h")
}

/// Whether the line begins with the word `sim`.
#[tactic(auto, using(crate::proofs::Words::first_is))]
fn is_sim(line: &[&str]) -> bool
    ensures { result ≡ begins_with (codes "sim") (map (λ s. s.now) line.now) }
{
    match line {
        [first, ..] => *first == "sim",
        [] => false,
    }
}

/// Whether a line of these words, which begin behind the program's name, reads the standard input: one of `publish` or `sim`
/// that doesn't ask for help, or `decode --stdin`.
#[tactic(auto, using(crate::proofs::Words::help_words))]
fn reads_input(line: &[&str]) -> bool
    ensures { IsTrue result ↔ ReadsInput (map (λ s. s.now) line.now) }
{
    let is_of_input = match line_reader(line) {
        Reader::Publish | Reader::DecodeInput => true,
        Reader::Driver => is_sim(line),
        _ => false,
    };
    is_of_input && !asks_for_help(line)
}

/// The standard descriptor that a line of these words, which begin behind the program's name, needs and that is closed: the
/// input, where the line reads it, or else the output.
pub fn lacking(line: &[&str], closed: Closed) -> Option<Descriptor>
    ensures lacks { IfSome result (Lacks (map (λ s. s.now) line.now) closed) }
    ensures none { IfNone result ((d : Descriptor) → Lacks (map (λ s. s.now) line.now) closed d → ⊥) }
    ensures first { Lacks (map (λ s. s.now) line.now) closed Descriptor.Input → result ≡ Some Descriptor.Input }
{
    if closed.input && reads_input(line) {
        return Some(Descriptor::Input);
    }
    if closed.output {
        return Some(Descriptor::Output);
    }
    None
}
