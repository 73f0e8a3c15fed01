//! Who reads a line.

ghost use Rattle.std.specs.Prelude.{◌≡◌, drop, map};
ghost use Rattle.command_line.specs.Readers.{reader_at, reader_of, reader_of_more, reader_of_two};

/// Who reads a line.
#[derive(Clone, Copy, Debug, PartialEq, Eq)]
pub enum Reader {
    /// The line asks for the version alone.
    Version,
    /// It asks for the help of `publish`: `help publish`, with anything behind it.
    PublishHelp,
    /// It asks for the help of `subscribe`, in the same way.
    SubscribeHelp,
    /// It is one of `publish`.
    Publish,
    /// It is one of `subscribe`.
    Subscribe,
    /// It asks for the frames of the datagrams that the standard input spells: `decode --stdin`.
    DecodeInput,
    /// It is any other.
    Driver,
}

/// The words of a line behind the program's name.
pub fn line_words<'a>(words: &'a [&'a str]) -> &'a [&'a str]
    ensures { result.now ≡ drop 1 words.entry.now }
{
    match words {
        [_, line @ ..] => line,
        [] => words,
    }
}

/// Who reads a line of these words, which begin behind the program's name.
pub fn line_reader(line: &[&str]) -> Reader
    ensures { result ≡ reader_of (map (λ s. s.now) line.now) }
{
    match line {
        [] => Reader::Driver,
        [first] => reader_at(first, true),
        [first, second] => reader_of_two(first, second),
        [first, second, ..] => reader_of_more(first, second),
    }
}

/// Who reads a line of these two words.
fn reader_of_two(first: &str, second: &str) -> Reader
    ensures { result ≡ reader_of_two first.now second.now }
{
    if first == "decode" && second == "--stdin" {
        return Reader::DecodeInput;
    }
    reader_of_more(first, second)
}

/// Who reads a line that begins with these two words and isn't `decode --stdin`.
fn reader_of_more(first: &str, second: &str) -> Reader
    ensures { result ≡ reader_of_more first.now second.now }
{
    if first != "help" {
        return reader_at(first, false);
    }
    match second {
        "publish" => Reader::PublishHelp,
        "subscribe" => Reader::SubscribeHelp,
        _ => Reader::Driver,
    }
}

/// Who reads a line that begins with this word, which may be its only one.
fn reader_at(first: &str, is_alone: bool) -> Reader
    ensures { result ≡ reader_at first.now is_alone }
{
    match first {
        "publish" => Reader::Publish,
        "subscribe" => Reader::Subscribe,
        "--version" | "-V" if is_alone => Reader::Version,
        _ => Reader::Driver,
    }
}
