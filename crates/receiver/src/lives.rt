//! What is polled and read of a stream.

ghost use Rattle.receiver.specs.CoreLives.{KeepsImage, ReadsARun};
ghost use Rattle.receiver.specs.Lives.{PollsARun};
ghost use Rattle.receiver.specs.Reading.{HearsFurther, PassesRead, ReadsFurther};

use model::messages_between;
use theory::names_place;

/// A law: what an honest life polls is a run of its stream, from the join on.
pub fn polls_a_run()
    ensures { PollsARun }
{
    // Laws that the proof cites.
    messages_between();
    names_place();
}

/// Laws: a life keeps the image that it has, and what is read of the image of an honest life is a run of its stream, from the join
/// on.
pub fn reads_a_run()
    ensures image { KeepsImage }
    ensures run { ReadsARun }
{
    // Laws that the proof cites.
    messages_between();
    names_place();
}

/// Laws: frames that are read one after the other, and the messages that they give.
pub fn reads_further()
    ensures reads { ReadsFurther }
    ensures hears { HearsFurther }
    ensures passes { PassesRead }
{}
