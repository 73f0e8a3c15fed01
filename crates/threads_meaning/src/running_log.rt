//! A log that runs, whose frames lie in plain memory, and the model.

ghost use Rattle.threads_meaning.specs.Running.{BeginsARun, RunningSteps, RunsAreHonest, RunsGoOn, TablesAreStreams, TablesRun};
ghost use Rattle.threads_meaning.specs.RunningSeats.{RunningSeats};

use log_memory::{seats_keep, steps_keep};

/// A law: a log that runs is a log of the model, between any two steps on its words. It has the control words, and a word for
/// each unit of plain memory; the other words of its stream are there in proofs alone, and nothing that is said of the log
/// depends on them. Each kind of step that it makes may be made wherever the rule holds. Wherever such a step was made, whatever
/// came of it, it is one event of the model, or one for each word that the keeper knows to be zero by then. So it leads to a
/// table that is again a log of the model; and from a log that opens, whatever such steps were made, the headline holds.
pub fn running_log_is_a_model()
    ensures streams { TablesAreStreams }
    ensures steps { RunningSteps }
    ensures leads { TablesRun }
    ensures begins { BeginsARun }
    ensures goes_on { RunsGoOn }
    ensures honest { RunsAreHonest }
{
    // A law that the proof cites.
    steps_keep();
}

/// A law: so are the moves of its seats. A seat that is cut in two, or takes another in, is a look of the model, as is what a
/// pass is told of itself; a publisher that is handed over retires its number.
pub fn running_seats_are_events()
    ensures { RunningSeats }
{
    // A law that the proof cites.
    seats_keep();
}
