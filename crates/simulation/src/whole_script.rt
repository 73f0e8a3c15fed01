//! A script, played from its first line to the book.

ghost use Rattle.std.specs.Prelude.{◌≡◌, ◌≤◌, [], suc, vec_len, IfOk, IfSome, OnOk};
ghost use Rattle.position.specs.Openings.{IsStart};
ghost use Rattle.one_hand.specs.Stream.{opened};
ghost use Rattle.script_meaning.specs.ScriptState.{listening_at, opened_state};
ghost use Rattle.receiver.specs.Subscribing.{RepresentsSubscriber};
ghost use Rattle.script_meaning.specs.Output.{IsOutputOf, geometry_of};
ghost use Rattle.simulation.specs.Lines.{line_contents};
ghost use Rattle.script_meaning.specs.Standing.{Begins};
ghost use Rattle.theory.specs.Position.{IsGeometry};
ghost use Rattle.simulation.specs.Simulated.{RepresentsState, StandsSomewhere};
ghost use Rattle.simulation.specs.Runs.{AreListening, Continues, RunsTo};
ghost use Rattle.script.specs.Meaning as meaning;

use crate::{Line, Packets, RECEIVERS, Simulation, add_line};
use block::Block;
use flow_control::StreamFlow;
use one_hand::{HandReader, LogHand};
use position::{Geometry, Identity};
use receiver::{ReceiverCore, Subscriber};
use script::{Command, LogLine, Script};
use script_meaning::{images_stay_in_bounds, polls_a_prefix, shares_are_counted};
use sender::{Outbox, SenderCore};
use shared_log::LogError;
use std::alloc::{AllocError, Global};

/// The lines that a script prints, or that memory was refused.
pub fn play(alloc: Global, script: &Script) -> Result<Vec<Line>, AllocError>
    ensures { IfOk result (λ lines. IsOutputOf (meaning.script_content script.now) (line_contents lines.items)) }
{
    let mut lines = Vec::new(alloc);
    let log = &script.log;
    match Geometry::new(log.term_length, log.mtu, log.initial_term_id) {
        Ok(geometry) => log_lines(alloc, script, geometry, lines),
        Err(error) => {
            add_line(&mut lines, Line::BadGeometry(error))?;
            Ok(lines)
        }
    }
}

/// Plays a script whose log has this geometry.
fn log_lines(
    alloc: Global,
    script: &Script,
    geometry: Geometry,
    mut lines: Vec<Line>,
) -> Result<Vec<Line>, AllocError>
    requires legal { IsGeometry geometry }
    requires made { geometry ≡ geometry_of (meaning.opening script.now.log) }
    requires empty { lines.items ≡ [] }
    ensures { IfOk result (λ lines. IsOutputOf (meaning.script_content script.now) (line_contents lines.items)) }
{
    let log = &script.log;
    let consumers = log.readers as usize + 1;
    match LogHand::open(
        alloc,
        geometry,
        log.session,
        log.stream,
        log.start,
        consumers,
    ) {
        Ok(hand) => opened_lines(alloc, hand, script, geometry, lines),
        Err(LogError::Start) => {
            add_line(&mut lines, Line::BadLog(LogError::Start))?;
            Ok(lines)
        }
        Err(LogError::Memory) => Err(AllocError),
        Err(_) => unreachable!(),
    }
}

/// Plays a script on its log that was just opened.
fn opened_lines(
    alloc: Global,
    log: LogHand,
    script: &Script,
    geometry: Geometry,
    lines: Vec<Line>,
) -> Result<Vec<Line>, AllocError>
    requires opened { log ≡ opened (record { geometry = geometry; session = script.now.log.session; stream = script.now.log.stream }) script.now.log.start (suc script.now.log.readers) }
    requires start { IsStart geometry script.now.log.start }
    requires legal { IsGeometry geometry }
    requires made { geometry ≡ geometry_of (meaning.opening script.now.log) }
    requires empty { lines.items ≡ [] }
    ensures { IfOk result (λ lines. IsOutputOf (meaning.script_content script.now) (line_contents lines.items)) }
{
    // Laws that the proof cites.
    polls_a_prefix();
    images_stay_in_bounds();
    let group = group_of(&script.commands);
    let simulation = simulation(alloc, log, &script.log, geometry, group)?;
    ended_lines(simulation, script, lines)
}

/// How many receivers the group has, if the script names one.
fn group_of(commands: &[Command]) -> Option<usize>
    ensures group { result ≡ meaning.group_in (meaning.contents_of commands.now) }
    ensures small { IfSome result (λ size. size ≤ 8) }
{
    match commands {
        [Command::Group { size }, ..] => Some(size.receivers),
        _ => None,
    }
}

/// A receiver with half a term as its window, and its subscriber.
fn subscriber(alloc: Global, log: &LogLine, geometry: &Geometry, number: u32) -> Subscriber
    ensures { RepresentsSubscriber result (listening_at (record { geometry = geometry.now; session = log.now.session; stream = log.now.stream }) number) }
{
    let window = geometry.term_length() / 2;
    let core = ReceiverCore::new(alloc, log.session, log.stream, window, i64::from(number), 1);
    Subscriber::new(alloc, core, geometry.max_message() as usize)
}

/// The eight receivers.
fn subscribers(
    alloc: Global,
    log: &LogLine,
    geometry: &Geometry,
) -> Result<Vec<Subscriber>, AllocError>
    ensures listening { IfOk result (λ subscribers. AreListening (record { geometry = geometry.now; session = log.now.session; stream = log.now.stream }) subscribers.items) }
    ensures eight { IfOk result (λ subscribers. vec_len subscribers ≡ 8) }
{
    let mut subscribers = Vec::with_capacity(alloc, RECEIVERS)?;
    for number in 0..RECEIVERS {
        subscribers.push(subscriber(alloc, log, geometry, number as u32))?;
    }
    Ok(subscribers)
}

/// The simulation of a log that was just opened, as this line of a script says, to a group or to one receiver.
fn simulation(
    alloc: Global,
    log: LogHand,
    line: &LogLine,
    geometry: Geometry,
    group: Option<usize>,
) -> Result<Simulation, AllocError>
    requires opened { log ≡ opened (record { geometry = geometry; session = line.now.session; stream = line.now.stream }) line.now.start (suc line.now.readers) }
    requires start { IsStart geometry line.now.start }
    requires small { IfSome group (λ size. size ≤ 8) }
    ensures { IfOk result (λ s. RepresentsState s (opened_state (record { geometry = geometry; session = line.now.session; stream = line.now.stream }) group line.now.start line.now.readers)) }
{
    let outbox = Outbox::new(alloc, geometry.mtu())?;
    let block = Block::new(alloc, geometry.mtu() as usize)?;
    let subscribers = subscribers(alloc, line, &geometry)?;
    let flow = StreamFlow::new(line.start, group);
    let reads = HandReader { number: 0 };
    let identity = Identity::new(geometry, line.session, line.stream);
    match SenderCore::new(alloc, identity, line.start, reads, flow) {
        Ok(sender) => Ok(Simulation {
            log,
            block,
            sender,
            outbox,
            subscribers,
            packets: Packets::new(alloc),
        }),
        Err(_) => Err(AllocError),
    }
}

/// Plays the commands one after the other, and adds their lines.
fn answer_all(
    simulation: &mut Simulation,
    commands: &[Command],
    lines: &mut Vec<Line>,
) -> Result<(), AllocError>
    requires { StandsSomewhere simulation.old }
    ensures { OnOk result (Continues simulation.old (meaning.contents_of commands.now) lines.old.items lines.new.items simulation.new) }
{
    for command in commands {
        simulation.play(command, lines)?;
    }
    Ok(())
}

/// Plays a script's commands from the opened log on, and ends it.
fn ended_lines(
    mut simulation: Simulation,
    script: &Script,
    mut lines: Vec<Line>,
) -> Result<Vec<Line>, AllocError>
    requires opened { RepresentsState simulation (opened_state simulation.log.identity (meaning.group_in (meaning.script_content script.now).commands) simulation.log.start script.now.log.readers) }
    requires begins { Begins simulation.log.identity simulation.log.start }
    ensures { IfOk result (λ after. RunsTo simulation.log.identity simulation.log.start script.now.log.readers (meaning.script_content script.now).commands (line_contents lines.items) (line_contents after.items)) }
{
    // A law that the proof cites.
    shares_are_counted();
    add_line(&mut lines, Line::Open)?;
    answer_all(&mut simulation, &script.commands, &mut lines)?;
    let book = simulation.end();
    add_line(&mut lines, Line::Book(book))?;
    Ok(lines)
}
