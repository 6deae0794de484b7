//! The script of a job: its stops and pauses.
ghost use Rattle.std.specs.Prelude.{◌≡◌, ◌+◌, ◌<◌, ◌≤◌, ◌^◌, ◌++◌, [], IfOk, length, map};
ghost use Rattle.mu_text.specs.Numbers.{below, number_of};
ghost use Rattle.mu_input.specs.Readings.{ReadsFront, Tells};
ghost use Rattle.mu_input.specs.Scripts.{another_stop, stop_line, pauses_before, another_pause, pause_line, stop_or_pause, script_line, stops_of, stops_in_order, pauses_of, pauses_in_order, script_of, script_from, script_at};

use crate::cause::{NO_END, SCRIPT, TOO_MANY};
use crate::job::InputEnd;
use crate::{MOST_ROUNDS, MOST_SCRIPT_LINES, MOST_STEPS};
use mu_model::{Pause, Script, Sequence, Stop, is_stopped};
use mu_text::{LineReader, Words, is_alone, number, number_within};
use std::alloc::{AllocError, Global};

/// What a line of the script says.
#[derive(Clone, Copy)]
pub enum ScriptLine {
    /// A replica stops.
    Stop(Stop),
    /// A replica pauses.
    Pause(Pause),
    /// The job ends.
    End,
}

/// The script of `replicas` replicas if one follows, and else an empty one.
///
/// # Errors
///
/// Those of [`script`].
pub fn script_where(
    alloc: Global,
    lines: &mut LineReader<'_>,
    follows: bool,
    replicas: u8,
) -> Result<Script, InputEnd>
    requires some { 1 ≤ replicas }
    requires most { replicas ≤ 7 }
    requires room { lines.old.number + 102 < 2 ^ 32 }
    ensures reading { ReadsFront result (script_at follows replicas lines.old) lines.new }
    ensures few { IfOk result (λ _. lines.new.number ≤ lines.old.number + 101) }
    ensures lines { IfOk result (λ script.
        length script.stops + length script.pauses ≤ MOST_SCRIPT_LINES) }
{
    if follows {
        script(alloc, lines, replicas)
    } else {
        Ok(Script {
            stops: Sequence::from_vec(Vec::new(alloc)),
            pauses: Sequence::from_vec(Vec::new(alloc)),
        })
    }
}

/// The script of `replicas` replicas, 1 to 7, taken from the front of the lines up to its `end`.
///
/// # Errors
///
/// `Refused` with the first line that is none of a script, or is missing, and the cause: 10 the
/// line, 9 one line too many, 11 no end. `NoMemory` for want of memory.
pub fn script(alloc: Global, lines: &mut LineReader<'_>, replicas: u8) -> Result<Script, InputEnd>
    requires some { 1 ≤ replicas }
    requires most { replicas ≤ 7 }
    requires room { lines.old.number + 102 < 2 ^ 32 }
    ensures reading { ReadsFront result
        (script_from replicas [] [] lines.old.number lines.old.lines) lines.new }
    ensures few { IfOk result (λ _. lines.new.number ≤ lines.old.number + 101) }
    ensures lines { IfOk result (λ script.
        length script.stops + length script.pauses ≤ MOST_SCRIPT_LINES) }
{
    let mut stops = Vec::new(alloc);
    let mut pauses = Vec::new(alloc);
    let mut number = lines.number();
    while let Some(line) = lines.next() {
        let words = Words::of(line);
        let said = match script_line(
            replicas,
            stops.as_slice(),
            pauses.as_slice(),
            words.as_slice(),
        ) {
            Ok(said) => said,
            Err(cause) => return Err(InputEnd::at(number, cause)),
        };
        match said {
            ScriptLine::Stop(stop) => stops.push(stop)?,
            ScriptLine::Pause(pause) => pauses.push(pause)?,
            ScriptLine::End => {
                let ordered = script_of(alloc, replicas, stops.as_slice(), pauses.as_slice())?;
                return Ok(ordered);
            }
        }
        number += 1;
    }
    Err(InputEnd::at(number, NO_END))
}

/// What a line says after these stops and pauses, or the cause why it is none of a script.
fn script_line(
    replicas: u8,
    stops: &[Stop],
    pauses: &[Pause],
    words: &[&[u8]],
) -> Result<ScriptLine, u8>
    requires few { length stops.now + length pauses.now ≤ MOST_SCRIPT_LINES }
    ensures { Tells result (script_line replicas stops.now pauses.now
        (map (λ word. word.now) words.now)) }
{
    if is_alone(words, b"end") {
        return Ok(ScriptLine::End);
    }
    let Some(said) = stop_or_pause(replicas, stops, pauses, words) else {
        return Err(SCRIPT);
    };
    if stops.len() + pauses.len() < MOST_SCRIPT_LINES {
        Ok(said)
    } else {
        Err(TOO_MANY)
    }
}

fn stop_or_pause(
    replicas: u8,
    stops: &[Stop],
    pauses: &[Pause],
    words: &[&[u8]],
) -> Option<ScriptLine>
    ensures { result ≡ stop_or_pause
        (stop_line replicas stops.now (map (λ word. word.now) words.now))
        (pause_line replicas pauses.now (map (λ word. word.now) words.now)) }
{
    if let Some(stop) = stop_line(replicas, stops, words) {
        return Some(ScriptLine::Stop(stop));
    }
    let pause = pause_line(replicas, pauses, words)?;
    Some(ScriptLine::Pause(pause))
}

/// The stop that a line adds to these.
fn stop_line(replicas: u8, stops: &[Stop], words: &[&[u8]]) -> Option<Stop>
    ensures { result ≡ stop_line replicas stops.now (map (λ word. word.now) words.now) }
{
    match words {
        [name, replica, steps] if *name == b"stop".as_slice() => another_stop(
            stops,
            replica_of(replica, replicas),
            number_within(steps, 0, MOST_STEPS),
        ),
        _ => None,
    }
}

/// A replica stops once.
fn another_stop(stops: &[Stop], replica: Option<u8>, steps: Option<u32>) -> Option<Stop>
    ensures { result ≡ another_stop stops.now replica steps }
{
    let replica = replica?;
    let steps = steps?;
    if is_stopped(replica, stops) {
        return None;
    }
    Some(Stop { replica, steps })
}

/// The pause that a line adds to these.
fn pause_line(replicas: u8, pauses: &[Pause], words: &[&[u8]]) -> Option<Pause>
    ensures { result ≡ pause_line replicas pauses.now (map (λ word. word.now) words.now) }
{
    match words {
        [name, replica, steps, rounds] if *name == b"pause".as_slice() => another_pause(
            pauses,
            replica_of(replica, replicas),
            number_within(steps, 0, MOST_STEPS),
            number_within(rounds, 1, MOST_ROUNDS),
        ),
        _ => None,
    }
}

/// A pause comes after more steps than the earlier ones of its replica.
fn another_pause(
    pauses: &[Pause],
    replica: Option<u8>,
    steps: Option<u32>,
    rounds: Option<u32>,
) -> Option<Pause>
    ensures { result ≡ another_pause pauses.now replica steps rounds }
{
    let replica = replica?;
    let steps = steps?;
    let rounds = rounds?;
    if !pauses_before(replica, steps, pauses) {
        return None;
    }
    Some(Pause {
        replica,
        steps,
        rounds,
    })
}

/// Whether each of these pauses that is of the replica comes after fewer steps.
fn pauses_before(replica: u8, steps: u32, pauses: &[Pause]) -> bool
    ensures { result ≡ pauses_before replica steps pauses.now }
{
    pauses
        .iter()
        .all(|pause| pause.replica != replica || pause.steps < steps)
}

/// The replica that a word names, if it is one of `replicas`.
pub fn replica_of(word: &[u8], replicas: u8) -> Option<u8>
    ensures { result ≡ below replicas (number_of word.now) }
{
    let replica = number(word)?;
    if replica < u32::from(replicas) {
        Some(replica as u8)
    } else {
        None
    }
}

/// The script of these stops and pauses, put in order.
fn script_of(
    alloc: Global,
    replicas: u8,
    stops: &[Stop],
    pauses: &[Pause],
) -> Result<Script, AllocError>
    ensures { IfOk result (λ script. script ≡ script_of replicas stops.now pauses.now) }
{
    let stops = stops_in_order(alloc, replicas, stops)?;
    let pauses = pauses_in_order(alloc, replicas, pauses)?;
    Ok(Script {
        stops: Sequence::from_vec(stops),
        pauses: Sequence::from_vec(pauses),
    })
}

/// The stops of `replicas` replicas, replica by replica.
fn stops_in_order(alloc: Global, replicas: u8, stops: &[Stop]) -> Result<Vec<Stop>, AllocError>
    ensures { IfOk result (λ ordered. ordered.items ≡ stops_in_order replicas stops.now) }
{
    let mut ordered = Vec::with_capacity(alloc, stops.len())?;
    for replica in 0..replicas {
        push_stops_of(&mut ordered, replica, stops)?;
    }
    Ok(ordered)
}

fn push_stops_of(ordered: &mut Vec<Stop>, replica: u8, stops: &[Stop]) -> Result<(), AllocError>
    ensures { IfOk result (λ _.
        ordered.new.items ≡ ordered.old.items ++ stops_of replica stops.now) }
{
    for stop in stops {
        if stop.replica == replica {
            ordered.push(*stop)?;
        }
    }
    Ok(())
}

/// The pauses of `replicas` replicas, replica by replica and in the order of their steps.
fn pauses_in_order(alloc: Global, replicas: u8, pauses: &[Pause]) -> Result<Vec<Pause>, AllocError>
    ensures { IfOk result (λ ordered. ordered.items ≡ pauses_in_order replicas pauses.now) }
{
    let mut ordered = Vec::with_capacity(alloc, pauses.len())?;
    for replica in 0..replicas {
        push_pauses_of(&mut ordered, replica, pauses)?;
    }
    Ok(ordered)
}

fn push_pauses_of(ordered: &mut Vec<Pause>, replica: u8, pauses: &[Pause]) -> Result<(), AllocError>
    ensures { IfOk result (λ _.
        ordered.new.items ≡ ordered.old.items ++ pauses_of replica pauses.now) }
{
    for pause in pauses {
        if pause.replica == replica {
            ordered.push(*pause)?;
        }
    }
    Ok(())
}
