//! The settings of a job: its first lines.
ghost use Rattle.std.specs.Prelude.{◌≡◌, ◌≢◌, ◌+◌, ◌<◌, ◌≤◌, ◌^◌, IfOk, IfErr, IfSome};
ghost use Rattle.mu_text.specs.Lines.{words};
ghost use Rattle.mu_input.specs.Readings.{ReadsFront};
ghost use Rattle.mu_input.specs.declared.job.InputEnd.TheVariants.{NoMemory};
ghost use Rattle.mu_input.specs.Settings.{setting, setting_at, width_at, settings_at, HasLimits};

use crate::cause::{BATCH, BUDGET, HEAD, NO_END, REPLICAS, RING};
use crate::job::InputEnd;
use crate::{LEAST_RING, MOST_REPLICAS, MOST_RING, MOST_STEPS, MOST_WIDTH};
use mu_text::{LineReader, number_within, two_words};

/// The most lines of settings.
pub const SETTING_LINES: u32 = 5;

/// The settings of a job.
#[derive(Clone, Copy, Debug, PartialEq, Eq)]
pub struct Settings {
    /// The version: 1 or 2.
    pub version: u8,
    /// How many commands a batch has at most: 1 to 4, and 1 in version 1.
    pub width: u8,
    /// How many replicas there are: 1 to 7.
    pub replicas: u8,
    /// How many places a ring has: 8 to 1,024.
    pub ring: u16,
    /// How many steps one replica may take: 1 to 131,071.
    pub budget: u32,
}

/// The settings, taken from the front of the lines.
///
/// # Errors
///
/// `Refused` with the first line that is no setting, or is missing, and the cause: 1 the version, 2
/// the replicas, 3 the places of a ring, 4 the steps of a replica, 15 the commands of a batch, 11
/// if the lines end.
pub fn read_settings(lines: &mut LineReader<'_>) -> Result<Settings, InputEnd>
    requires { lines.old.number + 6 < 2 ^ 32 }
    ensures reading { ReadsFront result (settings_at lines.old) lines.new }
    ensures limits { IfOk result HasLimits }
    ensures few { IfOk result (λ _. lines.new.number ≤ lines.old.number + SETTING_LINES) }
    ensures refused { IfErr result (λ end. end ≢ NoMemory) }
{
    let version = next_setting(lines, b"mu", 1, 2, HEAD)?;
    let replicas = next_setting(lines, b"replicas", 1, u32::from(MOST_REPLICAS), REPLICAS)?;
    let least = u32::from(LEAST_RING);
    let ring = next_setting(lines, b"ring", least, u32::from(MOST_RING), RING)?;
    let budget = next_setting(lines, b"budget", 1, MOST_STEPS, BUDGET)?;
    let width = width(lines, version)?;
    Ok(Settings {
        version: version as u8,
        width: width as u8,
        replicas: replicas as u8,
        ring: ring as u16,
        budget,
    })
}

/// How many commands a batch has at most: what a line of version 2 sets.
fn width(lines: &mut LineReader<'_>, version: u32) -> Result<u32, InputEnd>
    requires { lines.old.number + 1 < 2 ^ 32 }
    ensures reading { ReadsFront result (width_at version lines.old) lines.new }
    ensures low { IfOk result (λ width. 1 ≤ width) }
    ensures high { IfOk result (λ width. width ≤ MOST_WIDTH) }
    ensures single { IfOk result (λ width. version ≡ 1 → width ≡ 1) }
    ensures few { IfOk result (λ _. lines.new.number ≤ lines.old.number + 1) }
    ensures refused { IfErr result (λ end. end ≢ NoMemory) }
{
    if version == 2 {
        next_setting(lines, b"batch", 1, u32::from(MOST_WIDTH), BATCH)
    } else {
        Ok(1)
    }
}

/// The number of the next line, which is a name and a number from `low` to `high`.
fn next_setting(
    lines: &mut LineReader<'_>,
    name: &[u8],
    low: u32,
    high: u32,
    cause: u8,
) -> Result<u32, InputEnd>
    requires { lines.old.number + 1 < 2 ^ 32 }
    ensures reading { ReadsFront result (setting_at name.now low high cause lines.old) lines.new }
    ensures low { IfOk result (λ number. low ≤ number) }
    ensures high { IfOk result (λ number. number ≤ high) }
    ensures one { IfOk result (λ _. lines.new.number ≡ lines.old.number + 1) }
    ensures refused { IfErr result (λ end. end ≢ NoMemory) }
{
    let number = lines.number();
    let Some(line) = lines.next() else {
        return Err(InputEnd::at(number, NO_END));
    };
    setting(line, name, low, high).ok_or(InputEnd::at(number, cause))
}

/// The number of a line of a name and a number from `low` to `high`.
pub fn setting(line: &[u8], name: &[u8], low: u32, high: u32) -> Option<u32>
    ensures exact { result ≡ setting name.now low high (words line.now) }
    ensures low { IfSome result (λ number. low ≤ number) }
    ensures high { IfSome result (λ number. number ≤ high) }
{
    let (word, value) = two_words(line)?;
    if word == name {
        number_within(value, low, high)
    } else {
        None
    }
}
