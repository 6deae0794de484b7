//! Which jobs a desk of few senders can serve.
ghost use Rattle.std.specs.Prelude.{◌≡◌, ◌+◌, ◌<◌, ◌^◌, IfNone};
ghost use Rattle.mu_input.specs.Grammar.{job};
ghost use Rattle.mu_input.specs.Readings.{Fits};
ghost use Rattle.mu_input.specs.Senders.{IsForDesk, beyond_from, desk_line};
ghost use Rattle.mu_input.specs.declared.job.Job.{Job};

use crate::MOST_SENDERS;
use crate::bodies::{BodyLine, body_line};
use crate::heading::read_settings;
use mu_text::LineReader;

/// The line that keeps a job from a desk: 1 for a job of version 2, else the line at which a fifth
/// client begins. Bytes that leave the grammar before such a line have none. Takes no memory, and
/// the time of one walk over the bytes.
pub fn desk_line(bytes: &[u8]) -> Option<u32>
    ensures line { result ≡ desk_line bytes.now }
    ensures serves { IfNone result ((given : Job) → job bytes.now ≡ Fits given → IsForDesk given) }
{
    let mut lines = LineReader::new(bytes);
    match read_settings(&mut lines) {
        Ok(settings) if settings.version == 2 => Some(1),
        Ok(_) => client_beyond(&mut lines),
        Err(_) => None,
    }
}

/// The line at which the client after the last sender's begins, among the lines of the commands.
fn client_beyond(lines: &mut LineReader<'_>) -> Option<u32>
    requires { lines.old.number + 1600 < 2 ^ 32 }
    ensures { result ≡ beyond_from 0 0 lines.old.number lines.old.lines }
{
    let mut clients: u8 = 0;
    let mut commands: usize = 0;
    loop {
        let number = lines.number();
        let line = lines.next()?;
        match body_line(clients, commands, line) {
            Ok(BodyLine::Client) if clients == MOST_SENDERS => return Some(number),
            Ok(BodyLine::Client) => clients += 1,
            Ok(BodyLine::Operation(_)) => commands += 1,
            Ok(BodyLine::Script | BodyLine::End) | Err(_) => return None,
        }
    }
}
