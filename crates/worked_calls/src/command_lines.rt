//! The words of a command line, in an environment that has some.
use mu_shell::words_after_name;
use std::alloc::Global;
use std::env::{Env, FillError};
use std::test::Fail;

/// An environment with this command line, the name of the program first.
#[derive(Drop)]
struct CommandLine<'a> {
    words: &'a [&'a str],
}

impl Env for CommandLine<'_> {
    fn arg(&self, i: usize, buf: &mut [u8]) -> Result<usize, FillError> {
        let Some(word) = self.words.get(i) else {
            return Err(FillError::NotPresent);
        };
        let bytes = word.as_bytes();
        if bytes.len() > buf.len() {
            return Err(FillError::TooLong);
        }
        buf[..bytes.len()].copy_from_slice(bytes);
        Ok(bytes.len())
    }

    fn var(&self, _name: &str, _buf: &mut [u8]) -> Result<usize, FillError> {
        Err(FillError::NotPresent)
    }

    fn var_at(&self, _i: usize, _buf: &mut [u8]) -> Result<usize, FillError> {
        Err(FillError::NotPresent)
    }
}

/// Whether these words of a command line are those after the program's name.
fn are_read(alloc: Global, line: &[&str], wanted: &[&str]) -> bool {
    match words_after_name(&(CommandLine { words: line }, alloc)) {
        Ok(words) => words
            .iter()
            .map(|word| word.as_str())
            .eq(wanted.iter().copied()),
        Err(_) => false,
    }
}

/// Command lines, and the words after the program's name.
const LINES: [(&[&str], &[&str]); 4] = [
    (&["mu", "live", "2"], &["live", "2"]),
    (&["mu_draw", "brief", "0", "9"], &["brief", "0", "9"]),
    (&["mu"], &[]),
    (&[], &[]),
];

#[test]
fn words_are_those_after_the_name(rt: HostRuntime) -> Result<(), Fail> {
    for (line, wanted) in LINES {
        assert!(rt; are_read(rt.alloc(), line, wanted), "{line:?}");
    }
    Ok(())
}
