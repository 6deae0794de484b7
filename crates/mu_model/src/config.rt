//! What all replicas know at the start.
ghost use Rattle.std.specs.Prelude.{◌≡◌, ◌/◌, ◌%◌, ◌^◌, IfOk, slice_index};

use crate::rows::Rows;
use std::alloc::AllocError;

/// Twelve words that spell a command. The head word has, from the low bits: operation 8 bits,
/// client 8, number 16, three lengths of 8 each, and in the top 8 how many rows of the same batch
/// follow.
#[derive(Clone, Copy, Debug, PartialEq, Eq)]
pub struct Row {
    /// The words in order, the head word first.
    pub words: [u64; 12],
}

impl Row {
    /// The client whose command it is.
    pub fn client(&self) -> u8
        ensures { result ≡ slice_index self.now.words 0 / 2 ^ 8 % 2 ^ 8 }
    {
        (self.words[0] / 256 % 256) as u8
    }

    /// Which command of its client it is, counted from 1.
    pub fn number(&self) -> u16
        ensures { result ≡ slice_index self.now.words 0 / 2 ^ 16 % 2 ^ 16 }
    {
        (self.words[0] / 65_536 % 65_536) as u16
    }

    /// How many rows of the same batch follow.
    pub fn rest(&self) -> u8
        ensures { result ≡ slice_index self.now.words 0 / 2 ^ 56 }
    {
        (self.words[0] / 72_057_594_037_927_936) as u8
    }
}

/// What all replicas know at the start.
#[derive(Drop)]
pub struct Config {
    /// The version of the job's form: 1, or 2 for batches and marks.
    pub version: u8,
    /// How many commands a batch has at most: 1 to 4, and 1 in version 1.
    pub width: u8,
    /// How many replicas there are: 1 to 7.
    pub replicas: u8,
    /// How many slots the log of a region has: 8 to 1,024.
    pub ring: u16,
    /// How many steps one replica may take: 1 to 131,071.
    pub budget: u32,
    /// The rows of the commands: 0 to 1,500.
    pub rows: Rows,
}

impl Config {
    /// The same configuration, which shares its rows.
    ///
    /// # Errors
    ///
    /// `AllocError` if they are shared more often than a word can count.
    pub fn try_clone(&self) -> Result<Config, AllocError>
        ensures { IfOk result (λ c. c ≡ self.now) }
    {
        Ok(Config {
            version: self.version,
            width: self.width,
            replicas: self.replicas,
            ring: self.ring,
            budget: self.budget,
            rows: self.rows.try_clone()?,
        })
    }
}
