//! A pipe of bytes.
ghost use Rattle.std.specs.Prelude.{◌≡◌, ◌++◌, ◌<◌, ◌≤◌, ◌==◌, [], length, min, take, drop, OnErr, OnOk};

use std::alloc::{AllocError, Global};
use std::marker::Model;

/// Bytes that were put and not taken. Contracts see them in order.
#[derive(Drop)]
pub struct Pipe {
    bytes: Vec<u8>,
    start: usize,
    alloc: Global,
}

impl Model for Pipe {
    ghost use Rattle.std.specs.Prelude.{ℕ, List, drop, vec_len, ◌≤◌};

    ghost Value = { List ℕ };

    ghost view = { λ p. drop p.start p.bytes.items };

    ghost invariant = { λ p. p.start ≤ vec_len p.bytes };
}

impl Pipe {
    /// No byte.
    pub fn new(alloc: Global) -> Pipe
        ensures { result ≡ [] }
    {
        Pipe {
            bytes: Vec::new(alloc),
            start: 0,
            alloc,
        }
    }

    /// The bytes.
    pub fn as_slice(&self) -> &[u8]
        ensures { result.now ≡ self.now }
    {
        &self.bytes.as_slice()[self.start..]
    }

    /// How many there are.
    pub fn len(&self) -> usize
        ensures { result ≡ length self.now }
    {
        self.bytes.len() - self.start
    }

    /// Whether there is none.
    pub fn is_empty(&self) -> bool
        ensures { result ≡ (length self.now == 0) }
    {
        self.len() == 0
    }

    /// Takes all.
    pub fn clear(&mut self)
        ensures { self.new ≡ [] }
    {
        self.bytes.clear();
        self.start = 0;
    }

    /// Takes the first bytes.
    pub fn advance(&mut self, count: usize)
        requires { count ≤ length self.old }
        ensures { self.new ≡ drop count self.old }
    {
        self.start += count;
    }

    /// Puts bytes behind the others. An `Err` comes only for want of memory, and nothing is put.
    pub fn put(&mut self, bytes: &[u8]) -> Result<(), AllocError>
        ensures put { OnOk result (self.new ≡ self.old ++ bytes.now) }
        ensures same { OnErr result (self.new ≡ self.old) }
    {
        self.let_go()?;
        self.bytes.extend_from_slice(bytes)
    }

    /// Takes as many bytes as there is room for, and answers how many.
    pub fn give(&mut self, out: &mut [u8]) -> usize
        ensures count { result ≡ min (length self.old) (length out.old) }
        ensures given { self.old ≡ take result out.new ++ self.new }
    {
        let held = self.len();
        let count = if out.len() < held { out.len() } else { held };
        out[..count].copy_from_slice(&self.as_slice()[..count]);
        self.advance(count);
        count
    }

    /// Lets the memory go of bytes that were taken.
    fn let_go(&mut self) -> Result<(), AllocError>
        ensures { self.new ≡ self.old }
    {
        if self.start == 0 {
            return Ok(());
        }
        if self.start == self.bytes.len() {
            self.clear();
            return Ok(());
        }
        let kept = Vec::from_slice(self.alloc, &self.bytes.as_slice()[self.start..])?;
        self.bytes = kept;
        self.start = 0;
        Ok(())
    }
}
