//! Bytes of a drawing under construction.
ghost use Rattle.std.specs.Prelude.{◌≡◌, [], ◌++◌, OnOk};
ghost use Rattle.std.specs.Fmt.{decimal};
ghost use Rattle.mu_picture.specs.Shapes.{escape, escaped};

use mu_model::NoMemory;
use mu_text::Line;
use std::alloc::Global;
use std::marker::Model;

/// Bytes of a drawing so far. Contracts see them as a list.
#[derive(Drop)]
pub struct Sheet {
    bytes: Vec<u8>,
}

impl Model for Sheet {
    ghost use Rattle.std.specs.Prelude.{List, ℕ};

    ghost Value = { List ℕ };

    ghost view = { λ s. s.bytes.items };
}

impl Sheet {
    /// No bytes. Takes no memory yet.
    pub fn new(alloc: Global) -> Sheet
        ensures { result ≡ [] }
    {
        Sheet {
            bytes: Vec::new(alloc),
        }
    }

    /// The bytes so far.
    pub fn as_slice(&self) -> &[u8]
        ensures { result.now ≡ self.now }
    {
        self.bytes.as_slice()
    }

    /// Adds bytes at the end.
    pub fn push(&mut self, bytes: &[u8]) -> Result<(), NoMemory>
        ensures { OnOk result (self.new ≡ self.old ++ bytes.now) }
    {
        self.bytes.extend_from_slice(bytes)
    }

    /// Adds a number in decimal digits.
    pub fn push_number(&mut self, number: u64) -> Result<(), NoMemory>
        ensures { OnOk result (self.new ≡ self.old ++ decimal number) }
    {
        let mut digits = Line::new();
        digits.push_number(number);
        self.push(digits.as_slice())
    }

    /// Adds what a byte of a text is written as.
    fn push_escape(&mut self, byte: u8) -> Result<(), NoMemory>
        ensures { OnOk result (self.new ≡ self.old ++ escape byte) }
    {
        match byte {
            b'<' => self.push(b"&lt;"),
            b'>' => self.push(b"&gt;"),
            b'&' => self.push(b"&amp;"),
            b'\'' => self.push(b"&apos;"),
            b'"' => self.push(b"&quot;"),
            b' '..=b'~' => self.push(&[byte]),
            _ => self.push(b"?"),
        }
    }

    /// Adds a text, with what has a meaning in XML written as an entity.
    pub fn push_escaped(&mut self, text: &[u8]) -> Result<(), NoMemory>
        ensures { OnOk result (self.new ≡ self.old ++ escaped text.now) }
    {
        for &byte in text {
            self.push_escape(byte)?;
        }
        Ok(())
    }
}
