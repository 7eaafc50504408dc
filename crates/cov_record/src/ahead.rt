// Bytes that weren't read yet.
ghost use Rattle.std.specs.Prelude.{◌≡◌, ◌==◌, length};
ghost use Rattle.std.specs.Option.{option_map};
ghost use Rattle.cov_record.specs.Reading.{Takes, front_u8, front_u16, front_u32, front_bytes, front_sized};

use std::marker::Model;

/// The bytes ahead of a reader; contracts see them as a list.
#[derive(Drop)]
pub(crate) struct Ahead<'a> {
    bytes: &'a [u8],
}

impl<'a> Model for Ahead<'a> {
    ghost use Rattle.std.specs.Prelude.{List, ℕ};

    ghost Value = { List ℕ };

    ghost view = { λ a. a.bytes.now };
}

impl<'a> Ahead<'a> {
    pub(crate) fn new(bytes: &'a [u8]) -> Ahead<'a>
        ensures { result ≡ bytes.now }
    {
        Ahead { bytes }
    }

    /// A reader of the same bytes.
    pub(crate) fn copy(&self) -> Ahead<'a>
        ensures { result ≡ self.now }
    {
        Ahead { bytes: self.bytes }
    }

    pub(crate) fn is_empty(&self) -> bool
        ensures { result ≡ (length self.now == 0) }
    {
        self.bytes.is_empty()
    }

    pub(crate) fn take_u8(&mut self) -> Option<u8>
        ensures { Takes (front_u8 self.old) result self.new }
    {
        match self.bytes {
            [a, rest @ ..] => {
                self.bytes = rest;
                Some(*a)
            }
            _ => None,
        }
    }

    pub(crate) fn take_u16(&mut self) -> Option<u16>
        ensures { Takes (front_u16 self.old) result self.new }
    {
        match self.bytes {
            [a, b, rest @ ..] => {
                self.bytes = rest;
                Some(u16::from_be_bytes([*a, *b]))
            }
            _ => None,
        }
    }

    pub(crate) fn take_u32(&mut self) -> Option<u32>
        ensures { Takes (front_u32 self.old) result self.new }
    {
        match self.bytes {
            [a, b, c, d, rest @ ..] => {
                self.bytes = rest;
                Some(u32::from_be_bytes([*a, *b, *c, *d]))
            }
            _ => None,
        }
    }

    pub(crate) fn take_bytes(&mut self, count: usize) -> Option<&'a [u8]>
        ensures { Takes (front_bytes count self.old) (option_map (λ s. s.now) result) self.new }
    {
        if self.bytes.len() < count {
            return None;
        }
        let (front, rest) = self.bytes.split_at(count);
        self.bytes = rest;
        Some(front)
    }

    /// Takes as many bytes as the first says.
    pub(crate) fn take_sized(&mut self) -> Option<&'a [u8]>
        ensures { Takes (front_sized self.old) (option_map (λ s. s.now) result) self.new }
    {
        let count = self.take_u8()?;
        self.take_bytes(count as usize)
    }
}
