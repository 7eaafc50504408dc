// Texts.
ghost use Rattle.std.specs.Prelude.{◌≡◌, ◌≤◌, [], ◌∷◌, ◌++◌, length, IfOk, OnOk, OnErr, slice_get, ◌==◌};
ghost use Rattle.cov_base.specs.Texts.{Written};

use crate::Memory;
use std::alloc::Global;
use std::marker::Model;
use std::rc::Rc;

/// A list of bytes. Copies of a copy, and those of a shared text, share its bytes, until one of them is changed.
#[derive(Debug)]
pub struct Text {
    bytes: Bytes,
}

/// Bytes with one owner, or with several that don't change them.
#[derive(Debug, Drop)]
enum Bytes {
    Own(Vec<u8>),
    Shared(Rc<Vec<u8>>),
}

impl Model for Text {
    ghost use Rattle.std.specs.Prelude.{List, ℕ};
    ghost use Rattle.cov_base.specs.Texts.{bytes_of};

    ghost Value = { List ℕ };

    ghost view = { λ t. bytes_of t.bytes };
}

// A text is dropped by a call, so that whoever drops one needn't know how its bytes are owned.
impl Drop for Text {
    fn drop(self) {
        let Text { bytes } = self;
        drop(bytes);
    }
}

impl Text {
    pub fn new(alloc: Global) -> Text
        ensures { result ≡ [] }
    {
        Text::owning(Vec::new(alloc))
    }

    pub fn from_slice(alloc: Global, bytes: &[u8]) -> Result<Text, Memory>
        ensures { IfOk result (λ text. text ≡ bytes.now) }
    {
        Ok(Text::owning(Vec::from_slice(alloc, bytes)?))
    }

    /// A text that shares its bytes with each copy, as one that is kept does.
    pub fn shared(alloc: Global, bytes: &[u8]) -> Result<Text, Memory>
        ensures { IfOk result (λ text. text ≡ bytes.now) }
    {
        let shared = Rc::new(alloc, Vec::from_slice(alloc, bytes)?)?;
        Ok(Text {
            bytes: Bytes::Shared(shared),
        })
    }

    // A text that is the one owner of its bytes.
    fn owning(bytes: Vec<u8>) -> Text
        ensures { result ≡ bytes.items }
    {
        Text {
            bytes: Bytes::Own(bytes),
        }
    }

    fn bytes(&self) -> &Vec<u8>
        ensures { result.now.items ≡ self.now }
    {
        match &self.bytes {
            Bytes::Own(own) => own,
            Bytes::Shared(shared) => shared.as_ref(),
        }
    }

    pub fn push(&mut self, byte: u8) -> Result<(), Memory>
        ensures ok { OnOk result (self.new ≡ self.old ++ byte ∷ []) }
        ensures err { OnErr result (self.new ≡ self.old) }
    {
        self.append(&[byte])
    }

    /// Appends all the bytes or none.
    pub fn append(&mut self, bytes: &[u8]) -> Result<(), Memory>
        ensures ok { OnOk result (self.new ≡ self.old ++ bytes.now) }
        ensures err { OnErr result (self.new ≡ self.old) }
    {
        if let Bytes::Own(own) = &mut self.bytes {
            own.extend_from_slice(bytes)?;
            return Ok(());
        }
        let mut own = copied(self.bytes())?;
        own.extend_from_slice(bytes)?;
        self.bytes = Bytes::Own(own);
        Ok(())
    }

    /// Puts bytes over those from a place on, and past the end: all of them or none.
    pub fn overwrite(&mut self, at: usize, bytes: &[u8]) -> Result<(), Memory>
        requires { at ≤ length self.old }
        ensures ok { OnOk result (Written at bytes.now self.old self.new) }
        ensures err { OnErr result (self.new ≡ self.old) }
    {
        if let Bytes::Own(own) = &mut self.bytes {
            return overwrite(own, at, bytes);
        }
        let mut own = copied(self.bytes())?;
        overwrite(&mut own, at, bytes)?;
        self.bytes = Bytes::Own(own);
        Ok(())
    }

    pub fn len(&self) -> usize
        ensures { result ≡ length self.now }
    {
        self.bytes().len()
    }

    pub fn is_empty(&self) -> bool
        ensures { result ≡ (length self.now == 0) }
    {
        self.bytes().is_empty()
    }

    /// The byte at an index, None exactly where the index isn't below the length.
    pub fn get(&self, index: usize) -> Option<u8>
        ensures { result ≡ slice_get self.now index }
    {
        self.bytes().get(index).copied()
    }

    pub fn as_slice(&self) -> &[u8]
        ensures { result.now ≡ self.now }
    {
        self.bytes().as_slice()
    }

    /// The bytes as a Vec. It takes memory only where they have another owner.
    pub fn into_vec(self) -> Result<Vec<u8>, Memory>
        ensures { IfOk result (λ bytes. bytes.items ≡ self) }
    {
        let Text { bytes } = self;
        match bytes {
            Bytes::Own(own) => Ok(own),
            Bytes::Shared(shared) => match Rc::try_unwrap(shared) {
                Ok(own) => Ok(own),
                Err(shared) => copied(shared.as_ref()),
            },
        }
    }

    /// A text of the same bytes. A copy of a copy, or of a shared text, shares them: it takes no memory, and time that doesn't
    /// depend on how many they are; `Memory` comes there only where its owners can't be counted.
    pub fn copy(&self) -> Result<Text, Memory>
        ensures { IfOk result (λ text. text ≡ self.now) }
    {
        let shared = match &self.bytes {
            Bytes::Own(own) => Rc::new(*own.allocator(), copied(own)?)?,
            Bytes::Shared(shared) => shared.clone()?,
        };
        Ok(Text {
            bytes: Bytes::Shared(shared),
        })
    }

    /// The allocator that the text keeps.
    pub fn allocator(&self) -> Global {
        *self.bytes().allocator()
    }
}

fn copied(bytes: &Vec<u8>) -> Result<Vec<u8>, Memory>
    ensures { IfOk result (λ copy. copy.items ≡ bytes.now.items) }
{
    Ok(Vec::from_slice(*bytes.allocator(), bytes.as_slice())?)
}

fn overwrite(bytes: &mut Vec<u8>, at: usize, with: &[u8]) -> Result<(), Memory>
    requires { at ≤ length bytes.old.items }
    ensures ok { OnOk result (Written at with.now bytes.old.items bytes.new.items) }
    ensures err { OnErr result (bytes.new.items ≡ bytes.old.items) }
{
    let within = bytes.len() - at;
    if with.len() <= within {
        bytes[at..at + with.len()].copy_from_slice(with);
        return Ok(());
    }
    bytes.extend_from_slice(&with[within..])?;
    bytes[at..at + within].copy_from_slice(&with[..within]);
    Ok(())
}

impl From<String> for Text {
    ghost use Rattle.std.specs.String.{string_bytes};

    ghost from_gives = { λ string text. text ≡ string_bytes string };

    fn from(string: String) -> Text {
        Text::owning(string.into_bytes())
    }
}
