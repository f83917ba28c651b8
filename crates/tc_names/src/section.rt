//! The bytes of a dictionary.

ghost use Rattle.std.specs.Prelude.{◌≡◌, ◌≢◌, ◌<◌, ◌^◌, ℕ, List, [], length, option_map, IfOk, IfSome, IsErrOf};
ghost use Rattle.tc_bytes.specs.Codec.{Gives};
ghost use Rattle.tc_bytes.specs.Reading.{elements_at};
ghost use Rattle.tc_model.specs.Dictionary.{IsDictionary};
ghost use Rattle.tc_names.specs.Section.{section, name_at, is_new, read_section};

use crate::dictionary::Names;
use crate::fault::NamesFault;
use std::alloc::Global;
use tc_bytes::{Memory, counted_at, put_counted, put_u32, u32_at};

impl Names {
    /// How many bytes the dictionary is spelled in.
    fn section_size(&self) -> usize
        ensures { result ≡ length (section self.now) }
    {
        4 + 4 * self.len() as usize + self.size() as usize
    }

    /// The bytes of the dictionary, in no more memory than they take. Errs only for want of memory.
    pub fn to_bytes(&self, alloc: Global) -> Result<Vec<u8>, Memory>
        ensures spelled { IfOk result (λ bytes. bytes.items ≡ section self.now) }
    {
        let mut out = Vec::with_capacity(alloc, self.section_size())?;
        put_u32(&mut out, self.len())?;
        for id in 0..self.len() {
            put_counted(&mut out, self.name_of(id).unwrap().as_bytes())?;
        }
        Ok(out)
    }

    /// The dictionary that the bytes spell. `NotNames` comes exactly where no dictionary spells them.
    pub fn from_bytes(alloc: Global, bytes: &[u8]) -> Result<Names, NamesFault>
        ensures found { IfOk result (λ names. bytes.now ≡ section names) }
        ensures dictionary { IfOk result IsDictionary }
        ensures only { IfOk result (λ names. (other : List (List ℕ)) → IsDictionary other → bytes.now ≡ section other → names ≡ other) }
        ensures refused { IsErrOf result NamesFault.NotNames → (names : List (List ℕ)) → IsDictionary names → bytes.now ≢ section names }
    {
        read(alloc, bytes)
    }
}

/// The dictionary that all of the bytes spell, by the definition of reading.
fn read(alloc: Global, bytes: &[u8]) -> Result<Names, NamesFault>
    ensures { Gives (λ names. names) NamesFault.NotNames result (read_section bytes.now) }
{
    let (count, rest) = u32_at(bytes).ok_or(NamesFault::NotNames)?;
    let (names, rest) = names_in(alloc, count, rest)?;
    if !rest.is_empty() {
        return Err(NamesFault::NotNames);
    }
    Ok(names)
}

/// So many names from the front of the bytes.
fn names_in(alloc: Global, count: u32, bytes: &[u8]) -> Result<(Names, &[u8]), NamesFault>
    ensures { Gives (λ x. (x.0, x.1.now)) NamesFault.NotNames result (elements_at is_new name_at count [] bytes.now) }
{
    // A name takes four bytes at least, so a count that bytes cannot hold asks for no more room than these do.
    let room = (count as usize).min(bytes.len() / 4);
    let mut names = Names::with_room(alloc, room, bytes.len() - 4 * room)?;
    let mut rest = bytes;
    for number in 0..count {
        let (name, after) = name_in(rest).ok_or(NamesFault::NotNames)?;
        if names.learn(name)? != number {
            return Err(NamesFault::NotNames);
        }
        rest = after;
    }
    // Each name was compared with those at its place, so each had a place of its own until now.
    names.settle()?;
    Ok((names, rest))
}

/// One name from the front of the bytes.
fn name_in(bytes: &[u8]) -> Option<(&str, &[u8])>
    ensures name { option_map (λ x. (x.0.now, x.1.now)) result ≡ name_at bytes.now }
    ensures short { IfSome result (λ x. length x.0.now < 2 ^ 32) }
{
    let (text, rest) = counted_at(bytes)?;
    match str::from_utf8(text) {
        Ok(text) => Some((text, rest)),
        Err(_) => None,
    }
}
