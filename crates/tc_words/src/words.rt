//! What words ask for.
ghost use Rattle.std.specs.Prelude.{◌≡◌, Some, None, IfOk, IfErr, IfSome, IsErrOf, map};
ghost use Rattle.tc_words.specs.Options.{check_of, invocation_of};

use crate::asked::{Invocation, check_in, invocation_in};
use crate::fault::WordsFault;
use crate::grammar::matches_of;
use std::alloc::{AllocError, Global};
use tc_value::Text;

/// What the words ask for, of which the first names the subcommand. Errs where they are no `run` and no `demo`, and for want
/// of memory.
pub fn invocation(alloc: Global, words: &[Text]) -> Result<Invocation, WordsFault>
    ensures ok { IfOk result (λ invocation. invocation_of words.now ≡ Some invocation) }
    ensures usage { IsErrOf result WordsFault.Usage → invocation_of words.now ≡ None }
{
    let texts = texts_of(alloc, words)?;
    invocation_of(alloc, texts.as_slice())
}

// The same of words that are borrowed.
fn invocation_of<'a>(alloc: Global, words: &'a [&'a str]) -> Result<Invocation, WordsFault>
    ensures ok { IfOk result (λ invocation. invocation_of (map (λ word. word.now) words.entry.now) ≡ Some invocation) }
    ensures usage { IsErrOf result WordsFault.Usage → invocation_of (map (λ word. word.now) words.entry.now) ≡ None }
{
    let matches = matches_of(alloc, words)?;
    invocation_in(&matches).ok_or(WordsFault::Usage)
}

/// How many partitions the words have checked; nothing where they are no `check`, and then they may be an invocation. Errs for
/// want of memory alone.
pub fn check_asked(alloc: Global, words: &[Text]) -> Result<Option<u32>, WordsFault>
    ensures ok { IfOk result (λ asked. check_of words.now ≡ asked) }
    ensures apart { IfOk result (λ asked. IfSome asked (λ partitions. invocation_of words.now ≡ None)) }
    ensures memory { IfErr result (λ fault. fault ≡ WordsFault.Memory) }
{
    let texts = texts_of(alloc, words)?;
    check_of(alloc, texts.as_slice())
}

// The same of words that are borrowed.
fn check_of<'a>(alloc: Global, words: &'a [&'a str]) -> Result<Option<u32>, WordsFault>
    ensures ok { IfOk result (λ asked. check_of (map (λ word. word.now) words.entry.now) ≡ asked) }
    ensures apart { IfOk result (λ asked. IfSome asked (λ partitions.
        invocation_of (map (λ word. word.now) words.entry.now) ≡ None)) }
    ensures memory { IfErr result (λ fault. fault ≡ WordsFault.Memory) }
{
    match matches_of(alloc, words) {
        Ok(matches) => Ok(check_in(&matches)),
        Err(error) => match WordsFault::from(error) {
            WordsFault::Usage => Ok(None),
            WordsFault::Memory => Err(WordsFault::Memory),
        },
    }
}

// The words as `clap` takes them.
fn texts_of<'a>(alloc: Global, words: &'a [Text]) -> Result<Vec<&'a str>, AllocError>
    ensures { IfOk result (λ texts. map (λ text. text.now) texts.items ≡ words.now) }
{
    let mut texts = Vec::new(alloc);
    for word in words {
        texts.push(word.as_str())?;
    }
    Ok(texts)
}
