//! Words and numbers in a line.

ghost use Rattle.std.specs.Prelude.{◌≡◌, ◌≤◌, ◌==◌, IfOk};
ghost use Rattle.std.specs.List.{slice_split, list_any};
ghost use Rattle.pl_cases.specs.Words as spec;
ghost use Rattle.pl_words.specs.Words.{same};

use crate::malformed::Reason;
use pl_base::{NoMemory, Seq, Text, Word};
use pl_words::{number_within, same};
use std::alloc::Global;

/// How the word without bytes is written.
const NO_BYTES: &[u8] = b"''";

/// Whether the name is one of these.
pub fn is_one_of(name: &[u8], names: &[Text]) -> bool
    ensures { result ≡ list_any (same name.now) names.now }
{
    for other in names {
        if same(name, other.bytes()) {
            return true;
        }
    }
    false
}

/// What stands before, between and behind the bytes that separate.
pub fn pieces(alloc: Global, separator: u8, bytes: &[u8]) -> Result<Vec<Text>, NoMemory>
    ensures { IfOk result (λ pieces. pieces.items ≡ slice_split (λ b. b == separator) bytes.now) }
{
    let mut pieces = Vec::new(alloc);
    let mut piece = Vec::new(alloc);
    for byte in bytes {
        if *byte == separator {
            pieces.push(Text::from_vec(piece))?;
            piece = Vec::new(alloc);
        } else {
            piece.push(*byte)?;
        }
    }
    pieces.push(Text::from_vec(piece))?;
    Ok(pieces)
}

/// The words of a line, between blanks.
pub fn words(alloc: Global, line: &[u8]) -> Result<Seq<Word>, NoMemory>
    ensures { IfOk result (λ words. words ≡ spec.words_of line.now) }
{
    let pieces = pieces(alloc, b' ', line)?;
    let mut words = Seq::empty(alloc);
    for piece in pieces.as_slice() {
        if !piece.bytes().is_empty() {
            words.push(piece.copy(alloc)?)?;
        }
    }
    Ok(words)
}

/// The word that is written so on a command line.
fn word(alloc: Global, written: &[u8]) -> Result<Word, NoMemory>
    ensures { IfOk result (λ word. word ≡ spec.word_of written.now) }
{
    if same(NO_BYTES, written) {
        Text::of(alloc, b"")
    } else {
        Text::of(alloc, written)
    }
}

/// The words of a command line.
pub fn command(alloc: Global, line: &[u8]) -> Result<Seq<Word>, NoMemory>
    ensures { IfOk result (λ words. words ≡ spec.command_of line.now) }
{
    let written = words(alloc, line)?;
    let mut command = Seq::empty(alloc);
    for piece in written.items() {
        command.push(word(alloc, piece.bytes())?)?;
    }
    Ok(command)
}

pub fn copies(alloc: Global, texts: &[Text]) -> Result<Seq<Text>, NoMemory>
    ensures { IfOk result (λ copies. copies ≡ texts.now) }
{
    let mut copies = Seq::empty(alloc);
    for text in texts {
        copies.push(text.copy(alloc)?)?;
    }
    Ok(copies)
}

/// The line without the white space at its ends.
pub fn trimmed(line: &[u8]) -> &[u8]
    ensures { result.now ≡ spec.trimmed line.now }
{
    line.trim_ascii()
}

/// A number of this range, in decimal.
pub fn number(least: u64, most: u64, word: &[u8]) -> Result<u64, Reason>
    ensures value { result ≡ spec.number_of least most word.now }
    ensures within { IfOk result (λ n. n ≤ most) }
{
    number_within(least, most, word).ok_or(Reason::BadNumber)
}
