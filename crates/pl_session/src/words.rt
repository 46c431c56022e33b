//! What the words of the command line ask for.

ghost use Rattle.std.specs.Prelude.{◌≡◌, ◌≤◌, Some, None, IfSome, MatchOption};
ghost use Rattle.pl_session.specs.Words as spec;

use crate::ended::Limits;
use pl_base::Word;
use pl_words::{number_within, same};

/// The most workers, and the most turns of an activity.
const MOST_WORKERS: u64 = 64;

const MOST_TURNS: u64 = 1_000_000_000;

/// The most digits of a number: what `MOST_TURNS` has.
const MOST_DIGITS: usize = 10;

/// The options behind a file's name, each of which may be given or not.
#[derive(Clone, Copy, Debug)]
pub struct Options {
    pub workers: Option<u32>,
    pub turns: Option<u64>,
}

/// What is to be run: a file, with so many workers, and so many turns for each activity.
#[derive(Clone, Copy, Debug)]
pub struct Command<'w> {
    pub name: &'w [u8],
    pub workers: u32,
    pub turns: u64,
}

/// A file's name isn't empty and doesn't begin with `-`.
fn is_name(word: &[u8]) -> bool
    ensures { result ≡ spec.is_name word.now }
{
    match word {
        [] => false,
        [first, ..] => *first != b'-',
    }
}

/// The number of a word, where it is one in a range.
fn number_of(least: u64, most: u64, word: &[u8]) -> Option<u64>
    ensures value { result ≡ spec.number_of least most word.now }
    ensures within { IfSome result (λ n. n ≤ most) }
{
    if word.len() > MOST_DIGITS {
        return None;
    }
    number_within(least, most, word)
}

fn with_workers(options: Options, word: &[u8]) -> Option<Options>
    ensures { result ≡ spec.with_workers options options.workers word.now }
{
    match options.workers {
        Some(_) => None,
        None => {
            let workers = Some(number_of(1, MOST_WORKERS, word)? as u32);
            Some(Options { workers, ..options })
        }
    }
}

fn with_turns(options: Options, word: &[u8]) -> Option<Options>
    ensures { result ≡ spec.with_turns options options.turns word.now }
{
    match options.turns {
        Some(_) => None,
        None => {
            let turns = Some(number_of(1, MOST_TURNS, word)?);
            Some(Options { turns, ..options })
        }
    }
}

/// An option more, by its word and the word behind it.
fn with_option(options: Options, word: &[u8], value: &[u8]) -> Option<Options>
    ensures { result ≡ spec.with_option options word.now value.now }
{
    match (same(b"--workers", word), same(b"--turns", word)) {
        (true, _) => with_workers(options, value),
        (false, true) => with_turns(options, value),
        (false, false) => None,
    }
}

/// The options that words are.
fn options_from(options: Options, words: &[Word]) -> Option<Options>
    ensures { result ≡ spec.options_from options words.now }
{
    let Some((word, behind)) = words.split_first() else {
        return Some(options);
    };
    let Some((value, more)) = behind.split_first() else {
        return None;
    };
    let options = with_option(options, word.bytes(), value.bytes())?;
    options_from(options, more)
}

/// The command that the words are: `run FILE` with its options.
pub fn command_of(words: &[Word]) -> Option<Command<'_>>
    ensures { MatchOption result (spec.command_of words.now ≡ None) (λ c. spec.command_of words.now ≡ Some (record { name = c.name.now; workers = c.workers; turns = c.turns })) }
{
    let [command, name, more @ ..] = words else {
        return None;
    };
    if command.bytes() != b"run".as_slice() || !is_name(name.bytes()) {
        return None;
    }
    let none = Options {
        workers: None,
        turns: None,
    };
    let options = options_from(none, more)?;
    Some(Command {
        name: name.bytes(),
        workers: options.workers.unwrap_or(Limits::DEFAULT.workers),
        turns: options.turns.unwrap_or(Limits::DEFAULT.turns),
    })
}
