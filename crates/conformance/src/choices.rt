//! The choices of a run as lines: for a loop over workers its runs, each the lengths of its pieces joined by `+`; the
//! iteration that raised; the variable whose writes don't go together.

ghost use Rattle.std.specs.Prelude.{◌≡◌, ◌∷◌, ◌++◌, codes, decimal, IfOk, OnOk};
ghost use Rattle.conformance.specs.Choices.{pieces_text, runs_text, choice_text, choice_lines};

use itoa::Buffer;
use pl_base::{Bracket, Choice, NoMemory, Text};
use std::alloc::Global;

/// One piece of a run, behind its sign.
fn write_piece(line: &mut Vec<u8>, sign: u8, count: u32) -> Result<(), NoMemory>
    ensures { OnOk result (line.new.items ≡ line.old.items ++ sign ∷ decimal count) }
{
    let mut buffer = Buffer::new();
    line.push(sign)?;
    line.extend_from_slice(buffer.format(count).as_bytes())?;
    Ok(())
}

/// One run of a bracketing.
fn write_run(line: &mut Vec<u8>, pieces: &[u32]) -> Result<(), NoMemory>
    ensures { OnOk result (line.new.items ≡ line.old.items ++ pieces_text 32 pieces.now) }
{
    let mut sign = b' ';
    for count in pieces {
        write_piece(line, sign, *count)?;
        sign = b'+';
    }
    Ok(())
}

fn write_runs(line: &mut Vec<u8>, bracket: &Bracket) -> Result<(), NoMemory>
    ensures { OnOk result (line.new.items ≡ line.old.items ++ codes "loop" ++ runs_text bracket.now.runs) }
{
    line.extend_from_slice(b"loop")?;
    for run in bracket.runs.items() {
        write_run(line, run.items())?;
    }
    Ok(())
}

fn write_choice(line: &mut Vec<u8>, choice: &Choice) -> Result<(), NoMemory>
    ensures { OnOk result (line.new.items ≡ line.old.items ++ choice_text choice.now) }
{
    match choice {
        Choice::Runs(bracket) => write_runs(line, bracket)?,
        Choice::Fail(i) => {
            let mut buffer = Buffer::new();
            line.extend_from_slice(b"fail ")?;
            line.extend_from_slice(buffer.format(*i).as_bytes())?;
        }
        Choice::Merge(name) => {
            line.extend_from_slice(b"merge ")?;
            line.extend_from_slice(name.bytes())?;
        }
        _ => line.extend_from_slice(b"another")?,
    }
    Ok(())
}

/// A line for each choice.
pub fn lines(alloc: Global, choices: &[Choice]) -> Result<Text, NoMemory>
    ensures { IfOk result (λ text. text ≡ choice_lines choices.now) }
{
    let mut text = Vec::new(alloc);
    for choice in choices {
        write_choice(&mut text, choice)?;
        text.push(b'\n')?;
    }
    Ok(Text::from_vec(text))
}
