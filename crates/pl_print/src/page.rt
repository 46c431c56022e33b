//! The page that a program is printed on: bytes that grow by words.

ghost use Rattle.std.specs.Prelude.{◌≡◌, ◌∷◌, ◌++◌, ◌≤◌, ◌+◌, ◌-◌, if◌then◌else◌, length, true, false, OnOk};
ghost use Rattle.pl_grammar.specs.declared.terminal.Word.TheVariants as w;
ghost use Rattle.pl_layout.specs.Layout as layout;
ghost use Rattle.pl_print.specs.Pages.{Writes, first_page, word_of};
ghost use Rattle.pl_printing.specs.Canonical.{terminal, apart, key, line_end};

use crate::words::{is_end, is_link, keyword_bytes, opens_block};
use itoa::Buffer;
use pl_base::{NoMemory, Text};
use pl_grammar::Keyword;
use pl_syntax::Bin;
use std::alloc::Global;
use std::marker::Model;

/// Bytes that grow by words, and where the next word is to be written.
#[derive(Drop)]
pub(crate) struct Page {
    bytes: Vec<u8>,
    /// How many blocks and how many brackets are open.
    depth: usize,
    brackets: usize,
    /// A line begins.
    fresh: bool,
    /// The word before is a text in quotes.
    behind_text: bool,
}

impl Model for Page {
    ghost use Rattle.std.specs.Prelude.{◌≤◌, length};
    ghost use Rattle.pl_print.specs.Pages.{Writing};

    ghost Value = { Writing };

    ghost view = { λ p. record { bytes = p.bytes.items; line = record { depth = p.depth; brackets = p.brackets; fresh = p.fresh; behind_text = p.behind_text } } };

    ghost invariant = { λ p. (p.depth ≤ length p.bytes.items) × (p.brackets ≤ length p.bytes.items) };
}

impl Page {
    pub fn new(alloc: Global) -> Page
        ensures { result ≡ first_page }
    {
        Page {
            bytes: Vec::new(alloc),
            depth: 0,
            brackets: 0,
            fresh: true,
            behind_text: false,
        }
    }

    pub fn into_bytes(self) -> Vec<u8>
        ensures { result.items ≡ self.bytes }
    {
        let Page { bytes, .. } = self;
        bytes
    }

    /// Writes a word on a line of so many levels, with the white space before it.
    fn write(&mut self, level: usize, gap: bool, word: &[u8]) -> Result<(), NoMemory>
        ensures bytes { OnOk result (self.new.bytes ≡ self.old.bytes ++ ((if self.old.line.fresh then layout.indent level else layout.blank gap) ++ word.now)) }
        ensures line { OnOk result (self.new.line ≡ self.old.line) }
        ensures longer { OnOk result (length self.old.bytes + length word.now ≤ length self.new.bytes) }
    {
        if self.fresh {
            indent(&mut self.bytes, level)?;
        } else if gap {
            self.bytes.push(b' ')?;
        }
        self.bytes.extend_from_slice(word)?;
        Ok(())
    }

    /// Writes a word that opens and closes nothing.
    fn plain(&mut self, gap: bool, word: &[u8]) -> Result<(), NoMemory>
        ensures bytes { OnOk result (self.new.bytes ≡ self.old.bytes ++ ((if self.old.line.fresh then layout.indent self.old.line.depth else layout.blank gap) ++ word.now)) }
        ensures line { OnOk result (self.new.line ≡ record { depth = self.old.line.depth; brackets = self.old.line.brackets; fresh = false; behind_text = false }) }
    {
        self.write(self.depth, gap, word)?;
        self.fresh = false;
        self.behind_text = false;
        Ok(())
    }

    #[tactic(auto, using(crate::proofs::Grows::wrote))]
    pub fn name(&mut self, gap: bool, name: &Text) -> Result<(), NoMemory>
        ensures { OnOk result (Writes self.old self.new (λ rest. terminal gap (w.Name name.now) ∷ rest)) }
    {
        self.part(gap, name.bytes())
    }

    /// A name, or a part of one between dots.
    #[tactic(auto, using(crate::proofs::Grows::wrote))]
    pub fn part(&mut self, gap: bool, name: &[u8]) -> Result<(), NoMemory>
        ensures { OnOk result (Writes self.old self.new (λ rest. terminal gap (w.Name name.now) ∷ rest)) }
    {
        self.plain(gap, name)
    }

    #[tactic(auto, using(crate::proofs::Grows::wrote))]
    pub fn operator(&mut self, operator: Bin) -> Result<(), NoMemory>
        ensures { OnOk result (Writes self.old self.new (λ rest. apart (w.Binary operator) ∷ rest)) }
    {
        self.plain(true, operator.sign())
    }

    #[tactic(auto, using(crate::proofs::Grows::wrote))]
    pub fn number(&mut self, gap: bool, number: i64) -> Result<(), NoMemory>
        ensures { OnOk result (Writes self.old self.new (λ rest. terminal gap (w.Number number) ∷ rest)) }
    {
        let mut buffer = Buffer::new();
        self.plain(gap, buffer.format(number).as_bytes())
    }

    #[tactic(auto, using(crate::proofs::Grows::wrote))]
    pub fn chars(&mut self, gap: bool, text: &Text) -> Result<(), NoMemory>
        ensures { OnOk result (Writes self.old self.new (λ rest. terminal gap (w.Chars text.now) ∷ rest)) }
    {
        self.plain(gap, b"'")?;
        quote(&mut self.bytes, text.bytes())?;
        self.behind_text = true;
        Ok(())
    }

    /// The end of a line.
    #[tactic(auto, using(crate::proofs::Grows::wrote))]
    pub fn line_end(&mut self) -> Result<(), NoMemory>
        ensures { OnOk result (Writes self.old self.new line_end) }
    {
        self.plain(false, b"\n")?;
        self.fresh = true;
        Ok(())
    }

    fn opening(&mut self, gap: bool, word: &[u8]) -> Result<(), NoMemory>
        requires { length word.now ≡ 1 }
        ensures bytes { OnOk result (self.new.bytes ≡ self.old.bytes ++ ((if self.old.line.fresh then layout.indent self.old.line.depth else layout.blank gap) ++ word.now)) }
        ensures line { OnOk result (self.new.line ≡ record { depth = self.old.line.depth; brackets = self.old.line.brackets + 1; fresh = false; behind_text = false }) }
    {
        self.write(self.depth, gap, word)?;
        self.brackets += 1;
        self.fresh = false;
        self.behind_text = false;
        Ok(())
    }

    fn closing(&mut self, gap: bool, word: &[u8]) -> Result<(), NoMemory>
        ensures bytes { OnOk result (self.new.bytes ≡ self.old.bytes ++ ((if self.old.line.fresh then layout.indent self.old.line.depth else layout.blank gap) ++ word.now)) }
        ensures line { OnOk result (self.new.line ≡ record { depth = self.old.line.depth; brackets = self.old.line.brackets - 1; fresh = false; behind_text = false }) }
    {
        self.write(self.depth, gap, word)?;
        self.brackets = self.brackets.saturating_sub(1);
        self.fresh = false;
        self.behind_text = false;
        Ok(())
    }

    #[tactic(auto, using(crate::proofs::Grows::wrote))]
    pub fn key(&mut self, gap: bool, word: Keyword) -> Result<(), NoMemory>
        ensures { OnOk result (Writes self.old self.new (λ rest. key gap word ∷ rest)) }
    {
        let depth = self.depth;
        let inner = depth.saturating_sub(1);
        let closes = is_end(word) && self.brackets == 0;
        let level = if is_link(word) || closes {
            inner
        } else {
            depth
        };
        self.write(level, gap, keyword_bytes(word))?;
        if opens_block(word) {
            self.depth = depth + 1;
        } else if closes {
            self.depth = inner;
        }
        self.fresh = false;
        self.behind_text = false;
        Ok(())
    }

    /// Writes a sign.
    #[tactic(auto, using(crate::proofs::Grows::wrote))]
    pub fn sign(&mut self, gap: bool, word: Sign) -> Result<(), NoMemory>
        ensures { OnOk result (Writes self.old self.new (λ rest. terminal gap (word_of word) ∷ rest)) }
    {
        match word {
            Sign::Plus => self.plain(gap, b"+"),
            Sign::Minus => self.plain(gap, b"-"),
            Sign::Not => self.plain(gap, b"~"),
            Sign::Quote => {
                let word: &[u8] = if self.behind_text { b".'" } else { b"'" };
                self.plain(gap, word)
            }
            Sign::Equal => self.plain(gap, b"="),
            Sign::Colon => self.plain(gap, b":"),
            Sign::Comma => self.plain(gap, b","),
            Sign::Semicolon => self.plain(gap, b";"),
            Sign::Open => self.opening(gap, b"("),
            Sign::Close => self.closing(gap, b")"),
            Sign::OpenSquare => self.opening(gap, b"["),
            Sign::CloseSquare => self.closing(gap, b"]"),
            Sign::OpenBrace => self.opening(gap, b"{"),
            Sign::CloseBrace => self.closing(gap, b"}"),
            Sign::At => self.plain(gap, b"@"),
            Sign::Dot => self.plain(gap, b"."),
        }
    }
}

/// The signs but those of two operands.
#[derive(Clone, Copy)]
pub(crate) enum Sign {
    Plus,
    Minus,
    Not,
    Quote,
    Equal,
    Colon,
    Comma,
    Semicolon,
    Open,
    Close,
    OpenSquare,
    CloseSquare,
    OpenBrace,
    CloseBrace,
    At,
    Dot,
}

/// Adds a text behind its first quote.
fn quote(bytes: &mut Vec<u8>, text: &[u8]) -> Result<(), NoMemory>
    ensures ok { OnOk result (bytes.new.items ≡ bytes.old.items ++ layout.quoted text.now) }
    ensures longer { length bytes.old.items ≤ length bytes.new.items }
{
    for byte in text {
        if *byte == b'\'' {
            bytes.push(b'\'')?;
        }
        bytes.push(*byte)?;
    }
    bytes.push(b'\'')?;
    Ok(())
}

/// Adds two blanks for each level.
fn indent(bytes: &mut Vec<u8>, level: usize) -> Result<(), NoMemory>
    ensures ok { OnOk result (bytes.new.items ≡ bytes.old.items ++ layout.indent level) }
    ensures longer { length bytes.old.items ≤ length bytes.new.items }
{
    for _level in 0..level {
        bytes.extend_from_slice(b"  ")?;
    }
    Ok(())
}
