//! What stands before a place of the source, as far as it decides what comes next.

ghost use Rattle.std.specs.Prelude.{◌≡◌, ◌∷◌, ◌<◌, ◌≤◌, ◌+◌, ◌^◌, [], drop, length, slice_index, OnOk};
ghost use Rattle.pl_lex.specs.State as spec;
ghost use Rattle.pl_lex.specs.Bytes as bytes_spec;

use crate::bytes::{Class, begins, class_of};
use crate::keywords::is_end;
use std::alloc::{AllocError, Global};
use std::marker::Model;

/// An open bracket.
#[derive(Clone, Copy, Debug, PartialEq, Eq)]
pub(crate) struct Bracket {
    pub square: bool,
    /// `end` in it is an index: it is one of an index, or stands in one.
    pub index: bool,
}

/// The open brackets, which contracts see with the innermost first.
#[derive(Debug, Drop)]
pub(crate) struct Brackets {
    open: Vec<Bracket>,
}

impl Model for Brackets {
    ghost use Rattle.std.specs.Prelude.{List, reverse};
    ghost use Rattle.pl_lex.specs.declared.state.Bracket.{Bracket};

    ghost Value = { List Bracket };

    ghost view = { λ s. reverse s.open.items };
}

impl Brackets {
    fn new(alloc: Global) -> Brackets
        ensures { result ≡ [] }
    {
        Brackets {
            open: Vec::new(alloc),
        }
    }

    /// Whether `end` stands for an index here.
    fn is_index(&self) -> bool
        ensures { result ≡ spec.inside self.now }
    {
        match self.open.last() {
            Some(bracket) => bracket.index,
            None => false,
        }
    }

    /// Whether the innermost is a square one.
    fn is_square(&self) -> bool
        ensures { result ≡ spec.in_square self.now }
    {
        match self.open.last() {
            Some(bracket) => bracket.square,
            None => false,
        }
    }

    fn open(&mut self, bracket: Bracket) -> Result<(), AllocError>
        ensures { OnOk result (self.new ≡ bracket ∷ self.old) }
    {
        self.open.push(bracket)?;
        Ok(())
    }

    /// Closes the innermost, if there is one.
    fn close(&mut self)
        ensures { self.new ≡ drop 1 self.old }
    {
        let _ = self.open.pop();
    }
}

/// What the last token was.
#[derive(Clone, Copy, Debug, PartialEq, Eq)]
pub(crate) enum Last {
    /// A name or `}`: a parenthesis behind it is one of an index.
    Named,
    /// Another that ends an operand.
    Operand,
    Other,
}

/// What a piece of a source is.
#[derive(Clone, Copy, Debug, PartialEq, Eq)]
pub(crate) enum Part {
    /// Spaces and tabs.
    Blank,
    /// `...` and what stands behind it on its line.
    Continued,
    /// Remarks, up to the line end.
    Comment,
    /// `%{` alone on its line.
    BlockStart,
    /// `%}` alone on its line.
    BlockEnd,
    LineEnd,
    Name,
    Keyword,
    Literal,
    Chars,
    Sign,
}

/// What stands before a place.
#[derive(Debug, Drop)]
pub(crate) struct Before {
    pub brackets: Brackets,
    pub last: Last,
    /// White space stands behind the last token.
    pub gap: bool,
    /// Nothing but white space stands on the line.
    pub fresh: bool,
    /// The line end to come is white space.
    pub joined: bool,
    /// How many block comments are open.
    pub blocks: usize,
}

impl Before {
    /// Before the first byte.
    pub fn start(alloc: Global) -> Before
        ensures { result ≡ spec.start }
    {
        Before {
            brackets: Brackets::new(alloc),
            last: Last::Other,
            gap: false,
            fresh: true,
            joined: false,
            blocks: 0,
        }
    }

    pub fn is_in_block(&self) -> bool
        ensures { result ≡ spec.in_block self.now }
    {
        self.blocks != 0
    }

    /// Whether white space ends an element here.
    fn is_apart(&self) -> bool
        ensures { result ≡ spec.apart self.now }
    {
        self.gap && self.brackets.is_square()
    }

    /// Whether a single quote opens a text here.
    pub fn opens_text(&self) -> bool
        ensures { result ≡ spec.opens_text self.now }
    {
        matches!(self.last, Last::Other) || self.is_apart()
    }

    /// Whether a parenthesis is one of an index here.
    fn calls(&self) -> bool
        ensures { result ≡ spec.calls self.now }
    {
        matches!(self.last, Last::Named) && !self.is_apart()
    }

    /// A token has been read.
    fn token(&mut self, last: Last)
        ensures { self.new ≡ spec.token last self.old }
    {
        self.last = last;
        self.gap = false;
        self.fresh = false;
    }

    fn line_end(&mut self)
        ensures { self.new ≡ spec.line_end self.old }
    {
        if !self.is_in_block() && !self.joined {
            self.last = Last::Other;
            self.gap = false;
        }
        self.joined = false;
        self.fresh = true;
    }

    fn keyword(&mut self, word: &[u8])
        ensures { self.new ≡ spec.keyword word.now self.old }
    {
        let is_index = is_end(word) && self.brackets.is_index();
        self.token(if is_index { Last::Operand } else { Last::Other });
    }

    fn open(&mut self, bracket: Bracket) -> Result<(), AllocError>
        ensures { OnOk result (self.new ≡ spec.opened bracket self.old) }
    {
        self.token(Last::Other);
        self.brackets.open(bracket)
    }

    fn close(&mut self, byte: u8)
        ensures { self.new ≡ spec.closed byte self.old }
    {
        let last = if byte == b'}' {
            Last::Named
        } else {
            Last::Operand
        };
        self.token(last);
        self.brackets.close();
    }

    #[tactic(auto, unfolding(crate::specs::State::signed))]
    fn sign(&mut self, text: &[u8]) -> Result<(), AllocError>
        requires { 0 < length text.now }
        ensures blocks { OnOk result (self.new.blocks ≡ self.old.blocks) }
        ensures passed { OnOk result (self.new ≡ spec.signed (bytes_spec.class_of (slice_index text.now 0)) text.now self.old) }
    {
        let square = false;
        let is_index = self.brackets.is_index();
        match class_of(text[0]) {
            Class::Paren => {
                let index = self.calls() || is_index;
                self.open(Bracket { square, index })?;
            }
            Class::Square => self.open(Bracket {
                square: true,
                index: is_index,
            })?,
            Class::Brace => self.open(Bracket {
                square,
                index: true,
            })?,
            Class::Close => self.close(text[0]),
            Class::Single => self.token(Last::Operand),
            Class::Dot if begins(b'\'', &text[1..]) => self.token(Last::Operand),
            _ => self.token(Last::Other),
        }
        Ok(())
    }

    /// Goes behind a piece, whose bytes these are.
    #[tactic(auto, unfolding(crate::specs::State::behind))]
    pub fn pass(&mut self, part: Part, text: &[u8]) -> Result<(), AllocError>
        requires bytes { 0 < length text.now }
        requires room { self.old.blocks + 1 < 2 ^ 64 }
        ensures passed { OnOk result (self.new ≡ spec.behind part text.now self.old) }
        ensures blocks { OnOk result (self.new.blocks ≤ self.old.blocks + 1) }
    {
        match part {
            Part::Blank => self.gap = self.gap || !self.is_in_block(),
            Part::Continued => {
                self.gap = true;
                self.joined = true;
            }
            Part::Comment => {}
            Part::BlockStart => self.blocks += 1,
            Part::BlockEnd => self.blocks = self.blocks.saturating_sub(1),
            Part::LineEnd => self.line_end(),
            Part::Name => self.token(Last::Named),
            Part::Keyword => self.keyword(text),
            Part::Literal | Part::Chars => self.token(Last::Operand),
            Part::Sign => self.sign(text)?,
        }
        Ok(())
    }
}
