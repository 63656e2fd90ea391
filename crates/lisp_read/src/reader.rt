//! Reads a text, one byte after the other.
ghost use Rattle.std.specs.Prelude.{◌≡◌, ◌+◌, ◌<◌, ◌≤◌, ◌^◌, length, OnOk, if◌then◌else◌};
ghost use Rattle.rtx_tree.specs.Limit.{most_open};
ghost use Rattle.lisp_read.specs.machine.Runs.{empty};
ghost use Rattle.lisp_read.specs.machine.Steps.{at, opened, closed, begin, next, in_atom, in_line, in_slash, in_string, in_block, in_comment, in_comment_star, in_string_escape, in_block_escape};
ghost use Rattle.lisp_read.specs.machine.Reader.{front_of, state_of, Gives, block_depth};

use crate::class::{Bracket, ByteClass, classify};
use crate::mode::Mode;
use crate::stack::{Frame, Stack};
use crate::tree::{Tree, Trees, fitted};
use plain_data::{Items, Memory};
use rtx_tree::{MOST_OPEN, Name, Place};
use std::alloc::Global;
use std::mem;

/// Why a byte was not read.
#[derive(Clone, Copy)]
pub enum StepError {
    /// No text goes on so.
    Syntax,
    /// Too many lists and vectors are open.
    Depth,
    /// Memory ran out.
    Memory,
}

impl From<Memory> for StepError {
    ghost use Rattle.std.specs.Prelude.{◌≡◌};
    ghost use Rattle.lisp_read.specs.declared.reader.StepError.TheVariants as error;

    ghost from_gives = { λ _ e. e ≡ error.Memory };

    fn from(_e: Memory) -> StepError {
        StepError::Memory
    }
}

/// What has been read of a text.
#[derive(Drop)]
pub struct Reader {
    /// The lists and vectors that are open.
    pub stack: Stack,
    /// The trees of the innermost of them, or of the text.
    pub items: Trees,
    /// What else is open.
    pub mode: Mode,
}

impl Reader {
    /// Nothing has been read. It takes no memory.
    pub fn new(alloc: Global) -> Reader
        ensures { state_of result ≡ empty }
    {
        Reader {
            stack: Stack::new(alloc),
            items: Items::new(alloc),
            mode: Mode::Between,
        }
    }

    /// Opens a list or vector.
    fn open(&mut self, alloc: Global, here: Place, kind: Bracket) -> Result<(), StepError>
        ensures { Gives result (state_of self.new)
            (at (opened (front_of self.old) kind here) Mode.Between) }
    {
        let before = mem::replace(&mut self.items, Items::new(alloc));
        self.stack.push(Frame {
            kind,
            place: here,
            before,
        })?;
        self.mode = Mode::Between;
        Ok(())
    }

    /// Closes a list or vector.
    fn close(&mut self, alloc: Global, kind: Bracket) -> Result<(), StepError>
        ensures { Gives result (state_of self.new) (closed (front_of self.old) kind) }
    {
        let Some(
            Frame {
                kind: open,
                place,
                before,
            },
        ) = self.stack.pop()
        else {
            return Err(StepError::Syntax);
        };
        if open != kind {
            return Err(StepError::Syntax);
        }
        let items = fitted(alloc, mem::replace(&mut self.items, before))?;
        self.items.push(Tree::nested(kind, place, items))?;
        self.mode = Mode::Between;
        Ok(())
    }

    /// A byte where a tree may begin. The mode is `Between` before.
    fn begin(
        &mut self,
        alloc: Global,
        here: Place,
        byte: u8,
        class: ByteClass,
    ) -> Result<(), StepError>
        ensures { Gives result (state_of self.new) (begin here (front_of self.old) byte class) }
    {
        match class {
            ByteClass::Zero | ByteClass::CloseBrace | ByteClass::Other => return Err(
                StepError::Syntax,
            ),
            ByteClass::Blank | ByteClass::Newline => self.mode = Mode::Between,
            ByteClass::Semicolon => self.mode = Mode::Line,
            ByteClass::Slash => self.mode = Mode::Slash { place: here },
            ByteClass::Star | ByteClass::Backslash | ByteClass::Plain => {
                let mut text = Items::new(alloc);
                text.push(byte)?;
                self.mode = Mode::Atom { place: here, text };
            }
            ByteClass::Quote => self.mode = Mode::Str {
                place: here,
                text: Items::new(alloc),
            },
            ByteClass::OpenBrace => self.mode = Mode::Block {
                place: here,
                depth: 0,
                text: Items::new(alloc),
            },
            ByteClass::Open(kind) => self.open(alloc, here, kind)?,
            ByteClass::Close(kind) => self.close(alloc, kind)?,
        }
        Ok(())
    }

    /// A byte behind an atom, or in it.
    fn atom(
        &mut self,
        alloc: Global,
        here: Place,
        byte: u8,
        class: ByteClass,
        place: Place,
        mut text: Items<u8>,
    ) -> Result<(), StepError>
        ensures { Gives result (state_of self.new)
            (in_atom here (front_of self.old) byte class place text) }
    {
        if class.is_atom() {
            text.push(byte)?;
            self.mode = Mode::Atom { place, text };
            Ok(())
        } else {
            self.items.push(Tree::Atom {
                place,
                text: Name::from_vec(text.into_vec()),
            })?;
            self.begin(alloc, here, byte, class)
        }
    }

    /// A byte in a string.
    fn string(
        &mut self,
        byte: u8,
        class: ByteClass,
        place: Place,
        mut text: Items<u8>,
    ) -> Result<(), StepError>
        ensures { Gives result (state_of self.new)
            (in_string (front_of self.old) byte class place text) }
    {
        match class {
            ByteClass::Zero => return Err(StepError::Syntax),
            ByteClass::Quote => {
                self.items.push(Tree::Str {
                    place,
                    text: Name::from_vec(text.into_vec()),
                })?;
                self.mode = Mode::Between;
            }
            ByteClass::Backslash => {
                text.push(byte)?;
                self.mode = Mode::StrEscape { place, text };
            }
            _ => {
                text.push(byte)?;
                self.mode = Mode::Str { place, text };
            }
        }
        Ok(())
    }

    /// A byte in a block.
    fn block(
        &mut self,
        byte: u8,
        class: ByteClass,
        place: Place,
        depth: u64,
        mut text: Items<u8>,
    ) -> Result<(), StepError>
        requires { depth + 1 < 2 ^ 64 }
        ensures gives { Gives result (state_of self.new)
            (in_block (front_of self.old) byte class place depth text) }
        ensures depth { OnOk result (block_depth self.new.mode ≤ depth + 1) }
    {
        match class {
            ByteClass::Zero => return Err(StepError::Syntax),
            ByteClass::Backslash => {
                text.push(byte)?;
                self.mode = Mode::BlockEscape { place, depth, text };
            }
            ByteClass::CloseBrace if depth == 0 => {
                self.items.push(Tree::Block {
                    place,
                    text: Name::from_vec(text.into_vec()),
                })?;
                self.mode = Mode::Between;
            }
            _ => {
                let depth = match class {
                    ByteClass::OpenBrace => depth + 1,
                    ByteClass::CloseBrace => depth - 1,
                    _ => depth,
                };
                text.push(byte)?;
                self.mode = Mode::Block { place, depth, text };
            }
        }
        Ok(())
    }

    /// A byte behind a `/` where a tree may begin.
    fn slash(
        &mut self,
        alloc: Global,
        here: Place,
        byte: u8,
        class: ByteClass,
        place: Place,
    ) -> Result<(), StepError>
        ensures { Gives result (state_of self.new)
            (in_slash here (front_of self.old) byte class place) }
    {
        if class == ByteClass::Star {
            self.mode = Mode::Comment;
            return Ok(());
        }
        let mut text = Items::new(alloc);
        text.push(b'/')?;
        self.atom(alloc, here, byte, class, place, text)
    }

    /// A byte in a comment that ends with the line.
    fn line(&mut self, class: ByteClass) -> Result<(), StepError>
        ensures { Gives result (state_of self.new) (in_line (front_of self.old) class) }
    {
        self.mode = match class {
            ByteClass::Zero => return Err(StepError::Syntax),
            ByteClass::Newline => Mode::Between,
            _ => Mode::Line,
        };
        Ok(())
    }

    /// A byte in a comment, maybe behind a `*`.
    fn comment(&mut self, class: ByteClass, star: bool) -> Result<(), StepError>
        ensures { Gives result (state_of self.new)
            (if star then in_comment_star (front_of self.old) class else in_comment
            (front_of self.old) class) }
    {
        self.mode = match class {
            ByteClass::Zero => return Err(StepError::Syntax),
            ByteClass::Slash if star => Mode::Between,
            ByteClass::Star => Mode::CommentStar,
            _ => Mode::Comment,
        };
        Ok(())
    }

    /// A byte behind a backslash in a string.
    fn string_escape(
        &mut self,
        byte: u8,
        class: ByteClass,
        place: Place,
        mut text: Items<u8>,
    ) -> Result<(), StepError>
        ensures { Gives result (state_of self.new)
            (in_string_escape (front_of self.old) byte class place text) }
    {
        if class == ByteClass::Zero {
            return Err(StepError::Syntax);
        }
        text.push(byte)?;
        self.mode = Mode::Str { place, text };
        Ok(())
    }

    /// A byte behind a backslash in a block.
    fn block_escape(
        &mut self,
        byte: u8,
        class: ByteClass,
        place: Place,
        depth: u64,
        mut text: Items<u8>,
    ) -> Result<(), StepError>
        ensures gives { Gives result (state_of self.new)
            (in_block_escape (front_of self.old) byte class place depth text) }
        ensures depth { OnOk result (block_depth self.new.mode ≤ depth + 1) }
    {
        if class == ByteClass::Zero {
            return Err(StepError::Syntax);
        }
        text.push(byte)?;
        self.mode = Mode::Block { place, depth, text };
        Ok(())
    }

    /// Reads the next byte as the mode wants, however many lists and vectors are open then.
    fn advance(&mut self, alloc: Global, here: Place, byte: u8) -> Result<(), StepError>
        requires { block_depth self.old.mode + 1 < 2 ^ 64 }
        ensures gives { Gives result (state_of self.new) (next here (state_of self.old) byte) }
        ensures depth { OnOk result (block_depth self.new.mode ≤ block_depth self.old.mode + 1) }
    {
        let class = classify(byte);
        // Most bytes stand in an atom, or are blanks between trees: there nothing is moved.
        match &mut self.mode {
            Mode::Atom { text, .. } if class.is_atom() => {
                text.push(byte)?;
                return Ok(());
            }
            Mode::Between if class.is_blank() => return Ok(()),
            _ => {}
        }
        match mem::replace(&mut self.mode, Mode::Between) {
            Mode::Between => self.begin(alloc, here, byte, class),
            Mode::Line => self.line(class),
            Mode::Slash { place } => self.slash(alloc, here, byte, class, place),
            Mode::Comment => self.comment(class, false),
            Mode::CommentStar => self.comment(class, true),
            Mode::Atom { place, text } => self.atom(alloc, here, byte, class, place, text),
            Mode::Str { place, text } => self.string(byte, class, place, text),
            Mode::StrEscape { place, text } => self.string_escape(byte, class, place, text),
            Mode::Block { place, depth, text } => self.block(byte, class, place, depth, text),
            Mode::BlockEscape { place, depth, text } => self.block_escape(
                byte, class, place, depth, text,
            ),
        }
    }

    /// Reads the next byte, which stands here.
    pub fn step(&mut self, alloc: Global, here: Place, byte: u8) -> Result<(), StepError>
        requires { block_depth self.old.mode + 1 < 2 ^ 64 }
        ensures gives { Gives result (state_of self.new) (next here (state_of self.old) byte) }
        ensures shallow { OnOk result (length (front_of self.new).within ≤ most_open) }
        ensures depth { OnOk result (block_depth self.new.mode ≤ block_depth self.old.mode + 1) }
    {
        self.advance(alloc, here, byte)?;
        if self.stack.len() > MOST_OPEN {
            return Err(StepError::Depth);
        }
        Ok(())
    }
}
