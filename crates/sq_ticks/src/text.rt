//! The program text, as its bytes come.
ghost use Rattle.std.specs.Prelude.{◌≡◌, ◌++◌, ◌∷◌, [], length, drop, take, false, IfOk, OnOk};
ghost use Rattle.sq_lines.specs.Cutting.{line_feed};
ghost use Rattle.sq_ticks.specs.Begun.{IsOpen};
ghost use Rattle.sq_ticks.specs.Lines.{is_end_line as is_end_line_lem, may_become_end_line, surely_before};

use sq_value::NoMemory;
use std::alloc::Global;

/// The bytes of a program text that have come, without an end line among them.
#[derive(Debug, Drop)]
pub struct Text {
    pub bytes: Vec<u8>,
    /// Where the last line begins, which has no line end yet.
    pub line: usize,
}

impl Text {
    ghost use Rattle.sq_ticks.specs.Begun.{Takes};

    /// Before the first byte. Takes no memory.
    pub fn new(alloc: Global) -> Text
        ensures bytes { result.bytes.items ≡ [] }
        ensures so_far { IsOpen result.bytes.items result.line }
    {
        Text {
            bytes: Vec::new(alloc),
            line: 0,
        }
    }

    /// Takes the bytes of a piece, up to the line end of the end line, if it comes. Answers what number of bytes that are, with that
    /// line end.
    pub fn take(&mut self, piece: &[u8]) -> Result<Option<usize>, NoMemory>
        requires { IsOpen self.old.bytes.items self.old.line }
        ensures { IfOk result (Takes self.old piece.now self.new) }
    {
        for i in 0..piece.len() {
            if piece[i] == b'\n' && self.is_at_end_line() {
                return Ok(Some(i + 1));
            }
            self.push(piece[i])?;
        }
        Ok(None)
    }

    // Takes a byte that does not end the text.
    fn push(&mut self, byte: u8) -> Result<(), NoMemory>
        requires so_far { IsOpen self.old.bytes.items self.old.line }
        requires other { byte ≡ line_feed → is_end_line_lem (drop self.old.line self.old.bytes.items) ≡ false }
        ensures bytes { OnOk result (self.new.bytes.items ≡ self.old.bytes.items ++ byte ∷ []) }
        ensures so_far { OnOk result (IsOpen self.new.bytes.items self.new.line) }
    {
        self.bytes.push(byte)?;
        if byte == b'\n' {
            self.line = self.bytes.len();
        }
        Ok(())
    }

    /// Whether the last line, which has no line end yet, is an end line if one comes now.
    pub fn is_at_end_line(&self) -> bool
        requires { IsOpen self.now.bytes.items self.now.line }
        ensures { result ≡ is_end_line_lem (drop self.now.line self.now.bytes.items) }
    {
        is_end_line(&self.bytes[self.line..])
    }

    /// How many bytes surely stand before the end line, wherever it comes.
    pub fn surely_before(&self) -> usize
        requires { IsOpen self.now.bytes.items self.now.line }
        ensures { result ≡ length (surely_before self.now.bytes.items) }
    {
        if may_become_end(&self.bytes[self.line..]) {
            self.line
        } else {
            self.bytes.len()
        }
    }

    /// The text before the last line.
    pub fn before_last_line(&self) -> &[u8]
        requires { IsOpen self.now.bytes.items self.now.line }
        ensures { result.now ≡ take self.now.line self.now.bytes.items }
    {
        &self.bytes[..self.line]
    }
}

fn is_end_line(line: &[u8]) -> bool
    ensures { result ≡ is_end_line_lem line.now }
{
    line == b"---".as_slice() || line == b"---\r".as_slice()
}

fn may_become_end(line: &[u8]) -> bool
    ensures { result ≡ may_become_end_line line.now }
{
    line == b"".as_slice()
        || line == b"-".as_slice()
        || line == b"--".as_slice()
        || line == b"---".as_slice()
        || line == b"---\r".as_slice()
}
