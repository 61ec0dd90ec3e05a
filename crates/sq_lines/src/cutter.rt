//! Cutting bytes into lines, as they come.
ghost use Rattle.std.specs.Prelude.{◌≡◌, ◌+◌, ◌++◌, ◌<◌, ◌≤◌, ◌^◌, ◌==◌, [], ◌∷◌, length, IfOk, MatchOption, OnErr, OnOk};
ghost use Rattle.std.specs.List.{position};
ghost use Rattle.sq_lines.specs.Cutting.{answer, fed, kept, last_line, line_feed, most_kept, uncut};

use crate::RawLine;
use crate::reading::LONGEST_LINE;
use sq_value::NoMemory;
use sqlite_items::Items;
use std::alloc::Global;
use std::marker::Model;

/// Cuts bytes that come in pieces into lines. Contracts see it as the number of lines that it handed out, and what it keeps of
/// the next one: at most 1,048,577 bytes, one more than a change line may have.
#[derive(Debug, Drop)]
pub struct Cutter {
    handed: u64,
    begun: Vec<u8>,
}

impl Model for Cutter {
    ghost use Rattle.std.specs.Prelude.{◌≤◌, length};
    ghost use Rattle.sq_lines.specs.Cutting.{Cutting, most_kept};

    ghost Value = { Cutting };

    ghost view = { λ c. record { handed = c.handed; begun = c.begun.items } };

    ghost invariant = { λ c. length c.begun.items ≤ most_kept };
}

impl Cutter {
    /// Before the first byte. Takes no memory.
    pub fn new(alloc: Global) -> Cutter
        ensures { result ≡ uncut }
    {
        Cutter {
            handed: 0,
            begun: Vec::new(alloc),
        }
    }

    /// The lines whose end is in the piece, without their line feeds, numbered from where the last call ended. At most the first
    /// 1,048,577 bytes of a line are kept. After a refusal the cutter is as before.
    pub fn feed(&mut self, alloc: Global, piece: &[u8]) -> Result<Vec<RawLine>, NoMemory>
        requires { self.old.handed + length piece.now < 2 ^ 63 }
        ensures lines { IfOk result (λ lines. lines.items ≡ answer self.old piece.now) }
        ensures fed { OnOk result (self.new ≡ fed self.old piece.now) }
        ensures few { OnOk result (self.new.handed ≤ self.old.handed + length piece.now) }
        ensures refused { OnErr result (self.new ≡ self.old) }
    {
        if line_end(piece).is_none() {
            push_kept(&mut self.begun, piece)?;
            return Ok(Vec::new(alloc));
        }
        let mut begun = Vec::from_slice(alloc, &self.begun)?;
        let mut lines = Vec::new(alloc);
        let mut handed = self.handed;
        let mut rest = piece;
        while let Some(end) = line_end(rest) {
            push_kept(&mut begun, &rest[..end])?;
            handed += 1;
            push_line(alloc, handed, &mut begun, &mut lines)?;
            rest = &rest[end + 1..];
        }
        push_kept(&mut begun, rest)?;
        self.handed = handed;
        self.begun = begun;
        Ok(lines)
    }

    /// The line behind the last line feed, if a byte of it has come. Takes no memory.
    pub fn finish(self) -> Option<RawLine>
        requires { self.handed < 2 ^ 63 }
        ensures { MatchOption result (last_line self ≡ []) (λ line. last_line self ≡ line ∷ []) }
    {
        if self.begun.is_empty() {
            return None;
        }
        Some(RawLine {
            number: self.handed + 1,
            bytes: Items::from_vec(self.begun),
        })
    }
}

fn line_end(bytes: &[u8]) -> Option<usize>
    ensures { result ≡ position (λ b. b == line_feed) bytes.now }
{
    bytes.iter().position(|b| *b == b'\n')
}

// The most bytes that are kept of a line.
const MOST_KEPT: usize = LONGEST_LINE + 1;

// Appends what is kept of further bytes of a line.
fn push_kept(line: &mut Vec<u8>, bytes: &[u8]) -> Result<(), NoMemory>
    requires { length line.old.items ≤ most_kept }
    ensures ok { OnOk result (line.new.items ≡ kept (line.old.items ++ bytes.now)) }
    ensures refused { OnErr result (line.new.items ≡ line.old.items) }
{
    let room = MOST_KEPT - line.len();
    line.extend_from_slice(&bytes[..bytes.len().min(room)])?;
    Ok(())
}

// Hands a line over, and begins the next one.
fn push_line(
    alloc: Global,
    number: u64,
    begun: &mut Vec<u8>,
    lines: &mut Vec<RawLine>,
) -> Result<(), NoMemory>
    ensures lines { OnOk result (lines.new.items ≡ lines.old.items ++ record { number = number; bytes = begun.old.items } ∷ []) }
    ensures begun { OnOk result (begun.new.items ≡ []) }
{
    let line = std::mem::replace(begun, Vec::new(alloc));
    lines.push(RawLine {
        number,
        bytes: Items::from_vec(line),
    })?;
    Ok(())
}
