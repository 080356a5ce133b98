// Steps of a cursor through its text.
ghost use Rattle.std.specs.Prelude.{◌≡◌, ◌+◌, ◌<◌, ◌≤◌, length, slice_get, slice_index, false, IsTrue, IfSome, IfNone, IfErr, IfOk, OnOk};
ghost use Rattle.cedar_json.specs.Cursors.{GoesOn, IsFaultWithin};
ghost use Rattle.cedar_json.specs.Says.{Blanks, is_blank};
ghost use Rattle.cedar_json.specs.Texts.{HasByte};

use crate::cursor::Cursor;
use crate::faults::{Fault, ReadError};
use cedar_types::base::Loc;
use std::alloc::Global;

/// The number of bytes that a text may have.
pub const MAX_LENGTH: usize = 1 << 26;

impl<'a> Cursor<'a> {
    /// Starts at the beginning of a text. Fails if the text is too long or begins with a byte order
    /// mark.
    pub fn new(alloc: Global, text: &'a str) -> Result<Cursor<'a>, ReadError>
        ensures ok { IfOk result (λ c. (c.text.now ≡ text.now) × (c.at ≡ 0)) }
        ensures err { IfErr result (λ e. IsFaultWithin (length text.now) e) }
    {
        if text.len() > MAX_LENGTH {
            return Err(ReadError::At(0, Fault::TooLong));
        }
        if text.starts_with('\u{feff}') {
            return Err(ReadError::At(0, Fault::ByteOrderMark));
        }
        Ok(Cursor { alloc, text, at: 0 })
    }

    /// Returns the next byte, without reading it.
    pub fn peek(&self) -> Option<u8>
        ensures value { result ≡ slice_get self.now.text.now self.now.at }
        ensures past { IfNone result (length self.now.text.now ≤ self.now.at) }
        ensures byte { IfSome result (λ b. HasByte self.now.text.now self.now.at b) }
    {
        self.text.as_bytes().get(self.at).copied()
    }

    /// Returns the text that was not read yet.
    pub fn rest(&self) -> &'a str {
        self.text.get(self.at..).unwrap_or("")
    }

    /// Passes `count` bytes, or as many as are left.
    pub fn pass(&mut self, count: usize)
        ensures on { GoesOn self.old self.new }
        ensures passed { self.old.at + count ≤ length self.old.text.now
            → self.new.at ≡ self.old.at + count }
    {
        self.at = self.at.saturating_add(count).min(self.text.len());
    }

    /// Passes blanks: spaces, tabs and ends of lines.
    pub fn pass_blanks(&mut self)
        ensures on { GoesOn self.old self.new }
        ensures blanks { Blanks self.old.text.now self.old.at self.new.at }
        ensures stops { self.new.at < length self.old.text.now
            → is_blank (slice_index self.old.text.now self.new.at) ≡ false }
    {
        self.at = behind_blanks(self.text.as_bytes(), self.at);
    }

    /// Returns whether `byte` comes next, and reads it if so.
    pub fn takes(&mut self, byte: u8) -> bool
        ensures on { GoesOn self.old self.new }
        ensures taken { IsTrue result
            → HasByte self.old.text.now self.old.at byte × (self.new.at ≡ self.old.at + 1) }
        ensures kept { result ≡ false → self.new.at ≡ self.old.at }
    {
        match self.peek() {
            Some(next) if next == byte => {
                self.at += 1;
                true
            }
            _ => false,
        }
    }

    /// Reads `byte`, which has to come next. Otherwise it returns `fault` at the next byte.
    pub fn expect(&mut self, byte: u8, fault: Fault) -> Result<(), ReadError>
        ensures on { OnOk result (GoesOn self.old self.new) }
        ensures taken { OnOk result
            (HasByte self.old.text.now self.old.at byte × (self.new.at ≡ self.old.at + 1)) }
        ensures err { IfErr result (λ e. IsFaultWithin (length self.old.text.now) e) }
    {
        if self.takes(byte) {
            Ok(())
        } else {
            Err(self.fault(fault))
        }
    }

    /// Returns `fault` at the next byte.
    pub fn fault(&self, fault: Fault) -> ReadError
        ensures { IsFaultWithin (length self.now.text.now) result }
    {
        ReadError::At(self.at, fault)
    }

    /// Returns the place from `start` to the last byte that was read.
    pub fn since(&self, start: usize) -> Loc
        ensures { result ≡ record { start = start; «end» = self.now.at } }
    {
        Loc {
            start,
            end: self.at,
        }
    }
}

/// Returns the end of the blanks that stand from `start` on.
fn behind_blanks(bytes: &[u8], start: usize) -> usize
    requires { start ≤ length bytes.now }
    ensures within { result ≤ length bytes.now }
    ensures blanks { Blanks bytes.now start result }
    ensures stops { result < length bytes.now
        → is_blank (slice_index bytes.now result) ≡ false }
{
    let mut at = start;
    'blanks: while at < bytes.len() && is_blank(bytes[at]) {
        at += 1;
    }
    at
}

fn is_blank(byte: u8) -> bool
    ensures { result ≡ is_blank byte }
{
    matches!(byte, b' ' | b'\t' | b'\n' | b'\r')
}
