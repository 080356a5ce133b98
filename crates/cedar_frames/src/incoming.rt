// Incoming streams: bytes come piece by piece, and messages are taken from them.
ghost use Rattle.std.specs.Prelude.{◌≡◌, ℕ, ◌<◌, ◌≤◌, ◌^◌, ◌++◌, ◌-◌, [], drop, length, List, IfOk, OnErr, OnOk};
ghost use Rattle.cedar_frames.specs.Frames.{frame, head, IsMessage, IsPassedOver, IsShorter, IsStill, IsTaken};

use crate::heads::{MAX_HEAD, head_of};
use std::alloc::{AllocError, Global};

/// The most bytes that a message may have.
pub const MAX_MESSAGE: usize = 1 << 26;

/// The outcome of taking a frame from a stream.
#[derive(Drop)]
pub enum Taken {
    /// Less than a frame has come.
    Nothing,
    /// The message of a frame.
    Message(Vec<u8>),
    /// A head without its message.
    Broken(Broken),
}

/// The reason why a head has no message.
#[derive(Clone, Copy, PartialEq, Eq, Debug)]
pub enum Broken {
    /// The head says no length, or has more than 8,192 bytes.
    NoLength,
    /// The message is longer than [`MAX_MESSAGE`], and is passed over.
    TooLong,
}

/// The bytes of a stream that have come and were not taken.
#[derive(Drop)]
pub struct Incoming {
    bytes: Vec<u8>,
    /// The number of bytes to come that are passed over.
    passing: usize,
}

impl Incoming {
    /// A stream of which nothing has come yet.
    pub fn new(alloc: Global) -> Incoming
        ensures bytes { result.bytes.items ≡ [] }
        ensures passing { result.passing ≡ 0 }
    {
        Incoming {
            bytes: Vec::new(alloc),
            passing: 0,
        }
    }

    /// Adds the next piece of the stream, without its bytes that are passed over (clauses `added` and `passed`). If memory is
    /// refused, the answer is an `AllocError`, and nothing was added (clauses `kept` and `as_before`).
    pub fn add(&mut self, piece: &[u8]) -> Result<(), AllocError>
        ensures added { OnOk result (self.new.bytes.items
            ≡ self.old.bytes.items ++ drop self.old.passing piece.now) }
        ensures passed { OnOk result (self.new.passing ≡ self.old.passing - length piece.now) }
        ensures kept { OnErr result (self.new.bytes.items ≡ self.old.bytes.items) }
        ensures as_before { OnErr result (self.new.passing ≡ self.old.passing) }
    {
        let passed = self.passing.min(piece.len());
        self.bytes.extend_from_slice(&piece[passed..])?;
        self.passing -= passed;
        Ok(())
    }

    /// Takes the first frame, if it has come whole: a head and the message behind it, and no byte more (clause `exact`). A
    /// message that was framed is taken, whatever stands behind it (clause `framed`). A message that is longer than
    /// [`MAX_MESSAGE`] is passed over, with its bytes that are still to come (clause `over`). If memory is refused, the answer
    /// is an `AllocError`, and nothing was taken (clause `kept`).
    pub fn take(&mut self, alloc: Global) -> Result<Taken, AllocError>
        ensures exact { IfOk result (λ taken.
            IsTaken self.old.bytes.items taken self.new.bytes.items) }
        ensures shorter { IfOk result (λ taken.
            IsShorter self.old.bytes.items taken self.new.bytes.items) }
        ensures framed { IfOk result (λ taken. (message rest : List ℕ)
            → length message ≤ 67108864 → self.old.bytes.items ≡ frame message ++ rest
            → IsMessage message rest taken self.new.bytes.items) }
        ensures over { IfOk result (λ taken. (n : ℕ) (rest : List ℕ) → n < 2 ^ 64
            → 67108864 < n → self.old.bytes.items ≡ head n ++ rest
            → IsPassedOver n rest taken self.new.bytes.items self.new.passing) }
        ensures passing { IfOk result (λ taken. IsStill taken self.old.passing self.new.passing) }
        ensures kept { OnErr result (self.new.bytes.items ≡ self.old.bytes.items) }
    {
        let Some(head) = head_of(self.bytes.as_slice()) else {
            let taken = self.wait_for_head();
            return Ok(taken);
        };
        let size = head.size;
        let Some(count) = head.length else {
            let taken = self.pass_head(alloc, size)?;
            return Ok(taken);
        };
        if count > MAX_MESSAGE {
            let taken = self.pass_message(alloc, size, count)?;
            return Ok(taken);
        }
        let taken = self.take_message(alloc, size, count)?;
        Ok(taken)
    }

    /// The outcome if no head has come whole: nothing yet, or a broken frame once [`MAX_HEAD`] bytes have come, because no head
    /// can end within them any more. Those bytes are passed over.
    fn wait_for_head(&mut self) -> Taken
        ensures exact { IsTaken self.old.bytes.items result self.new.bytes.items }
        ensures shorter { IsShorter self.old.bytes.items result self.new.bytes.items }
        ensures passing { IsStill result self.old.passing self.new.passing }
    {
        if self.bytes.len() < MAX_HEAD {
            return Taken::Nothing;
        }
        self.bytes.clear();
        Taken::Broken(Broken::NoLength)
    }

    /// Takes the message of `count` bytes behind the head of `size` bytes, if it has come whole (clause `whole`).
    fn take_message(
        &mut self,
        alloc: Global,
        size: usize,
        count: usize,
    ) -> Result<Taken, AllocError>
        requires within { size ≤ length self.old.bytes.items }
        requires some { 0 < size }
        ensures exact { IfOk result (λ taken.
            IsTaken self.old.bytes.items taken self.new.bytes.items) }
        ensures shorter { IfOk result (λ taken.
            IsShorter self.old.bytes.items taken self.new.bytes.items) }
        ensures whole { IfOk result (λ taken. (first message rest : List ℕ)
            → length first ≡ size → length message ≡ count
            → self.old.bytes.items ≡ first ++ (message ++ rest)
            → IsMessage message rest taken self.new.bytes.items) }
        ensures passing { IfOk result (λ taken. IsStill taken self.old.passing self.new.passing) }
        ensures kept { OnErr result (self.new.bytes.items ≡ self.old.bytes.items) }
    {
        let (_head, behind) = self.bytes.as_slice().split_at(size);
        if behind.len() < count {
            return Ok(Taken::Nothing);
        }
        let (message, rest) = behind.split_at(count);
        let message = copied(alloc, message)?;
        self.bytes = copied(alloc, rest)?;
        Ok(Taken::Message(message))
    }

    /// Passes over the head of `size` bytes, which says no length.
    fn pass_head(&mut self, alloc: Global, size: usize) -> Result<Taken, AllocError>
        requires within { size ≤ length self.old.bytes.items }
        requires some { 0 < size }
        ensures exact { IfOk result (λ taken.
            IsTaken self.old.bytes.items taken self.new.bytes.items) }
        ensures shorter { IfOk result (λ taken.
            IsShorter self.old.bytes.items taken self.new.bytes.items) }
        ensures passing { IfOk result (λ taken. IsStill taken self.old.passing self.new.passing) }
        ensures kept { OnErr result (self.new.bytes.items ≡ self.old.bytes.items) }
    {
        let (_head, rest) = self.bytes.as_slice().split_at(size);
        self.bytes = copied(alloc, rest)?;
        Ok(Taken::Broken(Broken::NoLength))
    }

    /// Passes over the head of `size` bytes and the message of `count` bytes behind it, with its bytes that are still to come
    /// (clause `over`).
    fn pass_message(
        &mut self,
        alloc: Global,
        size: usize,
        count: usize,
    ) -> Result<Taken, AllocError>
        requires within { size ≤ length self.old.bytes.items }
        requires some { 0 < size }
        ensures exact { IfOk result (λ taken.
            IsTaken self.old.bytes.items taken self.new.bytes.items) }
        ensures shorter { IfOk result (λ taken.
            IsShorter self.old.bytes.items taken self.new.bytes.items) }
        ensures over { IfOk result (λ taken. (first rest : List ℕ) → length first ≡ size
            → self.old.bytes.items ≡ first ++ rest
            → IsPassedOver count rest taken self.new.bytes.items self.new.passing) }
        ensures passing { IfOk result (λ taken. IsStill taken self.old.passing self.new.passing) }
        ensures kept { OnErr result (self.new.bytes.items ≡ self.old.bytes.items) }
    {
        let (_head, behind) = self.bytes.as_slice().split_at(size);
        let passed = behind.len().min(count);
        let (_message, rest) = behind.split_at(passed);
        self.bytes = copied(alloc, rest)?;
        self.passing = count - passed;
        Ok(Taken::Broken(Broken::TooLong))
    }
}

/// A copy of these bytes in a vector of its own.
fn copied(alloc: Global, bytes: &[u8]) -> Result<Vec<u8>, AllocError>
    ensures { IfOk result (λ own. own.items ≡ bytes.now) }
{
    bytes.to_vec(alloc)
}
