// Frames of messages, as they are sent.
ghost use Rattle.std.specs.Prelude.{◌≡◌, string_bytes, IfOk};
ghost use Rattle.cedar_frames.specs.Frames.{frame};

use std::alloc::{AllocError, Global};

/// A message in its frame, as it is sent: the head says the number of its bytes. If memory is refused, the answer is an
/// `AllocError`.
pub fn framed(alloc: Global, message: &str) -> Result<String, AllocError>
    ensures { IfOk result (λ sent. string_bytes sent ≡ frame message.now) }
{
    let size = message.len().to_string(alloc)?;
    let mut sent = String::from_str(alloc, "Content-Length: ")?;
    sent.push_str(size.as_str())?;
    sent.push_str("\r\n\r\n")?;
    sent.push_str(message)?;
    Ok(sent)
}
