// The server, over any reader and any writer.
use crate::messages::{Call, Id, Message, message_of};
use crate::replies::{Refusal, Reply};
use crate::sessions::Session;
use cedar_frames::{Broken, Incoming, Taken, framed};
use cedar_types::base::ArgumentCheck;
use serde_json::Value;
use std::alloc::{AllocError, Global};
use std::io::{Read, Write};
use std::rt::Files;
use std::{io, str};

/// The most bytes that are read at once. A read gives the bytes that are there, and does not wait for more.
const READ_AHEAD: usize = 1 << 16;

/// The step that follows a message.
#[derive(Clone, Copy, PartialEq, Eq)]
enum Step {
    Next,
    Exit,
}

/// The server: its runtime, by which it reads files, and the streams to which it writes.
#[derive(Drop)]
pub struct Server<'r, R, O, E> {
    pub rt: &'r R,
    pub out: O,
    /// The stream that says so if memory was refused in a notification.
    pub log: E,
}

impl<R: Files + AllocGlobal + Clone + Drop, O: Write, E: Write> Server<'_, R, O, E> {
    /// Serves until `exit` or the end of the input. The answer is the exit status: 0 if `exit` comes after `shutdown`, else 1.
    pub fn serve<C: ArgumentCheck, I: Read>(
        &mut self,
        session: &mut Session<'_, C>,
        input: &mut I,
    ) -> io::Result<u8> {
        let alloc = self.rt.alloc();
        let mut incoming = Incoming::new(alloc);
        let mut buffer = vec![in alloc; 0u8; READ_AHEAD]?;
        for _ in 0..u64::MAX {
            let read = input.read(buffer.as_mut_slice())?;
            let piece = buffer.get(..read).unwrap_or(&[]);
            if piece.is_empty() {
                break;
            }
            incoming.add(piece)?;
            if self.take_all(session, alloc, &mut incoming)? == Step::Exit {
                return Ok(session.status());
            }
            self.tell(session, alloc)?;
        }
        Ok(session.status())
    }

    /// Takes each frame that has come whole.
    fn take_all<C: ArgumentCheck>(
        &mut self,
        session: &mut Session<'_, C>,
        alloc: Global,
        incoming: &mut Incoming,
    ) -> io::Result<Step> {
        for _ in 0..u64::MAX {
            let step = match incoming.take(alloc)? {
                Taken::Nothing => break,
                Taken::Message(bytes) => self.take(session, alloc, bytes.as_slice())?,
                Taken::Broken(why) => self.refuse(alloc, Refusal::BadRequest(why_broken(why)))?,
            };
            if step == Step::Exit {
                return Ok(Step::Exit);
            }
        }
        Ok(Step::Next)
    }

    /// Takes a message, does as it asks, and sends a reply if it is a request.
    fn take<C: ArgumentCheck>(
        &mut self,
        session: &mut Session<'_, C>,
        alloc: Global,
        bytes: &[u8],
    ) -> io::Result<Step> {
        let Ok(text) = str::from_utf8(bytes) else {
            return self.refuse(alloc, Refusal::NotJson);
        };
        let root = match Value::from_str(alloc, text) {
            Ok(root) => root,
            Err(error) if error.is_memory() => return self.refuse(alloc, Refusal::Memory),
            Err(_) => return self.refuse(alloc, Refusal::NotJson),
        };
        let message = message_of(&root);
        match message {
            Message::Notification(call) if call.method == "exit" => return Ok(Step::Exit),
            Message::Notification(call) => self.note(session, call)?,
            _ => self.tell(session, alloc)?,
        }
        if let Some(reply) = session.reply(message) {
            self.send_reply(alloc, &reply)?;
        }
        Ok(Step::Next)
    }

    /// Takes a notification. If memory is refused, the log says so.
    fn note<C: ArgumentCheck>(
        &mut self,
        session: &mut Session<'_, C>,
        call: Call<'_>,
    ) -> io::Result<()> {
        match session.note(self.rt, call) {
            Ok(()) => Ok(()),
            Err(error) => self.log(error),
        }
    }

    /// Sends the notifications to which those that came lead: before a reply, and where no whole message has come, so that changes
    /// which come behind one another are taken together. If memory is refused, the log says so.
    fn tell<C: ArgumentCheck>(
        &mut self,
        session: &mut Session<'_, C>,
        alloc: Global,
    ) -> io::Result<()> {
        let notes = match session.tell(self.rt) {
            Ok(notes) => notes,
            Err(error) => return self.log(error),
        };
        for note in notes {
            match framed(alloc, note.as_str()) {
                Ok(sent) => self.send(sent.as_str())?,
                Err(error) => self.log(error)?,
            }
        }
        Ok(())
    }

    /// Sends a refusal of a message that has no id.
    fn refuse(&mut self, alloc: Global, why: Refusal) -> io::Result<Step> {
        let reply = Reply {
            id: Id::Unknown,
            outcome: Err(why),
        };
        self.send_reply(alloc, &reply)?;
        Ok(Step::Next)
    }

    /// Sends a reply. If memory for it is refused, the reply says so.
    fn send_reply(&mut self, alloc: Global, reply: &Reply<'_>) -> io::Result<()> {
        let sent = match framed_reply(alloc, reply) {
            Ok(sent) => sent,
            Err(AllocError) => {
                let refused = Reply {
                    id: reply.id,
                    outcome: Err(Refusal::Memory),
                };
                framed_reply(alloc, &refused)?
            }
        };
        self.send(sent.as_str())
    }

    /// Writes a message that is in its frame, and flushes the output.
    fn send(&mut self, sent: &str) -> io::Result<()> {
        self.out.write_all(sent.as_bytes())?;
        self.out.flush()
    }

    fn log(&mut self, error: AllocError) -> io::Result<()> {
        writeln!(self.log, "cedar-language-server: {error}")
    }
}

/// The message of a reply, in its frame.
fn framed_reply(alloc: Global, reply: &Reply<'_>) -> Result<String, AllocError> {
    let message = reply.written(alloc)?;
    framed(alloc, message.as_str())
}

fn why_broken(why: Broken) -> &'static str {
    match why {
        Broken::NoLength => "a head without a length, or of more than 8,192 bytes",
        Broken::TooLong => "a message of more than 64 MiB",
    }
}
