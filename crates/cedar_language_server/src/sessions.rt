// Sessions: the state of the server between messages, and the reply to each message.
ghost use Rattle.cedar_language_server.specs.Sessions.{IsReplyTo, IsNoStepBack};

use crate::messages::{Call, Message};
use crate::questions::Question;
use crate::replies::{CAPABILITIES, Refusal, Reply};
use crate::workspaces::Workspace;
use cedar_types::base::{ArgumentCheck, ExtensionSchemas};
use std::alloc::{AllocError, Global};
use std::rt::Files;

/// The phase of a session between `initialize` and `exit`.
#[derive(Clone, Copy, PartialEq, Eq)]
pub enum Phase {
    Fresh,
    Serving,
    ShutDown,
}

/// The state of the server between messages.
#[derive(Drop)]
pub struct Session<'e, C: ArgumentCheck> {
    phase: Phase,
    workspace: Workspace<'e, C>,
}

impl<'e, C: ArgumentCheck> Session<'e, C> {
    /// A session before `initialize`.
    pub fn new(alloc: Global, extensions: &'e ExtensionSchemas<C>) -> Session<'e, C> {
        Session {
            phase: Phase::Fresh,
            workspace: Workspace::new(alloc, extensions),
        }
    }

    /// The exit status of a program that ends now: 0 after `shutdown`, else 1.
    pub fn status(&self) -> u8 {
        u8::from(self.phase != Phase::ShutDown)
    }

    /// The reply to a message. A request has one, with its id, and a notification and an answer have none (clause `once`). If
    /// memory is refused in a request, its reply says so. A phase that is over does not come back (clause `phase`).
    pub fn reply<'m>(&mut self, message: Message<'m>) -> Option<Reply<'m>>
        ensures once { IsReplyTo message.entry result }
        ensures phase { IsNoStepBack self.old.phase self.new.phase }
    {
        match message {
            Message::Request(id, call) => {
                let outcome = match self.outcome(call) {
                    Ok(outcome) => outcome,
                    Err(AllocError) => Err(Refusal::Memory),
                };
                Some(Reply { id, outcome })
            }
            Message::Odd(id) => Some(Reply {
                id,
                outcome: Err(Refusal::BadRequest("no request")),
            }),
            Message::Notification(_) | Message::Answer => None,
        }
    }

    /// The outcome of a request: a value of JSON, or a refusal.
    fn outcome(&mut self, call: Call<'_>) -> Result<Result<String, Refusal>, AllocError>
        ensures { IsNoStepBack self.old.phase self.new.phase }
    {
        let alloc = self.workspace.alloc;
        match (self.phase, call.method) {
            (Phase::Fresh, "initialize") => {
                let told = String::from_str(alloc, CAPABILITIES)?;
                self.workspace.begin(call)?;
                self.phase = Phase::Serving;
                Ok(Ok(told))
            }
            (Phase::Fresh, _) => Ok(Err(Refusal::NotInitialized)),
            (_, "initialize") => Ok(Err(Refusal::BadRequest("initialize came before"))),
            (Phase::ShutDown, _) => Ok(Err(Refusal::BadRequest("shutdown came before"))),
            (Phase::Serving, "shutdown") => {
                let told = String::from_str(alloc, "null")?;
                self.phase = Phase::ShutDown;
                Ok(Ok(told))
            }
            (Phase::Serving, method) => match Question::of_method(method) {
                // memory was refused to a change that came before
                Some(_) if !self.workspace.is_settled() => Ok(Err(Refusal::Memory)),
                Some(question) => self.workspace.answer(question, call),
                None => Ok(Err(Refusal::UnknownMethod)),
            },
        }
    }

    /// Takes a notification. A notification before `initialize` or after `shutdown` is passed over, and so is one in another
    /// form, or a change of a document that is not open.
    pub fn note<R: Files + AllocGlobal + Clone + Drop>(
        &mut self,
        rt: &R,
        call: Call<'_>,
    ) -> Result<(), AllocError> {
        if self.phase != Phase::Serving {
            return Ok(());
        }
        self.workspace.note(rt, call)
    }

    /// The notifications that those which came lead to. Changes that came behind one another are taken together here.
    pub fn tell<R: Files + AllocGlobal + Clone + Drop>(
        &mut self,
        rt: &R,
    ) -> Result<Vec<String>, AllocError> {
        if self.phase != Phase::Serving {
            return Ok(Vec::new(self.workspace.alloc));
        }
        self.workspace.tell(rt)
    }
}
