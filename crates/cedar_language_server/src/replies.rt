// Replies to requests.
use crate::messages::Id;
use cedar_findings::json::JsonWriter;
use std::alloc::{AllocError, Global};

/// The capabilities of the server, as JSON. It takes changes by ranges, in units of UTF-16.
pub const CAPABILITIES: &str = "{\"capabilities\":{\"positionEncoding\":\"utf-16\",\
\"textDocumentSync\":{\"openClose\":true,\"change\":2,\"save\":{\"includeText\":false}},\
\"hoverProvider\":true,\"completionProvider\":{\"triggerCharacters\":[\".\",\" \",\":\"]},\
\"definitionProvider\":true,\"documentSymbolProvider\":true,\
\"foldingRangeProvider\":true,\
\"codeActionProvider\":{\"codeActionKinds\":[\"quickfix\"]}},\
\"serverInfo\":{\"name\":\"cedar-language-server\",\"version\":\"0.1.0\"}}";

/// The reason why a request is refused.
#[derive(Clone, Copy)]
pub enum Refusal {
    /// The message is no JSON.
    NotJson,
    /// The message is no request, or it comes at a time at which no such request may come.
    BadRequest(&'static str),
    UnknownMethod,
    BadParameters,
    NotInitialized,
    Memory,
}

impl Refusal {
    fn code(self) -> i64 {
        match self {
            Refusal::NotJson => -32700,
            Refusal::BadRequest(_) => -32600,
            Refusal::UnknownMethod => -32601,
            Refusal::BadParameters => -32602,
            Refusal::Memory => -32603,
            Refusal::NotInitialized => -32002,
        }
    }

    fn text(self) -> &'static str {
        match self {
            Refusal::NotJson => "no JSON that is read",
            Refusal::BadRequest(why) => why,
            Refusal::UnknownMethod => "there is no such method",
            Refusal::BadParameters => "the parameters are not those of the method",
            Refusal::Memory => "memory was refused",
            Refusal::NotInitialized => "initialize comes first",
        }
    }
}

/// The reply to a request: its id, and its outcome as JSON, or a refusal.
#[derive(Drop)]
pub struct Reply<'a> {
    pub id: Id<'a>,
    pub outcome: Result<String, Refusal>,
}

impl Reply<'_> {
    /// The message of the reply. If memory is refused, the answer is an `AllocError`.
    pub fn written(&self, alloc: Global) -> Result<String, AllocError> {
        let id = self.id.written(alloc)?;
        match &self.outcome {
            Ok(outcome) => {
                format!(in alloc; "{{\"jsonrpc\":\"2.0\",\"id\":{id},\"result\":{outcome}}}")
            }
            Err(why) => {
                let code = why.code();
                let mut text = String::new(alloc);
                JsonWriter::new().text(&mut text, why.text())?;
                format!(in alloc;
                    "{{\"jsonrpc\":\"2.0\",\"id\":{id},\"error\":{{\"code\":{code},\"message\":{text}}}}}"
                )
            }
        }
    }
}
