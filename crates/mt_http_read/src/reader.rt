use crate::asking::asked;
use mt_http_stream::RequestStream;
use mt_http_types::{Asked, Feed};
use mt_tree::{NoMemory, Row, Text};
use std::alloc::Global;

/// Reads a request as its bytes come, in pieces of any size.
///
/// It keeps the bytes of the head until it is over, at most 65,536 of them, and then those of the body, at most 4,194,304.
#[derive(Drop)]
pub struct RequestReader {
    alloc: Global,
    stream: RequestStream,
}

impl RequestReader {
    ghost use Rattle.std.specs.Prelude.{◌≡◌, ◌++◌, [], IfOk, List, OnOk, ℕ};
    ghost use Rattle.mt_http_read.specs.Fed.{WasFed};
    ghost use Rattle.mt_http_read.specs.Reading.{feed_by, reads_request, settled_in};

    /// A reader for a server that has these services, and that was fed nothing.
    ///
    /// # Errors
    /// `NoMemory`.
    pub fn new(alloc: Global, services: &Row<Text>) -> Result<RequestReader, NoMemory>
        ensures { IfOk result (λ reader. WasFed reader services.now []) }
    {
        Ok(RequestReader {
            alloc,
            stream: RequestStream::new(alloc, services)?,
        })
    }

    /// Takes the next bytes. `Decided` comes exactly where the bytes that were fed have decided; later ones are ignored.
    ///
    /// # Errors
    /// `NoMemory`; the reader may then only be dropped.
    pub fn feed(&mut self, piece: &[u8]) -> Result<Feed, NoMemory>
        ensures fed { OnOk result ((services : List (List ℕ)) (fed : List ℕ) → WasFed self.old services fed → WasFed self.new services (fed ++ piece.now)) }
        ensures decided { IfOk result (λ feed. (services : List (List ℕ)) (fed : List ℕ) → WasFed self.old services fed → feed ≡ feed_by (settled_in services (fed ++ piece.now))) }
    {
        self.stream.feed(piece)
    }

    /// What the bytes that were fed ask for: a load or a call of one of the services, or a refusal with its status.
    ///
    /// # Errors
    /// `NoMemory`.
    pub fn finish(self) -> Result<Asked, NoMemory>
        ensures { IfOk result (λ asked. (services : List (List ℕ)) (fed : List ℕ) → WasFed self services fed → asked ≡ reads_request services fed) }
    {
        let RequestReader { alloc, stream } = self;
        match stream.finish() {
            Some(settled) => asked(alloc, settled),
            None => Ok(Asked::Refused(400)),
        }
    }
}
