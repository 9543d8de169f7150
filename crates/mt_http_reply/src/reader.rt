use crate::stream::ReplyStream;
use mt_http_types::{Feed, Reply, ReplyRefusal};
use mt_tree::{Buffer, NoMemory, append};
use std::alloc::Global;

/// Reads a reply as its bytes come, in pieces of any size, and keeps its body.
#[derive(Drop)]
pub struct ReplyReader {
    stream: ReplyStream,
    body: Vec<u8>,
}

impl ReplyReader {
    ghost use Rattle.std.specs.Prelude.{◌≡◌, ◌++◌, [], Err, Ok, IfOk, List, OnOk, ℕ};
    ghost use Rattle.mt_http_types.specs.declared.feed.Feed.{Feed};
    ghost use Rattle.mt_http_reply.specs.Fed.{ReaderWasFed};
    ghost use Rattle.mt_http_reply.specs.Reading.{BeginsNoReply, IsNoReply};
    ghost use Rattle.mt_http_reply.specs.ReplyText.{IsReply, reply_text};

    /// A reader that was fed nothing. Takes no memory.
    pub fn new(alloc: Global) -> ReplyReader
        ensures { ReaderWasFed result [] }
    {
        ReplyReader {
            stream: ReplyStream::new(alloc),
            body: Vec::new(alloc),
        }
    }

    /// Takes the next bytes. `Decided` comes only where no reply begins with the bytes that were fed; later pieces are then
    /// ignored.
    ///
    /// # Errors
    /// `NoMemory`; the reader may then only be dropped.
    pub fn feed(&mut self, piece: &[u8]) -> Result<Feed, NoMemory>
        ensures fed { OnOk result ((fed : List ℕ) → ReaderWasFed self.old fed → ReaderWasFed self.new (fed ++ piece.now)) }
        ensures decided { result ≡ Ok Feed.Decided → (fed : List ℕ) → ReaderWasFed self.old fed → BeginsNoReply (fed ++ piece.now) }
    {
        let part = self.stream.feed(piece)?;
        append(part.body, &mut self.body)?;
        Ok(part.feed)
    }

    /// The reply whose text the bytes fed are. Takes no memory.
    ///
    /// # Errors
    /// `NotReply` exactly where no reply has this text.
    pub fn finish(self) -> Result<Reply, ReplyRefusal>
        ensures found { IfOk result (λ reply. (fed : List ℕ) → ReaderWasFed self fed → IsReply reply × (reply_text reply ≡ fed)) }
        ensures refused { result ≡ Err ReplyRefusal.NotReply → (fed : List ℕ) → ReaderWasFed self fed → IsNoReply fed }
        ensures memory { result ≡ Err ReplyRefusal.NoMemory → ⊥ }
    {
        let ReplyReader { stream, body } = self;
        let head = stream.finish()?;
        Ok(Reply {
            status: head.status,
            content: head.content,
            body: Buffer::from_vec(body),
        })
    }
}
