ghost use Rattle.std.specs.Prelude.{◌≡◌};

use crate::progress::Progress;
use mt_http_types::{Part, ReplyHead, ReplyRefusal};
use mt_tree::{Buffer, NoMemory};
use std::alloc::Global;
use std::mem;

fn put(place: &mut Progress, progress: Progress)
    ensures { place.new ≡ progress }
{
    *place = progress;
}

/// Reads a reply as its bytes come, in pieces of any size, and hands out the bytes of the body, which it neither keeps nor
/// copies. It keeps the head's bytes until the head is over, at most 150 of them.
#[derive(Drop)]
pub struct ReplyStream {
    alloc: Global,
    progress: Progress,
}

impl ReplyStream {
    ghost use Rattle.std.specs.Prelude.{◌++◌, [], Err, IfOk, List, MatchOption, OnOk, ℕ};
    ghost use Rattle.mt_http_types.specs.declared.feed.Feed.{Feed};
    ghost use Rattle.mt_http_reply.specs.Fed.{StreamWasFed};
    ghost use Rattle.mt_http_reply.specs.Reading.{BeginsNoReply, HasBody, HasHead, HasNoHead, IsNoReply, IsReplyWith};

    /// A stream that was fed nothing. Takes no memory.
    pub fn new(alloc: Global) -> ReplyStream
        ensures { StreamWasFed result [] }
    {
        ReplyStream {
            alloc,
            progress: Progress::Head(Buffer::new(alloc)),
        }
    }

    /// The head of the reply, which is there exactly from the byte on that ends it. Takes no memory.
    pub fn head(&self) -> Option<ReplyHead>
        ensures { (fed : List ℕ) → StreamWasFed self.now fed → MatchOption result (HasNoHead fed) (HasHead fed) }
    {
        self.progress.head()
    }

    /// Takes the next bytes, and hands out those that belong to the body. The bodies handed out, joined, are what is there
    /// of the body. `Decided` comes only where no reply begins with the bytes that were fed; later pieces are then ignored.
    ///
    /// # Errors
    /// `NoMemory`; the stream may then only be dropped.
    pub fn feed<'a>(&mut self, piece: &'a [u8]) -> Result<Part<'a>, NoMemory>
        ensures fed { OnOk result ((fed : List ℕ) → StreamWasFed self.old fed → StreamWasFed self.new (fed ++ piece.now)) }
        ensures body { IfOk result (λ part. (fed body : List ℕ) → StreamWasFed self.old fed → HasBody fed body → HasBody (fed ++ piece.now) (body ++ part.body.now)) }
        ensures decided { IfOk result (λ part. part.feed ≡ Feed.Decided → (fed : List ℕ) → StreamWasFed self.old fed → BeginsNoReply (fed ++ piece.now)) }
    {
        let progress = mem::replace(&mut self.progress, Progress::Lost);
        let head = progress.past_head(self.alloc, piece)?;
        let rest = &piece[head.count..];
        let body = head.progress.past_body(rest.len());
        let feed = body.progress.feed();
        put(&mut self.progress, body.progress);
        Ok(Part {
            body: &rest[..body.count],
            feed,
        })
    }

    /// The head of the reply whose text the bytes fed are; the bodies handed out, joined, are its body. Takes no memory.
    ///
    /// # Errors
    /// `NotReply` exactly where no reply has this text.
    pub fn finish(self) -> Result<ReplyHead, ReplyRefusal>
        ensures found { IfOk result (λ head. (fed : List ℕ) → StreamWasFed self fed → IsReplyWith fed head) }
        ensures refused { result ≡ Err ReplyRefusal.NotReply → (fed : List ℕ) → StreamWasFed self fed → IsNoReply fed }
        ensures memory { result ≡ Err ReplyRefusal.NoMemory → ⊥ }
    {
        let ReplyStream { alloc: _, progress } = self;
        match progress.whole() {
            Some(head) => Ok(head),
            None => Err(ReplyRefusal::NotReply),
        }
    }
}
