ghost use Rattle.std.specs.Prelude.{◌≡◌};

use crate::progress::Progress;
use crate::settled::Settled;
use mt_http_types::Feed;
use mt_tree::{Buffer, NoMemory, Row, Text};
use std::alloc::Global;
use std::mem;

fn put(place: &mut Progress, progress: Progress)
    ensures { place.new ≡ progress }
{
    *place = progress;
}

/// Takes in a request as its bytes come, in pieces of any size. It keeps the bytes of the head until it is over, at most
/// 65,536 of them, and then those of the body, at most 4,194,304.
#[derive(Drop)]
pub struct RequestStream {
    alloc: Global,
    services: Row<Text>,
    progress: Progress,
}

impl RequestStream {
    ghost use Rattle.std.specs.Prelude.{◌++◌, [], IfOk, List, OnOk, ℕ};
    ghost use Rattle.mt_http_stream.specs.Fed.{WasFed};
    ghost use Rattle.mt_http_stream.specs.Settling.{Settles, Tells};

    /// A stream for a server that has these services, and that was fed nothing.
    ///
    /// # Errors
    /// `NoMemory`.
    pub fn new(alloc: Global, services: &Row<Text>) -> Result<RequestStream, NoMemory>
        ensures { IfOk result (λ stream. WasFed stream services.now []) }
    {
        Ok(RequestStream {
            alloc,
            services: services.share()?,
            progress: Progress::Blank(Buffer::new(alloc)),
        })
    }

    /// Takes the next bytes. `Decided` comes exactly where the bytes that were fed have decided; later ones are ignored.
    ///
    /// # Errors
    /// `NoMemory`; the stream may then only be dropped.
    pub fn feed(&mut self, piece: &[u8]) -> Result<Feed, NoMemory>
        ensures fed { OnOk result ((services : List (List ℕ)) (fed : List ℕ) → WasFed self.old services fed → WasFed self.new services (fed ++ piece.now)) }
        ensures decided { IfOk result (λ feed. (services : List (List ℕ)) (fed : List ℕ) → WasFed self.old services fed → Tells services (fed ++ piece.now) feed) }
    {
        let progress = mem::replace(&mut self.progress, Progress::Invalid(0));
        let next = progress.after_all(self.alloc, &self.services, piece)?;
        let feed = next.feed();
        put(&mut self.progress, next);
        Ok(feed)
    }

    /// What the bytes that were fed have decided, if they have. Takes no memory.
    pub fn finish(self) -> Option<Settled>
        ensures { (services : List (List ℕ)) (fed : List ℕ) → WasFed self services fed → Settles services fed result }
    {
        let RequestStream {
            alloc: _,
            services: _services,
            progress,
        } = self;
        progress.settled()
    }
}
