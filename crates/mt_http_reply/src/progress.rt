ghost use Rattle.std.specs.Prelude.{◌≡◌, ◌++◌, ◌∷◌, [], IfOk, IfSome, List, MatchOption, OnOk, ℕ};
ghost use Rattle.mt_http_types.specs.declared.feed.Feed.{Feed};
ghost use Rattle.mt_http_reply.specs.Reading.{BeginsNoReply, HasHead, HasNoHead, IsHeadWith, IsNoHead, IsNoReply, IsReplyWith};
ghost use Rattle.mt_http_reply.specs.Stream.{EndsHead, IsBehind, IsFed, PassesHead, TakesBody};
ghost use Rattle.mt_http_reply.specs.declared.progress.Progress.{Progress};

use crate::reading::read_head;
use mt_http_types::{Feed, ReplyHead};
use mt_tree::{Buffer, NoMemory};
use std::alloc::Global;

// No head has more bytes.
const HEAD_LIMIT: usize = 150;

/// Where in a reply a stream stands.
#[derive(Drop)]
pub(crate) enum Progress {
    /// In the head, whose bytes so far are these.
    Head(Buffer<u8>),
    /// Behind the head; so many bytes of the body are missing.
    Body(ReplyHead, u64),
    /// Behind the body, where a reply has no more bytes.
    Past(ReplyHead),
    /// In bytes with which no reply begins.
    Lost,
}

/// Where a stream stands after so many bytes.
#[derive(Drop)]
pub(crate) struct Taken {
    pub(crate) progress: Progress,
    pub(crate) count: usize,
}

// The head that the bytes are, which end in an empty line.
#[tactic(auto, using(crate::proofs::StreamSteps::ends_otherwise))]
fn head_of(alloc: Global, bytes: &[u8]) -> Result<Option<ReplyHead>, NoMemory>
    ensures { IfOk result (λ found. MatchOption found (IsNoHead bytes.now) (IsHeadWith bytes.now)) }
{
    if bytes.ends_with(b"\r\n\r\n") {
        read_head(alloc, bytes)
    } else {
        Ok(None)
    }
}

// Where a stream stands behind these bytes, where it isn't in the head any more.
fn behind_head(alloc: Global, bytes: &[u8]) -> Result<Option<Progress>, NoMemory>
    ensures head { IfOk result (λ over. (IsNoHead bytes.now → HasNoHead bytes.now) → MatchOption over (HasNoHead bytes.now) (EndsHead bytes.now)) }
    ensures behind { IfOk result (λ over. IfSome over (λ progress. (rest : List ℕ) → IsBehind progress rest)) }
{
    if let Some(head) = head_of(alloc, bytes)? {
        return Ok(Some(Progress::Body(head, head.length)));
    }
    if bytes.len() < HEAD_LIMIT {
        Ok(None)
    } else {
        Ok(Some(Progress::Lost))
    }
}

// Takes a byte of the head, and tells where the stream stands behind it where it isn't in the head any more.
fn after_byte(alloc: Global, bytes: &mut Buffer<u8>, byte: u8) -> Result<Option<Progress>, NoMemory>
    ensures bytes { OnOk result (bytes.new ≡ bytes.old ++ byte ∷ []) }
    ensures head { IfOk result (λ over. HasNoHead bytes.old → MatchOption over (HasNoHead bytes.new) (EndsHead bytes.new)) }
    ensures behind { IfOk result (λ over. IfSome over (λ progress. (rest : List ℕ) → IsBehind progress rest)) }
{
    bytes.push(byte)?;
    let over = behind_head(alloc, bytes.items())?;
    Ok(over)
}

fn take_head(alloc: Global, bytes: Buffer<u8>, piece: &[u8]) -> Result<Taken, NoMemory>
    ensures { IfOk result (PassesHead (Progress.Head bytes) piece.now) }
{
    let mut gathered = bytes;
    for (at, byte) in piece.iter().enumerate() {
        if let Some(progress) = after_byte(alloc, &mut gathered, *byte)? {
            return Ok(Taken {
                progress,
                count: at + 1,
            });
        }
    }
    Ok(Taken {
        progress: Progress::Head(gathered),
        count: piece.len(),
    })
}

impl Progress {
    // The stream stands as before.
    fn unmoved(self) -> Taken
        ensures progress { result.progress ≡ self }
        ensures count { result.count ≡ 0 }
    {
        Taken {
            progress: self,
            count: 0,
        }
    }

    /// Takes the bytes of the piece that belong to the head.
    pub(crate) fn past_head(self, alloc: Global, piece: &[u8]) -> Result<Taken, NoMemory>
        ensures { IfOk result (PassesHead self piece.now) }
    {
        match self {
            Progress::Head(bytes) => take_head(alloc, bytes, piece),
            Progress::Body(head, missing) => Ok(Progress::Body(head, missing).unmoved()),
            Progress::Past(head) => Ok(Progress::Past(head).unmoved()),
            Progress::Lost => Ok(Progress::Lost.unmoved()),
        }
    }

    /// Takes so many bytes behind the head.
    pub(crate) fn past_body(self, size: usize) -> Taken
        ensures { TakesBody self size result }
    {
        match self {
            Progress::Head(bytes) => Progress::Head(bytes).unmoved(),
            Progress::Body(head, missing) => {
                if missing < size as u64 {
                    Taken {
                        progress: Progress::Past(head),
                        count: missing as usize,
                    }
                } else {
                    Taken {
                        progress: Progress::Body(head, missing - size as u64),
                        count: size,
                    }
                }
            }
            Progress::Past(head) => Progress::Past(head).unmoved(),
            Progress::Lost => Progress::Lost.unmoved(),
        }
    }

    /// Whether more bytes may make a reply.
    pub(crate) fn feed(&self) -> Feed
        ensures { result ≡ Feed.Decided → (fed : List ℕ) → IsFed self.now fed → BeginsNoReply fed }
    {
        match self {
            Progress::Head(_) | Progress::Body(_, _) => Feed::More,
            Progress::Past(_head) => Feed::Decided,
            Progress::Lost => Feed::Decided,
        }
    }

    /// The head, where it is over.
    pub(crate) fn head(&self) -> Option<ReplyHead>
        ensures { (fed : List ℕ) → IsFed self.now fed → MatchOption result (HasNoHead fed) (HasHead fed) }
    {
        match self {
            Progress::Head(_) => None,
            Progress::Body(head, _) => Some(*head),
            Progress::Past(head) => Some(*head),
            Progress::Lost => None,
        }
    }

    /// The head of the reply, where it is whole.
    pub(crate) fn whole(self) -> Option<ReplyHead>
        ensures { (fed : List ℕ) → IsFed self fed → MatchOption result (IsNoReply fed) (IsReplyWith fed) }
    {
        match self {
            Progress::Head(_bytes) => None,
            Progress::Body(head, missing) => if missing == 0 { Some(head) } else { None },
            Progress::Past(_head) => None,
            Progress::Lost => None,
        }
    }
}
