ghost use Rattle.std.specs.Prelude.{◌≡◌, ◌≤◌, ◌++◌, ◌∷◌, [], IfOk, List, false, length, true, ℕ};
ghost use Rattle.std.specs.List.{list_all};
ghost use Rattle.httparse.specs.Grammar.{HasNoRequest, NeverHasRequest, ReadsRequest, RequestHead, print_request};
ghost use Rattle.mt_http_head.specs.Parsed.{IsDecided};
ghost use Rattle.mt_http_head.specs.Points.{decision as decision_of, head_of};
ghost use Rattle.mt_http_head.specs.declared.decision.Decision.TheVariants as decided;
ghost use Rattle.mt_http_stream.specs.Progress.{IsFed, ends_line};
ghost use Rattle.mt_http_stream.specs.Settling.{Begins, IsNoHead, Settles, Tells, head_limit};
ghost use Rattle.mt_http_stream.specs.declared.progress.Progress.{Progress};

use crate::settled::Settled;
use mt_http_head::{Decision, HeadStatus, decide_head};
use mt_http_types::Feed;
use mt_tree::{Buffer, NoMemory, Row, Text};
use std::alloc::Global;

// The most bytes of a head.
const HEAD_LIMIT: usize = 65_536;

/// Where in a request a stream stands.
#[derive(Drop)]
pub(crate) enum Progress {
    /// Before the request line, behind line ends whose bytes are these.
    Blank(Buffer<u8>),
    /// In the head, whose bytes so far are these.
    Head(Buffer<u8>),
    /// Behind so many bytes with which no head begins.
    Invalid(usize),
    /// In the body of a call of this service: so many bytes it has, and these are there.
    Body(Text, u64, Buffer<u8>),
    /// Behind the byte that decided.
    Over(Settled),
}

fn ends_line(byte: u8) -> bool
    ensures { result ≡ ends_line byte }
{
    byte == b'\n' || byte == b'\r'
}

// Whether the last line is empty. A head ends so.
#[tactic(auto, using(crate::proofs::Ends::no_head_otherwise))]
fn ends_in_empty_line(bytes: &[u8]) -> bool
    ensures { result ≡ false → IsNoHead bytes.now }
{
    bytes.ends_with(b"\n\n") || bytes.ends_with(b"\n\r\n")
}

// What the bytes of a head decide, of which the last one is new.
#[tactic(auto, using(crate::proofs::Steps::none_yet))]
fn head_status(alloc: Global, services: &Row<Text>, bytes: &[u8]) -> Result<HeadStatus, NoMemory>
    ensures { IfOk result (λ status. (before : List ℕ) (byte : ℕ) → HasNoRequest before → bytes.now ≡ before ++ byte ∷ [] → IsDecided services.now bytes.now status) }
{
    if ends_in_empty_line(bytes) {
        decide_head(alloc, services, bytes)
    } else {
        Ok(HeadStatus::Partial)
    }
}

// Where a stream stands behind a head that decided so.
#[tactic(auto, using(crate::proofs::Steps::over_refused, crate::proofs::Steps::over_load, crate::proofs::Steps::over_post, crate::proofs::Steps::body_first))]
fn behind_head(alloc: Global, decision: Decision) -> Progress
    ensures { (services : List (List ℕ)) (fed : List ℕ) → Begins services fed decision → IsFed services result fed }
{
    match decision {
        Decision::Refused(status) => Progress::Over(Settled::Refused(status)),
        Decision::Load(service, text) => Progress::Over(Settled::Load(service, text)),
        Decision::Post(service, size) => {
            if size == 0 {
                Progress::Over(Settled::Post(service, Buffer::new(alloc)))
            } else {
                Progress::Body(service, size, Buffer::new(alloc))
            }
        }
    }
}

// Where a stream stands behind line ends.
#[tactic(auto, using(crate::proofs::Steps::full_blank))]
fn within_blank(bytes: Buffer<u8>) -> Progress
    ensures { (services : List (List ℕ)) → list_all ends_line bytes ≡ true → length bytes ≤ head_limit → IsFed services result bytes }
{
    if bytes.items().len() < HEAD_LIMIT {
        Progress::Blank(bytes)
    } else {
        Progress::Over(Settled::Refused(431))
    }
}

// Where a stream stands in a head that isn't whole.
#[tactic(auto, using(crate::proofs::Steps::full_none))]
fn within_head(bytes: Buffer<u8>) -> Progress
    ensures { (services : List (List ℕ)) → HasNoRequest bytes → length bytes ≤ head_limit → IsFed services result bytes }
{
    if bytes.items().len() < HEAD_LIMIT {
        Progress::Head(bytes)
    } else {
        Progress::Over(Settled::Refused(431))
    }
}

// Where a stream stands behind so many bytes with which no head begins.
#[tactic(auto, using(crate::proofs::Steps::full_never))]
fn within_invalid(count: usize) -> Progress
    ensures { (services : List (List ℕ)) (fed : List ℕ) → count ≡ length fed → NeverHasRequest fed → length fed ≤ head_limit → IsFed services result fed }
{
    if count < HEAD_LIMIT {
        Progress::Invalid(count)
    } else {
        Progress::Over(Settled::Refused(431))
    }
}

// Where a stream stands in a body.
#[tactic(auto, using(crate::proofs::Steps::body_whole))]
fn within_body(service: Text, size: u64, body: Buffer<u8>) -> Progress
    ensures { (services : List (List ℕ)) (fed : List ℕ) (head : RequestHead) → ReadsRequest fed head body → length (print_request head) ≤ head_limit → decision_of services (head_of head) ≡ decided.Post service size → length body ≤ size → IsFed services result fed }
{
    if (body.items().len() as u64) < size {
        Progress::Body(service, size, body)
    } else {
        Progress::Over(Settled::Post(service, body))
    }
}

#[tactic(auto, using(crate::proofs::Steps::blank_more))]
fn after_line_end(bytes: Buffer<u8>, byte: u8) -> Result<Progress, NoMemory>
    requires { ends_line byte ≡ true }
    ensures { IfOk result (λ next. (services : List (List ℕ)) (fed : List ℕ) → IsFed services (Progress.Blank bytes) fed → IsFed services next (fed ++ byte ∷ [])) }
{
    let mut gathered = bytes;
    gathered.push(byte)?;
    Ok(within_blank(gathered))
}

// A head begins with the first byte that ends no line, so empty lines before it are never parsed.
#[tactic(auto, using(crate::proofs::Steps::blank_is_head))]
fn after_blank(
    alloc: Global,
    services: &Row<Text>,
    bytes: Buffer<u8>,
    byte: u8,
) -> Result<Progress, NoMemory>
    ensures { IfOk result (λ next. (fed : List ℕ) → IsFed services.now (Progress.Blank bytes) fed → IsFed services.now next (fed ++ byte ∷ [])) }
{
    if ends_line(byte) {
        after_line_end(bytes, byte)
    } else {
        after_head(alloc, services, bytes, byte)
    }
}

#[tactic(auto, using(crate::proofs::Steps::head_ends, crate::proofs::Steps::head_goes_on, crate::proofs::Steps::head_is_lost))]
fn after_head(
    alloc: Global,
    services: &Row<Text>,
    bytes: Buffer<u8>,
    byte: u8,
) -> Result<Progress, NoMemory>
    ensures { IfOk result (λ next. (fed : List ℕ) → IsFed services.now (Progress.Head bytes) fed → IsFed services.now next (fed ++ byte ∷ [])) }
{
    let mut gathered = bytes;
    gathered.push(byte)?;
    match head_status(alloc, services, gathered.items())? {
        HeadStatus::Complete(decision) => Ok(behind_head(alloc, decision)),
        HeadStatus::Partial => Ok(within_head(gathered)),
        HeadStatus::Invalid => Ok(within_invalid(gathered.items().len())),
    }
}

#[tactic(auto, using(crate::proofs::Steps::body_more))]
fn after_body(service: Text, size: u64, body: Buffer<u8>, byte: u8) -> Result<Progress, NoMemory>
    ensures { IfOk result (λ next. (services : List (List ℕ)) (fed : List ℕ) → IsFed services (Progress.Body service size body) fed → IsFed services next (fed ++ byte ∷ [])) }
{
    let mut gathered = body;
    gathered.push(byte)?;
    Ok(within_body(service, size, gathered))
}

impl Progress {
    /// Where a stream stands after this byte.
    ///
    /// # Errors
    /// `NoMemory`.
    #[tactic(auto, using(crate::proofs::Steps::lost_goes_on, crate::proofs::Steps::over_more))]
    pub(crate) fn after(
        self,
        alloc: Global,
        services: &Row<Text>,
        byte: u8,
    ) -> Result<Progress, NoMemory>
        ensures { IfOk result (λ next. (fed : List ℕ) → IsFed services.now self fed → IsFed services.now next (fed ++ byte ∷ [])) }
    {
        match self {
            Progress::Blank(bytes) => after_blank(alloc, services, bytes, byte),
            Progress::Head(bytes) => after_head(alloc, services, bytes, byte),
            Progress::Invalid(count) => Ok(within_invalid(count.saturating_add(1))),
            Progress::Body(service, size, body) => after_body(service, size, body, byte),
            Progress::Over(settled) => Ok(Progress::Over(settled)),
        }
    }

    /// Where a stream stands after these bytes.
    ///
    /// # Errors
    /// `NoMemory`.
    #[tactic(auto, using(crate::proofs::Steps::leads_first, crate::proofs::Steps::leads_more, crate::proofs::Steps::leads_all))]
    pub(crate) fn after_all(
        self,
        alloc: Global,
        services: &Row<Text>,
        piece: &[u8],
    ) -> Result<Progress, NoMemory>
        ensures { IfOk result (λ next. (fed : List ℕ) → IsFed services.now self fed → IsFed services.now next (fed ++ piece.now)) }
    {
        let mut progress = self;
        for byte in piece {
            progress = progress.after(alloc, services, *byte)?;
        }
        Ok(progress)
    }

    /// Whether more bytes may matter.
    #[tactic(auto, using(crate::proofs::Steps::blank_settles_none, crate::proofs::Steps::head_settles_none, crate::proofs::Steps::invalid_settles_none, crate::proofs::Steps::body_settles_none))]
    pub(crate) fn feed(&self) -> Feed
        ensures { (services : List (List ℕ)) (fed : List ℕ) → IsFed services self.now fed → Tells services fed result }
    {
        match self {
            Progress::Over(_) => Feed::Decided,
            Progress::Blank(_) => Feed::More,
            Progress::Head(_) => Feed::More,
            Progress::Invalid(_) => Feed::More,
            Progress::Body(_, _, _) => Feed::More,
        }
    }

    /// What was decided.
    #[tactic(auto, using(crate::proofs::Steps::blank_settles_none, crate::proofs::Steps::head_settles_none, crate::proofs::Steps::invalid_settles_none, crate::proofs::Steps::body_settles_none))]
    pub(crate) fn settled(self) -> Option<Settled>
        ensures { (services : List (List ℕ)) (fed : List ℕ) → IsFed services self fed → Settles services fed result }
    {
        match self {
            Progress::Over(settled) => Some(settled),
            Progress::Blank(_bytes) => None,
            Progress::Head(_bytes) => None,
            Progress::Invalid(_count) => None,
            Progress::Body(_service, _size, _body) => None,
        }
    }
}
