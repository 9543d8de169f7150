ghost use Rattle.std.specs.Prelude.{◌≡◌, IfOk};
ghost use Rattle.mt_json.specs.DataAt.{arguments_at};
ghost use Rattle.mt_http_read.specs.Asking.{asked_by};

use mt_http_stream::Settled;
use mt_http_types::{Asked, Call};
use mt_json::{DataRefusal, read_arguments};
use mt_tree::{Data, NoMemory, Row};
use std::alloc::Global;

// The arguments whose text the bytes are.
fn arguments(alloc: Global, bytes: &[u8]) -> Result<Option<Row<Data>>, NoMemory>
    ensures { IfOk result (λ found. found ≡ arguments_at bytes.now) }
{
    match read_arguments(alloc, bytes) {
        Ok(arguments) => Ok(Some(arguments)),
        Err(DataRefusal::NotData) => Ok(None),
        Err(DataRefusal::NoMemory) => Err(NoMemory),
    }
}

/// What is asked for by what was decided.
///
/// # Errors
/// `NoMemory`.
pub(crate) fn asked(alloc: Global, settled: Settled) -> Result<Asked, NoMemory>
    ensures { IfOk result (λ asked. asked ≡ asked_by settled) }
{
    match settled {
        Settled::Refused(status) => Ok(Asked::Refused(status)),
        Settled::Load(service, text) => match arguments(alloc, text.items())? {
            Some(arguments) => Ok(Asked::Load(Call { service, arguments })),
            None => Ok(Asked::Refused(400)),
        },
        Settled::Post(service, text) => match arguments(alloc, text.items())? {
            Some(arguments) => Ok(Asked::Post(Call { service, arguments })),
            None => Ok(Asked::Refused(400)),
        },
    }
}
