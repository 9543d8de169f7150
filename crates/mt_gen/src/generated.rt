ghost use Rattle.std.specs.Prelude.{◌≡◌, ◌≤◌, IfOk};
ghost use Rattle.mt_gen.specs.Application.{application_text};
ghost use Rattle.mt_gen.specs.Schedule.{schedule_text};

use crate::schedule::write_schedule;
use mt_tree::{Buffer, NoMemory};
use std::alloc::Global;

/// A page with a button, and the service that counts its clicks.
const APPLICATION: &[u8; 234] = b"var n = 0;
service hit(k) { n += k; return n; }
service main() { return <div><p id=\"out\">0</p><button id=\"b\" onclick=~{ ${hit}(1).post(function (r) { document.getElementById(\"out\").textContent = String(r); }); }>hit</button></div>; }
";

/// An application and a schedule for it, each a text in UTF-8 whose lines end in line feeds.
#[derive(Drop)]
pub struct Generated {
    /// The source of the application.
    pub application: Buffer<u8>,
    /// The schedule.
    pub schedule: Buffer<u8>,
}

/// The application, and the schedule of `n` clicks by as many clients, of which there are 64 at most.
///
/// `n` is at least 1 and at most 6,000. The schedule has 3 lines for each client and 3 for each click.
///
/// # Errors
/// `NoMemory`.
pub fn generate(alloc: Global, n: u32) -> Result<Generated, NoMemory>
    requires some { 1 ≤ n }
    requires few { n ≤ 6000 }
    ensures application { IfOk result (λ made. made.application ≡ application_text) }
    ensures schedule { IfOk result (λ made. made.schedule ≡ schedule_text n) }
{
    let application = application(alloc)?;
    let schedule = write_schedule(alloc, n)?;
    Ok(Generated {
        application,
        schedule: Buffer::from_vec(schedule.into_bytes()),
    })
}

#[tactic(auto, unfolding(crate::specs::Application::application_text))]
fn application(alloc: Global) -> Result<Buffer<u8>, NoMemory>
    ensures { IfOk result (λ made. made ≡ application_text) }
{
    Ok(Buffer::from_vec(Vec::from_slice(alloc, APPLICATION)?))
}
