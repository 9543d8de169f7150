ghost use Rattle.std.specs.Prelude.{◌≡◌, ◌≤◌, ℕ, List, IfOk, IsErrOf};
ghost use Rattle.mt_top.specs.Meaning.{HasOneFailed, IsOneTooLong};
ghost use Rattle.mt_top.specs.Texts.{IsRead};

use mt_outside::{Files, ReadFault, read_file};
use std::alloc::Global;

/// The bytes of an application and of its schedule.
#[derive(Drop)]
pub struct Texts {
    pub application: Vec<u8>,
    pub schedule: Vec<u8>,
}

/// Reads both files whole, the application first.
pub fn read_texts<F: Files>(
    alloc: Global,
    application: &str,
    schedule: &str,
    files: &mut F,
) -> Result<Texts, ReadFault>
    ensures application { IfOk result (λ texts. IsRead (record {
      contents = F.contents files.old;
      faults = F.faults files.old;
      faults_after = F.faults files.new;
    }) application.now texts.application.items) }
    ensures schedule { IfOk result (λ texts. IsRead (record {
      contents = F.contents files.old;
      faults = F.faults files.old;
      faults_after = F.faults files.new;
    }) schedule.now texts.schedule.items) }
    ensures failed { IsErrOf result ReadFault.Failed → HasOneFailed (record {
      contents = F.contents files.old;
      faults = F.faults files.old;
      faults_after = F.faults files.new;
    }) application.now schedule.now }
    ensures too_long { IsErrOf result ReadFault.TooLong → IsOneTooLong (record {
      contents = F.contents files.old;
      faults = F.faults files.old;
      faults_after = F.faults files.new;
    }) application.now schedule.now }
    ensures contents { F.contents files.new ≡ F.contents files.old }
    ensures later { (name : List ℕ) → F.faults files.old name ≤ F.faults files.new name }
{
    let text = read_file(alloc, files, application)?;
    let lines = read_file(alloc, files, schedule)?;
    Ok(Texts {
        application: text,
        schedule: lines,
    })
}
