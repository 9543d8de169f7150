ghost use Rattle.std.specs.Prelude.{◌≡◌, ◌↔◌, [], IsTrue};
ghost use Rattle.mt_stage_placement.specs.Placement.{misplaced_jumps};
ghost use Rattle.mt_stage_declared.specs.Twice.{twice_in_client};

use mt_stage_declared::declares_once;
use mt_stage_placement::jumps_fit;
use mt_syntax::Code;

/// Whether the code breaks neither the rule on names that are declared twice nor the rule on jumps. Takes no memory.
pub fn fits_client(code: &Code) -> bool
    ensures { IsTrue result ↔ ((misplaced_jumps code.now.body ≡ []) × (twice_in_client code.now.body ≡ [])) }
{
    jumps_fit(&code.body) && declares_once(&code.body)
}
