ghost use Rattle.std.specs.Prelude.{◌≡◌, ◌↔◌, [], None, map, IfOk, IsTrue};
ghost use Rattle.mt_syntax.specs.First.{earlier_of, first_of};
ghost use Rattle.mt_syntax.specs.Joining.{first};
ghost use Rattle.mt_syntax.specs.Gathering.{all_of};
ghost use Rattle.mt_stage_placement.specs.Placement.{in_body, in_dollars, in_tilde, directly_in, jumps_in_body, misplaced, misplaced_jumps};

use crate::forms::{Scene, Site, forms_in_exprs, forms_in_stmts};
use crate::jumps::{Around, jumps_in_exprs, jumps_in_stmts};
use mt_syntax::{Broken, Expr, Program, Stmt, Tilde, earlier};
use mt_tree::{NoMemory, Place, Row};
use std::alloc::Global;

// The place around a whole body.
const NOWHERE: Place = Place { line: 0, column: 0 };

const NOTHING_AROUND: Around = Around {
    place: NOWHERE,
    function: false,
    repeated: false,
};

/// The first place of the program at which a form of the language stands where it may not, with the rule of S1 to S4 and S10
/// to S13 that is broken there; `None` where there is no such place. Takes time in proportion to the program's size.
///
/// # Errors
/// `NoMemory`. The memory taken is for the names of the attributes of one tag.
pub fn first_misplaced(alloc: Global, program: &Program) -> Result<Option<Broken>, NoMemory>
    ensures { IfOk result (λ found. found ≡ first_of (misplaced program.now)) }
{
    let items = body(alloc, &program.items, Scene::Top)?;
    Ok(earlier(items, tildes(alloc, &program.tildes)?))
}

/// Whether each `return` of the body stands in a function or service, and each `break` and `continue` in a loop of the same
/// function: whether the body doesn't break S13. Takes no memory.
pub fn jumps_fit(body: &Row<Stmt>) -> bool
    ensures { IsTrue result ↔ (misplaced_jumps body.now ≡ []) }
{
    jumps_in_body(body).is_none()
}

fn jumps_in_body(body: &Row<Stmt>) -> Option<Broken>
    ensures { result ≡ jumps_in_body first body.now }
{
    jumps_in_stmts(body, NOTHING_AROUND)
}

fn directly_in(scene: Scene) -> Site
    ensures { result ≡ directly_in scene }
{
    Site {
        place: NOWHERE,
        scene,
        handler: false,
    }
}

fn body(alloc: Global, items: &Row<Stmt>, scene: Scene) -> Result<Option<Broken>, NoMemory>
    ensures { IfOk result (λ found. found ≡ in_body first scene items.now) }
{
    let forms = forms_in_stmts(alloc, items, directly_in(scene))?;
    Ok(earlier(forms, jumps_in_body(items)))
}

fn dollars(alloc: Global, items: &Row<Expr>) -> Result<Option<Broken>, NoMemory>
    ensures { IfOk result (λ found. found ≡ in_dollars first items.now) }
{
    let forms = forms_in_exprs(alloc, items, directly_in(Scene::Server))?;
    Ok(earlier(forms, jumps_in_exprs(items, NOTHING_AROUND)))
}

fn tilde(alloc: Global, tilde: &Tilde) -> Result<Option<Broken>, NoMemory>
    ensures { IfOk result (λ found. found ≡ in_tilde first tilde.now) }
{
    let code = body(alloc, &tilde.body, Scene::Client)?;
    Ok(earlier(code, dollars(alloc, &tilde.dollars)?))
}

fn tildes(alloc: Global, items: &Row<Tilde>) -> Result<Option<Broken>, NoMemory>
    ensures { IfOk result (λ found. found ≡ all_of None earlier_of (map (in_tilde first) items.now)) }
{
    let mut found = None;
    for item in items.items() {
        found = earlier(found, tilde(alloc, item)?);
    }
    Ok(found)
}
