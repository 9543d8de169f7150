ghost use Rattle.std.specs.Prelude.{◌≡◌};
ghost use Rattle.std.specs.Str.{encode_utf8_all};
ghost use Rattle.mt_syntax.specs.Joining.{first};
ghost use Rattle.mt_stage_placement.specs.Forms.{at_attribute, at_node, below, broken_if, in_dollar};

use mt_syntax::{Broken, Mark, Rule};
use mt_tree::{Place, handler_known};

/// The code that a part of a program stands in.
#[derive(Clone, Copy, Debug, PartialEq, Eq)]
pub enum Scene {
    /// The top of the file.
    Top,
    /// Other server code.
    Server,
    /// The code of a tilde, its dollars left out.
    Client,
}

/// Where a part of a program stands.
#[derive(Clone, Copy)]
pub struct Site {
    /// The place of the innermost statement, expression or attribute.
    pub place: Place,
    /// The code around it.
    pub scene: Scene,
    /// Of the value of an attribute, whether the attribute is a handler.
    pub handler: bool,
}

impl Site {
    pub(crate) fn at_node(self, place: Place) -> Site
        ensures { result ≡ at_node place self }
    {
        Site { place, ..self }
    }

    // What stands in a statement doesn't stand at the top of the file.
    pub(crate) fn below(self) -> Site
        ensures { result ≡ below self }
    {
        let scene = match self.scene {
            Scene::Top => Scene::Server,
            scene => scene,
        };
        Site { scene, ..self }
    }

    pub(crate) fn in_dollar(self) -> Site
        ensures { result ≡ in_dollar self }
    {
        Site {
            scene: Scene::Server,
            ..self
        }
    }

    pub(crate) fn at_attribute(self, name: &Mark) -> Site
        ensures { result ≡ at_attribute name.now self }
    {
        Site {
            place: name.place,
            scene: self.scene,
            handler: handler_known(name.name.as_bytes()),
        }
    }
}

pub(crate) fn broken_if(fails: bool, rule: Rule, place: Place) -> Option<Broken>
    ensures { result ≡ broken_if first fails rule place }
{
    if fails {
        Some(Broken { place, rule })
    } else {
        None
    }
}
