ghost use Rattle.std.specs.Prelude.{◌≡◌, List};
ghost use Rattle.mt_html.specs.Normal.{IsNormal, normal};
ghost use Rattle.mt_tree.specs.declared.closure.Closure.{Closure};
ghost use Rattle.mt_tree.specs.declared.html.Html.{Html};

/// In the normal form of children no text is empty, and none stands beside a text.
pub fn joined_children_are_normal()
    ensures { (children : List (Html Closure)) → IsNormal (normal children) }
{}

/// Children in normal form stay as they are.
pub fn normal_children_stay()
    ensures { (children : List (Html Closure)) → IsNormal children → normal children ≡ children }
{}
