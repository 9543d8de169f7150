ghost use Rattle.std.specs.Prelude.{◌≡◌};
ghost use Rattle.mt_grammar.specs.Depth as grammar;
ghost use Rattle.mt_parser_marks.specs.NodeViews.{node_of};

use mt_parser_marks::Node;
use mt_tree::Place;

// The place of a statement or an expression.
pub(crate) fn counted_place(node: &Node<'_>) -> Option<Place>
    ensures { result ≡ grammar.counted_place (node_of node.now) }
{
    match node {
        Node::Name(mark) | Node::Number(mark) | Node::Text(mark) | Node::Property(mark) => Some(
            mark.place,
        ),
        Node::Constant(place, _)
        | Node::Array(place, _)
        | Node::Object(place, _)
        | Node::Function(place, _, _, _)
        | Node::Unary(place, _)
        | Node::Step(place, _)
        | Node::Operation(place, _)
        | Node::Condition(place)
        | Node::Assign(place, _)
        | Node::Index(place)
        | Node::Call(place, _)
        | Node::Tilde(place, _)
        | Node::Dollar(place)
        | Node::Element(place, _, _)
        | Node::Expression(place)
        | Node::Var(place, _, _)
        | Node::Declare(place, _, _, _)
        | Node::If(place)
        | Node::IfElse(place)
        | Node::While(place)
        | Node::For(place)
        | Node::Return(place)
        | Node::Jump(place, _)
        | Node::Throw(place)
        | Node::Try(place)
        | Node::Block(place, _)
        | Node::Empty(place) => Some(*place),
        _ => None,
    }
}
