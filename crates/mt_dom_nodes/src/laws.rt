ghost use Rattle.std.specs.Prelude.{◌≡◌, ◌≤◌, ℕ, Option, None, length};
ghost use Rattle.mt_dom_nodes.specs.Standing.{Stands, chain};
ghost use Rattle.mt_dom_nodes.specs.Trees.{Trees, head, size};
ghost use Rattle.mt_dom_nodes.specs.declared.node.Node.{Node as ANode};

fn goes_on()
    ensures { (k : ℕ) (look : ℕ → Option ANode) (p v : Option ℕ) (t : Trees) → Stands look p v t → size t ≤ k → chain k look (head t) ≡ t }
{}
