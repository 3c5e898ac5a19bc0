ghost use Rattle.std.specs.Prelude.{◌≡◌, ◌<◌, length, option_map};
ghost use Rattle.alg_syntax.specs.Nodes.{tree_at};
ghost use Rattle.alg_names.specs.InForce.{meaning};
ghost use Rattle.alg_elaborate.specs.Raw.{arguments, none, name_in};
ghost use Rattle.alg_elaborate.specs.Raw as raw;
ghost use Rattle.alg_elaborate.specs.Spines.{IsHead};

use alg_names::{Meaning, Scope};
use alg_syntax::nodes::{Node, Nodes};

/// The name that an application applies, by its number, and how many arguments there are. A name alone has none.
pub fn head<'a>(nodes: &Nodes<'a>, id: usize) -> (Option<usize>, usize)
    requires { id < length nodes.now }
    ensures head { IsHead nodes.now (tree_at nodes.now id) result.0 }
    ensures count { result.1 ≡ raw.count (arguments (tree_at nodes.now id) none) }
{
    let mut at = id;
    let mut count = 0;
    'down: loop {
        match nodes.get(at) {
            Node::Apply(a, _) => {
                at = *a;
                count += 1;
            }
            Node::Name(_) => return (Some(at), count),
            _ => return (None, count),
        }
    }
}

/// What the name with this number stands for.
pub fn meaning_at<'s, 'a>(scope: &'s Scope, nodes: &Nodes<'a>, id: usize) -> Option<&'s Meaning>
    requires { id < length nodes.now }
    ensures { option_map (λ m. m.now) result ≡ meaning scope.now (name_in (tree_at nodes.now id)) }
{
    match nodes.get(id) {
        Node::Name(name) => scope.meaning(name.text()),
        _ => scope.meaning(""),
    }
}
