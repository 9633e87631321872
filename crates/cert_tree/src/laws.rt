//! The law of lifting.

ghost use Rattle.cert_tree.specs.TreeValue.{TreesBoundNetworks};

use duality::weak_duality;

/// No network that agrees with a decision is shorter than the value of a tree that is valid under it: it agrees with
/// the decision of one of a split's children. A law: the call does nothing, and its caller knows the fact from
/// there on.
pub fn tree_bounds_every_network()
    ensures { TreesBoundNetworks }
{
    weak_duality();
}
