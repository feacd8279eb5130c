// Laws of nodes and of rules.
ghost use Rattle.std.specs.Prelude.{◌≡◌, ℕ, ◌+◌, ◌<◌, ◌≤◌, ℤ, pos, ◌+ℤ◌, ◌≤ℤ◌, Bool, List, length, slice_index_or};
ghost use Rattle.network_model.specs.declared.network.Link.{Link};
ghost use Rattle.network_model.specs.declared.network.Rule.{Rule};
ghost use Rattle.network_model.specs.Nodes.{peak_of};
ghost use Rattle.node_state.specs.Orders.{order_of};
ghost use Rattle.node_state.specs.Holdings.{Holding, new_holding, legs_of, begun, claimed, placed, received, finished, served, no_leg};
ghost use Rattle.node_state.specs.Balance.{IsBalanced, sent_out};

/// An order above 0 takes the position to at most the peak of its rule.
#[tactic(auto, using(crate::specs::Peaks::order_within))]
pub fn orders_stay_within_peaks()
    ensures { (rule : Rule) (p : ℤ) → 0 < order_of rule p → (p +ℤ pos (order_of rule p)) ≤ℤ pos (peak_of rule) }
{}

/// A node is balanced before the first period and after each event of a period: the initial stock and all units made are in
/// stock or were sent out, and all units ordered from a source are under way to it, owed by it, in transit, held or made.
pub fn nodes_balance()
    ensures new { (initial claims : ℕ) (links : List Link) → IsBalanced 0 0 (new_holding initial (legs_of links) claims) }
    ensures begun { (h : Holding) (made out customers : ℕ) → IsBalanced made out h → IsBalanced made out (begun h customers) }
    ensures claimed { (h : Holding) (made out slot units : ℕ) → IsBalanced made out h → IsBalanced made out (claimed h slot units) }
    ensures placed { (h : Holding) (made out order : ℕ) → IsBalanced made out h → IsBalanced made out (placed h order) }
    ensures received { (h : Holding) (made out source shipped : ℕ) (paused : Bool) → source < length h.legs → shipped ≤ (slice_index_or h.legs source no_leg).lacking
        → IsBalanced made out h → IsBalanced made out (received h source shipped paused) }
    ensures finished { (h : Holding) (made out : ℕ) → IsBalanced made out h → IsBalanced (made + (finished h).made) out (finished h) }
    ensures served { (h : Holding) (made out : ℕ) (paused : Bool) → IsBalanced made out h → IsBalanced made (out + sent_out h (served h paused)) (served h paused) }
{}
