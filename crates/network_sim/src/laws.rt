// Laws of a network's totals.
ghost use Rattle.std.specs.Prelude.{◌≡◌, ℕ, ◌+◌, ◌-◌, ◌<◌, All, length};
ghost use Rattle.network_model.specs.declared.network.Link.{Link};
ghost use Rattle.node_state.specs.Holdings.{total};
ghost use Rattle.node_state.specs.Totals.{Setting, spec_at, before, stock, made, shipped, received, IsShaped};
ghost use Rattle.node_state.specs.Table.{orders_of_run, served_of_run};

/// After each period the initial stock of a node and all units made are in stock or were served, and all units ordered
/// from a source are under way to it, owed by it, in transit, on the dock, raw or made into finished units.
#[tactic(auto, using(crate::proofs::Balanced::node_balances, crate::proofs::Balanced::links_balance))]
pub fn totals_balance()
    ensures nodes { (s : Setting) (i t : ℕ) → IsShaped s.network.nodes → i < length s.network.nodes →
        (spec_at s i).initial + made s (orders_of_run s) (served_of_run s) i t ≡ stock s (orders_of_run s) (served_of_run s) i t + total (served_of_run s i t) }
    ensures links { (s : Setting) (i t : ℕ) → IsShaped s.network.nodes → i < length s.network.nodes →
        All (λ (l : Link). orders_of_run s i t ≡ (orders_of_run s i t - orders_of_run s i (before l.order_lead t))
        + (orders_of_run s i (before l.order_lead t) - shipped s (orders_of_run s) (served_of_run s) i l t)
        + (shipped s (orders_of_run s) (served_of_run s) i l t - shipped s (orders_of_run s) (served_of_run s) i l (before l.lead t))
        + (shipped s (orders_of_run s) (served_of_run s) i l (before l.lead t) - received s (orders_of_run s) (served_of_run s) i l t)
        + (received s (orders_of_run s) (served_of_run s) i l t - made s (orders_of_run s) (served_of_run s) i t)
        + made s (orders_of_run s) (served_of_run s) i t) (spec_at s i).sources }
{}
