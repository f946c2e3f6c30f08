//! What holds of the link that a flow takes, and of links that change.

ghost use Rattle.std.specs.Prelude.{ℕ, ◌≡◌, Bool, false, true, Some};
ghost use Rattle.link.specs.declared.action.Transition.{Transition};
ghost use Rattle.link.specs.declared.period.Period.{Period};
ghost use Rattle.routes.specs.Routes.{with_link, chosen_link};
ghost use Rattle.node_links.specs.NodeLinks.{Link, Network, facts_of, link_in, with_state, IsOrderedAlike, after_failure, opened, recovered, stepped, carries_traffic};

/// The law that the link of a flow carries traffic. The call does nothing.
#[tactic(auto, using(crate::proofs::Chosen::chosen_carrying))]
pub fn the_link_of_a_flow_carries_traffic()
    ensures { (n : Network) (destination selection link : ℕ)
        → chosen_link (facts_of n) destination selection ≡ Some link
        → carries_traffic (link_in n.links link) ≡ true }
{}

/// The law that a link which carries no traffic may change in any way: with that link taken out, the routing facts are
/// what they were. The call does nothing.
#[tactic(auto, using(crate::proofs::Serving::serving_without))]
pub fn a_link_without_traffic_as_before()
    ensures { (n : Network) (link : ℕ) (state : Link)
        → carries_traffic (link_in n.links link) ≡ false
        → with_link link false (facts_of (with_state n link state)) ≡ facts_of n }
{}

/// The law that a link which carries traffic as before changes no route. The call does nothing.
#[tactic(auto, using(crate::proofs::Serving::facts_alike))]
pub fn a_link_that_stays_changes_no_route()
    ensures { (n : Network) (link : ℕ) (state : Link)
        → carries_traffic state ≡ carries_traffic (link_in n.links link)
        → facts_of (with_state n link state) ≡ facts_of n }
{}

/// The law that what the operator ordered of a link stays as it fails, opens, takes a step of its alignment, or its
/// peer's processor recovers. The call does nothing.
pub fn orders_stay()
    ensures failed { (l : Link) → IsOrderedAlike l (after_failure l) }
    ensures opened { (tells_out : Bool) (period : Period) (l : Link) → IsOrderedAlike l (opened tells_out period l) }
    ensures stepped { (step : Transition) (l : Link) → IsOrderedAlike l (stepped step l) }
    ensures recovered { (l : Link) → IsOrderedAlike l (recovered l) }
{}
