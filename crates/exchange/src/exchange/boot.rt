//! The exchange before its first event.

ghost use Rattle.std.specs.Prelude.{◌≡◌, ◌≤◌, ◌+◌, [], length, replicate, IfOk};
ghost use Rattle.changeover.specs.Changeover.{no_changeover};
ghost use Rattle.timers.specs.Timers.{none_running};
ghost use Rattle.changeback.specs.Codes.{no_codes};
ghost use Rattle.route_management.specs.Told.{first_told, shape_of};
ghost use Rattle.flow_hold.specs.Holds.{no_holds};
ghost use Rattle.sccp_relay.specs.Statuses.{first_titles};
ghost use Rattle.link.specs.Counts.{kept_first};
ghost use Rattle.route_management.specs.Updates.{first_updates};
ghost use Rattle.exchange.specs.Calls.{StandsFor, kept_of};
ghost use Rattle.exchange_rules.specs.First.{first_state, counts_in};
ghost use Rattle.exchange_rules.specs.Reroutings.{first_reroutings};
ghost use Rattle.exchange_rules.specs.Routing.{first_network_of};

use super::Exchange;
use crate::memory::NoMemory;
use crate::reroutings::{DueFlows, FlowSets};
use crate::unequipped::Unequipped;
use cell_pool::CellPool;
use changeback::Changeback;
use changeover::Changeover;
use circular_buffer::HeapCircularBuffer;
use flow_hold::Holds;
use link::Sequence;
use node_links::NodeLinks;
use route_management::{PendingUpdates, Told};
use sccp_relay::Titles;
use settings::{Limits, Settings};
use std::alloc::{AllocError, Global};
use timers::{NodeCounts, Timers};

impl Exchange {
    /// An exchange with these settings, whose links are all down and want Open.
    ///
    /// Allocates all the memory that the exchange will ever use, except for translation rows added later and for the
    /// answers of `run`. Returns NoMemory only if an allocation was refused.
    pub fn boot(alloc: Global, settings: Settings) -> Result<Exchange, NoMemory>
        // What is kept is that of the first state,
        ensures exact { IfOk result (λ exchange. exchange ≡ kept_of (first_state settings)) }
        // so the exchange stands for it.
        ensures first { IfOk result (λ exchange. StandsFor exchange (first_state settings)) }
    {
        prove!(settings.window() <= Limits::WINDOW);
        prove!(settings.link_count() <= Limits::LINKS);
        let of_links = LinkParts::first(alloc, &settings)?;
        let of_network = NetworkParts::first(alloc, &settings)?;
        let notices = HeapCircularBuffer::with_capacity(alloc, Limits::NOTICES)?;
        Ok(Exchange {
            settings,
            lanes: of_links.lanes,
            sequences: of_links.sequences,
            links: of_links.links,
            told: of_network.told,
            changeovers: of_links.changeovers,
            changeback: of_network.changeback,
            holds: of_network.holds,
            titles: of_network.titles,
            unequipped: of_network.unequipped,
            timers: of_network.timers,
            notices,
            notice_count: 0,
            times_lost: 0,
            messages_lost: 0,
            times_broken: 0,
            times_late: 0,
            flow_sets: of_network.flow_sets,
            times_rerouted: 0,
            release_due: false,
            pending: of_network.pending,
            flows_due: DueFlows::All,
        })
    }
}

/// What an exchange keeps of each link.
#[derive(Drop)]
struct LinkParts {
    lanes: CellPool,
    sequences: Vec<Sequence>,
    links: NodeLinks,
    changeovers: Changeover,
}

impl LinkParts {
    /// All links of these settings are down, and no message is there.
    fn first(alloc: Global, settings: &Settings) -> Result<LinkParts, AllocError>
        ensures lanes { IfOk result (λ parts. parts.lanes ≡ record {
          lists = replicate (length settings.now.links + 1) [];
          pool = settings.now.pool;
        }) }
        ensures sequences { IfOk result (λ parts.
            parts.sequences.items ≡ replicate (length settings.now.links) kept_first) }
        ensures links { IfOk result (λ parts. parts.links ≡ first_network_of settings.now) }
        ensures changeovers { IfOk result (λ parts.
            parts.changeovers ≡ replicate (length settings.now.links) no_changeover) }
    {
        let count = settings.link_count();
        Ok(LinkParts {
            lanes: CellPool::new(alloc, count + 1, settings.pool())?,
            sequences: first_sequences(alloc, count)?,
            links: node_links(alloc, settings)?,
            changeovers: Changeover::new(alloc, count)?,
        })
    }
}

/// What an exchange keeps of sets and destinations, its translation rows and its timers.
#[derive(Drop)]
struct NetworkParts {
    told: Told,
    changeback: Changeback,
    holds: Holds,
    titles: Titles,
    unequipped: Unequipped,
    timers: Timers,
    // nothing is owed yet, which the first event finds out; so it does with the flows
    pending: PendingUpdates,
    flow_sets: FlowSets,
}

impl NetworkParts {
    /// Nothing was told, nothing is held, no timer runs, and no flow went by any set.
    fn first(alloc: Global, settings: &Settings) -> Result<NetworkParts, AllocError>
        ensures told { IfOk result (λ parts.
            parts.told ≡ first_told settings.now.sets settings.now.destinations) }
        ensures shape { IfOk result (λ parts. shape_of parts.told
            ≡ replicate (length settings.now.sets) (length settings.now.destinations)) }
        ensures changeback { IfOk result (λ parts. parts.changeback ≡ no_codes (length settings.now.sets)) }
        ensures holds { IfOk result (λ parts. parts.holds ≡ no_holds (length settings.now.links)
            (length settings.now.sets) (length settings.now.destinations)) }
        ensures titles { IfOk result (λ parts. parts.titles ≡ first_titles settings.now.titles) }
        ensures unequipped { IfOk result (λ parts.
            parts.unequipped ≡ replicate (length settings.now.destinations) 0) }
        ensures timers { IfOk result (λ parts. parts.timers ≡ none_running (counts_in settings.now)) }
        ensures pending { IfOk result (λ parts.
            parts.pending ≡ first_updates (length settings.now.destinations)) }
        ensures flow_sets { IfOk result (λ parts.
            parts.flow_sets ≡ (first_reroutings settings.now).last_sets) }
    {
        Ok(NetworkParts {
            told: nothing_told(alloc, settings)?,
            changeback: no_changebacks(alloc, settings)?,
            holds: no_holds(alloc, settings)?,
            titles: first_titles(alloc, settings)?,
            unequipped: Unequipped::none(alloc, settings.destinations().len())?,
            timers: Timers::new(alloc, counts_in(settings))?,
            pending: PendingUpdates::new(alloc, settings.destinations().len())?,
            flow_sets: FlowSets::none(alloc, settings.destinations().len())?,
        })
    }
}

/// The numbers of this many links, each at its first epoch.
fn first_sequences(alloc: Global, count: usize) -> Result<Vec<Sequence>, AllocError>
    ensures { IfOk result (λ sequences. sequences.items ≡ replicate count kept_first) }
{
    let mut sequences = Vec::with_capacity(alloc, count)?;
    for index in 0..count {
        sequences.push(Sequence::start())?;
    }
    Ok(sequences)
}

/// The links of these settings, all of them down.
fn node_links(alloc: Global, settings: &Settings) -> Result<NodeLinks, AllocError>
    ensures { IfOk result (λ links. links ≡ first_network_of settings.now) }
{
    let sets = settings.sets().len();
    NodeLinks::new(alloc, sets, settings.links(), settings.destinations())
}

/// Each adjacent point assumes that each destination of these settings is allowed.
fn nothing_told(alloc: Global, settings: &Settings) -> Result<Told, AllocError>
    ensures told { IfOk result (λ told. told ≡ first_told settings.now.sets settings.now.destinations) }
    ensures shape { IfOk result (λ told. shape_of told
        ≡ replicate (length settings.now.sets) (length settings.now.destinations)) }
{
    let sets = settings.sets();
    Told::new(alloc, sets, settings.destinations())
}

/// No code that waits for its answer, for the sets of these settings.
fn no_changebacks(alloc: Global, settings: &Settings) -> Result<Changeback, AllocError>
    ensures { IfOk result (λ changeback. changeback ≡ no_codes (length settings.now.sets)) }
{
    let sets = settings.sets().len();
    Changeback::new(alloc, sets)
}

/// No holds, for the links, sets and destinations of these settings.
fn no_holds(alloc: Global, settings: &Settings) -> Result<Holds, AllocError>
    ensures { IfOk result (λ holds. holds ≡ no_holds (length settings.now.links) (length settings.now.sets)
        (length settings.now.destinations)) }
{
    let sets = settings.sets().len();
    let destinations = settings.destinations().len();
    Holds::new(alloc, settings.links().len(), sets, destinations)
}

/// The translation rows of these settings, in their order. All subsystems are allowed.
fn first_titles(alloc: Global, settings: &Settings) -> Result<Titles, AllocError>
    ensures { IfOk result (λ titles. titles ≡ first_titles settings.now.titles) }
{
    Titles::of_rows(alloc, settings.titles())
}

/// How many links, sets and destinations the settings have.
fn counts_in(settings: &Settings) -> NodeCounts
    ensures { result ≡ counts_in settings.now }
{
    NodeCounts {
        links: settings.links().len() as u8,
        sets: settings.sets().len() as u16,
        destinations: settings.destinations().len() as u16,
    }
}
