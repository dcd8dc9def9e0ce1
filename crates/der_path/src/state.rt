//! The state of RFC 5280 section 6.1.2, and how a certificate changes it.

ghost use Rattle.std.specs.Prelude.{◌≡◌, ◌+◌, IfOk, length, nat_lt};
ghost use Rattle.der_path.specs.Graphs.{seen_graph};
ghost use Rattle.der_path.specs.Paths.{first_state, last_answer, last_fault, mapped_graph, maps_any, next_state, one_is_of_any, policies_fault, prepare_fault, prepared, processed_graph, seen_state, wrapped_up, Continues, Decides};

use crate::basic::{basic_fault, is_self_issued};
use crate::counters::Counters;
use crate::facts::{Facts, NameFacts};
use crate::graph::{Graph, user_constrained};
use crate::names::Part;
use crate::path::Inputs;
use crate::policy::{Mapping, Policy};
use crate::step::Step;
use std::alloc::{AllocError, Global};

/// The state, but for the names: permitted_subtrees and excluded_subtrees are those of the
/// certificates before and the initial ones, and the working issuer name is the subject of the
/// last of them. The working key stands apart (`WorkingKey`).
#[derive(Drop)]
pub struct State<'a> {
    /// The numbers (d), (e), (f) and (k).
    pub counters: Counters,
    /// valid_policy_graph (a).
    pub graph: Graph<'a>,
}

/// Why a certificate is the last that is looked at.
#[derive(Clone, Copy)]
pub enum Stop {
    /// Memory ran out.
    Memory,
    /// This step refuses the certificate.
    At(Step),
}

/// Returns the state before the first of some certificates (6.1.2).
pub(crate) fn first_state<'a>(
    alloc: Global,
    any: Policy<'a>,
    count: usize,
    inputs: &Inputs<'_, 'a>,
) -> Result<State<'a>, AllocError>
    ensures { IfOk result (λ s. seen_state s ≡ first_state any.entry count inputs.now) }
{
    let graph = Graph::first(alloc, any)?;
    Ok(State {
        counters: Counters::first(
            count,
            inputs.explicit_policy,
            inputs.any_policy_inhibit,
            inputs.mapping_inhibit,
        ),
        graph,
    })
}

/// Returns the state after a certificate that is not the last (6.1.3 and 6.1.4).
pub(crate) fn next_state<'a>(
    alloc: Global,
    initial: &NameFacts<'a>,
    before: &[Facts<'a>],
    issuer: &[Part<'a>],
    facts: &Facts<'a>,
    moment: u64,
    state: State<'a>,
) -> Result<State<'a>, Stop>
    ensures { Continues (next_state initial.now before.now issuer.now facts.now moment (seen_state state.entry)) result }
{
    if let Some(step) = basic_fault(initial, before, issuer, facts, moment, false) {
        return Err(Stop::At(step));
    }
    let State { counters, graph } = state;
    let may_be_any = counters.inhibit_any_policy > 0 || is_self_issued(facts);
    match processed_graph(alloc, graph, facts, may_be_any, before.len() + 1) {
        Ok(graph) => prepared(alloc, facts, before.len() + 1, counters, graph),
        Err(_) => Err(Stop::Memory),
    }
}

/// Returns the state after 6.1.4, from the graph after 6.1.3.
fn prepared<'a>(
    alloc: Global,
    facts: &Facts<'a>,
    depth: usize,
    counters: Counters,
    graph: Graph<'a>,
) -> Result<State<'a>, Stop>
    ensures { Continues (prepared facts.now depth counters (seen_graph graph.entry)) result }
{
    if let Some(step) = policies_fault(counters.explicit_policy, &graph) {
        return Err(Stop::At(step));
    }
    if let Some(step) = prepare_fault(counters, facts) {
        return Err(Stop::At(step));
    }
    match mapped_graph(alloc, graph, facts, counters.policy_mapping > 0, depth) {
        Ok(graph) => Ok(State {
            counters: counters.after(is_self_issued(facts), &facts.policies, facts.uses),
            graph,
        }),
        Err(_) => Err(Stop::Memory),
    }
}

/// Returns user_constrained_policy_set after the last certificate (6.1.3 and 6.1.5).
pub(crate) fn last_answer<'a>(
    alloc: Global,
    initial: &NameFacts<'a>,
    before: &[Facts<'a>],
    issuer: &[Part<'a>],
    facts: &Facts<'a>,
    inputs: &Inputs<'_, 'a>,
    state: State<'a>,
) -> Result<Vec<Policy<'a>>, Stop>
    ensures { Decides (last_answer initial.now before.now issuer.now facts.now inputs.now (seen_state state.entry)) result }
{
    if let Some(step) = basic_fault(initial, before, issuer, facts, inputs.moment, true) {
        return Err(Stop::At(step));
    }
    let State { counters, graph } = state;
    let may_be_any = counters.inhibit_any_policy > 0;
    match processed_graph(alloc, graph, facts, may_be_any, before.len() + 1) {
        Ok(graph) => {
            wrapped_up(
                alloc,
                facts,
                before.len() + 1,
                counters,
                inputs.policies,
                graph,
            )
        }
        Err(_) => Err(Stop::Memory),
    }
}

/// Returns the result of 6.1.5, from the graph after 6.1.3.
fn wrapped_up<'a>(
    alloc: Global,
    facts: &Facts<'a>,
    depth: usize,
    counters: Counters,
    wanted: &[Policy<'a>],
    graph: Graph<'a>,
) -> Result<Vec<Policy<'a>>, Stop>
    ensures { Decides (wrapped_up facts.now depth counters wanted.now (seen_graph graph.entry)) result }
{
    if let Some(step) = policies_fault(counters.explicit_policy, &graph) {
        return Err(Stop::At(step));
    }
    if facts.has_unknown_critical {
        return Err(Stop::At(Step::UnknownExtensionAtEnd));
    }
    let Ok(found) = graph.authority(alloc, depth) else {
        return Err(Stop::Memory);
    };
    let Ok(policies) = user_constrained(alloc, found, wanted) else {
        return Err(Stop::Memory);
    };
    if counters.explicit_at_last(&facts.policies) == 0 && policies.is_empty() {
        return Err(Stop::At(Step::UserPolicies));
    }
    Ok(policies)
}

/// Returns the graph after the policies of a certificate (6.1.3 (d) and (e)).
fn processed_graph<'a>(
    alloc: Global,
    graph: Graph<'a>,
    facts: &Facts<'a>,
    may_be_any: bool,
    depth: usize,
) -> Result<Graph<'a>, AllocError>
    ensures { IfOk result (λ g. seen_graph g ≡ processed_graph facts.now.policies.policies may_be_any depth (seen_graph graph.entry)) }
{
    match &facts.policies.policies {
        Some(policies) => graph.process(alloc, policies, may_be_any, depth),
        None => Ok(Graph::null(alloc)),
    }
}

/// Returns whether 6.1.3 (f) refuses the certificate: a policy is required, and the graph is NULL.
fn policies_fault(explicit: usize, graph: &Graph<'_>) -> Option<Step>
    ensures { result ≡ policies_fault explicit (seen_graph graph.now) }
{
    if explicit == 0 && graph.is_null() {
        Some(Step::Policies)
    } else {
        None
    }
}

/// Returns the graph after the mappings of a certificate (6.1.4 (b)).
fn mapped_graph<'a>(
    alloc: Global,
    graph: Graph<'a>,
    facts: &Facts<'a>,
    is_mapping: bool,
    depth: usize,
) -> Result<Graph<'a>, AllocError>
    ensures { IfOk result (λ g. seen_graph g ≡ mapped_graph facts.now.policies.mappings is_mapping depth (seen_graph graph.entry)) }
{
    match &facts.policies.mappings {
        Some(mappings) => graph.process_mappings(alloc, is_mapping, mappings, depth),
        None => Ok(graph),
    }
}

/// Returns the first of the steps 6.1.4 (a), (k), (l), (n) and (o) that refuses a certificate.
fn prepare_fault(counters: Counters, facts: &Facts<'_>) -> Option<Step>
    ensures { result ≡ prepare_fault counters facts.now }
{
    if maps_any(facts) {
        Some(Step::AnyPolicyIsMapped)
    } else if !(facts.version == 2 && facts.uses.is_ca) {
        Some(Step::Ca)
    } else if !is_self_issued(facts) && counters.max_path_length == 0 {
        Some(Step::PathLength)
    } else if facts.uses.key_cert_sign == Some(false) {
        Some(Step::KeyUsage)
    } else if facts.has_unknown_critical {
        Some(Step::UnknownExtension)
    } else {
        None
    }
}

/// Returns whether anyPolicy is mapped, or a policy to anyPolicy (6.1.4 (a)).
fn maps_any(facts: &Facts<'_>) -> bool
    ensures { result ≡ maps_any facts.now.policies.mappings }
{
    match &facts.policies.mappings {
        Some(mappings) => one_is_of_any(mappings),
        None => false,
    }
}

/// Returns whether one of some mappings is of anyPolicy or to it.
fn one_is_of_any(mappings: &[Mapping<'_>]) -> bool
    ensures { result ≡ one_is_of_any mappings.now }
{
    mappings.iter().any(|mapping| mapping.issuer.is_any() || mapping.subject.is_any())
}
