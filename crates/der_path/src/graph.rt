//! The valid_policy_graph of RFC 9618 section 5 (RFC 5280 sections 6.1.2 (a), 6.1.3 (d) and (e),
//! 6.1.4 (b) and 6.1.5 (g)), without qualifiers: at most one node a policy and a depth.

ghost use Rattle.std.specs.Prelude.{◌≡◌, filter, IfOk};
ghost use Rattle.der_path.specs.Graphs.{add_edges, add_issuers, add_nodes, add_once, authority, common, edges_of, edges_to_issuers, expected_alone, expected_mapped, expecting, first_any, is_expected, is_issuer, is_new, parents, parents_at, roots_at, targets, user_constrained, without_issuers, without_mapped};
ghost use Rattle.der_path.specs.Policies.{is_any};

use crate::policy::{Mapping, Policy, has_any, has_policy};
use std::alloc::{AllocError, Global};

/// A policy in the expected_policy_set of a node of the last depth.
#[derive(Clone, Copy)]
pub struct Expected<'a> {
    pub node: Policy<'a>,
    pub policy: Policy<'a>,
}

/// A node, by its depth and its valid_policy, and the valid_policy of one of its parents.
#[derive(Clone, Copy)]
pub struct Edge<'a> {
    pub depth: usize,
    pub parent: Policy<'a>,
    pub child: Policy<'a>,
}

/// The nodes of the last depth, their expected_policy_sets, and the parents of all nodes.
///
/// The graph is NULL if the last depth has no nodes. Nodes above it that have no children are
/// left, since no step before 6.1.5 (g) reads them.
#[derive(Drop)]
pub struct Graph<'a> {
    pub nodes: Vec<Policy<'a>>,
    pub expected: Vec<Expected<'a>>,
    pub edges: Vec<Edge<'a>>,
}

/// Returns the nodes whose expected_policy_set has a policy.
fn expecting<'a>(
    alloc: Global,
    expected: &[Expected<'a>],
    policy: Policy<'a>,
) -> Result<Vec<Policy<'a>>, AllocError>
    ensures { IfOk result (λ found. found.items ≡ expecting policy.entry expected.now) }
{
    expected
        .iter()
        .filter(|e| e.policy.is(policy))
        .map(|e| e.node)
        .collect(alloc)
}

/// Returns the parents of a new node: those that expect its policy, or anyPolicy.
fn parents<'a>(
    alloc: Global,
    nodes: &[Policy<'a>],
    expected: &[Expected<'a>],
    policy: Policy<'a>,
) -> Result<Vec<Policy<'a>>, AllocError>
    ensures { IfOk result (λ found. found.items ≡ parents nodes.now expected.now policy.entry) }
{
    let found = expecting(alloc, expected, policy)?;
    if found.is_empty() {
        nodes_of_any(alloc, nodes)
    } else {
        Ok(found)
    }
}

/// Returns the nodes of anyPolicy.
fn nodes_of_any<'a>(alloc: Global, nodes: &[Policy<'a>]) -> Result<Vec<Policy<'a>>, AllocError>
    ensures { IfOk result (λ found. found.items ≡ filter is_any nodes.now) }
{
    nodes
        .iter()
        .copied()
        .filter(|node| node.is_any())
        .collect(alloc)
}

/// Returns whether a policy is to become a node: it has a parent, and is not among the new nodes.
fn is_new<'a>(
    nodes: &[Policy<'a>],
    expected: &[Expected<'a>],
    new_nodes: &[Policy<'a>],
    may_be_any: bool,
    policy: Policy<'a>,
) -> bool
    ensures { result ≡ is_new nodes.now expected.now may_be_any new_nodes.now policy.entry }
{
    (may_be_any || !policy.is_any())
        && !has_policy(new_nodes, policy)
        && (is_expected(expected, policy) || has_any(nodes))
}

/// Returns whether a policy is in an expected_policy_set.
fn is_expected<'a>(expected: &[Expected<'a>], policy: Policy<'a>) -> bool
    ensures { result ≡ is_expected policy.entry expected.now }
{
    expected.iter().any(|e| e.policy.is(policy))
}

/// Adds the policies that are to become nodes.
fn add_nodes<'a>(
    nodes: &[Policy<'a>],
    expected: &[Expected<'a>],
    new_nodes: Vec<Policy<'a>>,
    may_be_any: bool,
    policies: &[Policy<'a>],
) -> Result<Vec<Policy<'a>>, AllocError>
    ensures { IfOk result (λ found. found.items ≡ add_nodes nodes.now expected.now may_be_any new_nodes.entry.items policies.now) }
{
    let mut found = new_nodes;
    let mut left = policies;
    'each: while let [policy, others @ ..] = left {
        if is_new(nodes, expected, &found, may_be_any, *policy) {
            found.push(*policy)?;
        }
        left = others;
    }
    Ok(found)
}

/// Returns the policies of all expected_policy_sets.
fn targets<'a>(alloc: Global, expected: &[Expected<'a>]) -> Result<Vec<Policy<'a>>, AllocError>
    ensures { IfOk result (λ found. found.items ≡ targets expected.now) }
{
    expected.iter().map(|e| e.policy).collect(alloc)
}

/// Returns the edges from the parents of a new node.
fn edges_of<'a>(
    alloc: Global,
    nodes: &[Policy<'a>],
    expected: &[Expected<'a>],
    depth: usize,
    child: Policy<'a>,
) -> Result<Vec<Edge<'a>>, AllocError>
    ensures { IfOk result (λ found. found.items ≡ edges_of nodes.now expected.now depth child.entry) }
{
    let found = parents(alloc, nodes, expected, child)?;
    found
        .iter()
        .map(|parent| Edge {
            depth,
            parent: *parent,
            child,
        })
        .collect(alloc)
}

/// Adds the edges of the new nodes.
fn add_edges<'a>(
    alloc: Global,
    nodes: &[Policy<'a>],
    expected: &[Expected<'a>],
    depth: usize,
    edges: Vec<Edge<'a>>,
    new_nodes: &[Policy<'a>],
) -> Result<Vec<Edge<'a>>, AllocError>
    ensures { IfOk result (λ found. found.items ≡ add_edges nodes.now expected.now depth edges.entry.items new_nodes.now) }
{
    let mut found = edges;
    let mut left = new_nodes;
    'each: while let [node, others @ ..] = left {
        let more = edges_of(alloc, nodes, expected, depth, *node)?;
        found.extend_from_slice(&more)?;
        left = others;
    }
    Ok(found)
}

/// Returns the expected_policy_sets of new nodes: each expects its own policy.
fn expected_alone<'a>(alloc: Global, nodes: &[Policy<'a>]) -> Result<Vec<Expected<'a>>, AllocError>
    ensures { IfOk result (λ found. found.items ≡ expected_alone nodes.now) }
{
    nodes
        .iter()
        .map(|node| Expected {
            node: *node,
            policy: *node,
        })
        .collect(alloc)
}

/// Returns whether a policy is the issuerDomainPolicy of a mapping.
fn is_issuer(mappings: &[Mapping<'_>], policy: Policy<'_>) -> bool
    ensures { result ≡ is_issuer mappings.now policy.entry }
{
    mappings.iter().any(|mapping| mapping.issuer.is(policy))
}

/// Returns the node of anyPolicy.
fn first_any<'a>(nodes: &[Policy<'a>]) -> Option<Policy<'a>>
    ensures { result ≡ first_any nodes.now }
{
    let mut left = nodes;
    'each: while let [node, others @ ..] = left {
        if node.is_any() {
            return Some(*node);
        }
        left = others;
    }
    None
}

/// Adds the mapped policies that are no nodes.
fn add_issuers<'a>(
    nodes: Vec<Policy<'a>>,
    mappings: &[Mapping<'a>],
) -> Result<Vec<Policy<'a>>, AllocError>
    ensures { IfOk result (λ found. found.items ≡ add_issuers nodes.entry.items mappings.now) }
{
    let mut found = nodes;
    let mut left = mappings;
    'each: while let [mapping, others @ ..] = left {
        if !has_policy(&found, mapping.issuer) {
            found.push(mapping.issuer)?;
        }
        left = others;
    }
    Ok(found)
}

/// Returns the edges from anyPolicy to the mapped policies that are no nodes.
fn edges_to_issuers<'a>(
    alloc: Global,
    nodes: &[Policy<'a>],
    mappings: &[Mapping<'a>],
    depth: usize,
    any: Policy<'a>,
) -> Result<Vec<Edge<'a>>, AllocError>
    ensures { IfOk result (λ found. found.items ≡ edges_to_issuers nodes.now mappings.now depth any.entry) }
{
    mappings
        .iter()
        .filter(|mapping| !has_policy(nodes, mapping.issuer))
        .map(|mapping| Edge {
            depth,
            parent: any,
            child: mapping.issuer,
        })
        .collect(alloc)
}

/// Returns the expected_policy_sets without those of mapped policies.
fn without_mapped<'a>(
    alloc: Global,
    expected: &[Expected<'a>],
    mappings: &[Mapping<'a>],
) -> Result<Vec<Expected<'a>>, AllocError>
    ensures { IfOk result (λ found. found.items ≡ without_mapped expected.now mappings.now) }
{
    expected
        .iter()
        .copied()
        .filter(|e| !is_issuer(mappings, e.node))
        .collect(alloc)
}

/// Returns the expected_policy_sets of mapped nodes.
fn expected_mapped<'a>(
    alloc: Global,
    nodes: &[Policy<'a>],
    mappings: &[Mapping<'a>],
) -> Result<Vec<Expected<'a>>, AllocError>
    ensures { IfOk result (λ found. found.items ≡ expected_mapped nodes.now mappings.now) }
{
    mappings
        .iter()
        .filter(|mapping| has_policy(nodes, mapping.issuer))
        .map(|mapping| Expected {
            node: mapping.issuer,
            policy: mapping.subject,
        })
        .collect(alloc)
}

/// Returns the nodes that are not mapped.
fn without_issuers<'a>(
    alloc: Global,
    nodes: &[Policy<'a>],
    mappings: &[Mapping<'a>],
) -> Result<Vec<Policy<'a>>, AllocError>
    ensures { IfOk result (λ found. found.items ≡ without_issuers nodes.now mappings.now) }
{
    nodes
        .iter()
        .copied()
        .filter(|node| !is_issuer(mappings, *node))
        .collect(alloc)
}

/// Returns the nodes of a depth whose parent is anyPolicy, of those that are left.
fn roots_at<'a>(
    alloc: Global,
    edges: &[Edge<'a>],
    depth: usize,
    alive: &[Policy<'a>],
) -> Result<Vec<Policy<'a>>, AllocError>
    ensures { IfOk result (λ found. found.items ≡ roots_at edges.now depth alive.now) }
{
    edges
        .iter()
        .filter(|e| e.depth == depth
            && has_policy(alive, e.child)
            && e.parent.is_any()
            && !e.child.is_any())
        .map(|e| e.child)
        .collect(alloc)
}

/// Returns the parents of the nodes of a depth that are left.
fn parents_at<'a>(
    alloc: Global,
    edges: &[Edge<'a>],
    depth: usize,
    alive: &[Policy<'a>],
) -> Result<Vec<Policy<'a>>, AllocError>
    ensures { IfOk result (λ found. found.items ≡ parents_at edges.now depth alive.now) }
{
    edges
        .iter()
        .filter(|e| e.depth == depth && has_policy(alive, e.child))
        .map(|e| e.parent)
        .collect(alloc)
}

/// Adds the policies that are not yet there.
fn add_once<'a>(
    known: Vec<Policy<'a>>,
    policies: &[Policy<'a>],
) -> Result<Vec<Policy<'a>>, AllocError>
    ensures { IfOk result (λ found. found.items ≡ add_once known.entry.items policies.now) }
{
    let mut found = known;
    let mut left = policies;
    'each: while let [policy, others @ ..] = left {
        if !has_policy(&found, *policy) {
            found.push(*policy)?;
        }
        left = others;
    }
    Ok(found)
}

/// Adds the policies of nodes whose parent is anyPolicy, from the last depth upwards.
#[tactic(auto, using(crate::proofs::Authority::authority_step))]
fn authority<'a>(
    alloc: Global,
    edges: &[Edge<'a>],
    depth: usize,
    nodes: Vec<Policy<'a>>,
    known: Vec<Policy<'a>>,
) -> Result<Vec<Policy<'a>>, AllocError>
    ensures { IfOk result (λ found. found.items ≡ authority depth edges.now nodes.entry.items known.entry.items) }
{
    let mut alive = nodes;
    let mut found = known;
    let mut left = depth;
    'each: while left > 0 {
        let roots = roots_at(alloc, edges, left, &alive)?;
        found = add_once(found, &roots)?;
        alive = parents_at(alloc, edges, left, &alive)?;
        left -= 1;
    }
    Ok(found)
}

/// Returns user_constrained_policy_set (6.1.5 (g)).
pub(crate) fn user_constrained<'a>(
    alloc: Global,
    found: Vec<Policy<'a>>,
    wanted: &[Policy<'a>],
) -> Result<Vec<Policy<'a>>, AllocError>
    ensures { IfOk result (λ policies. policies.items ≡ user_constrained found.entry.items wanted.now) }
{
    if has_any(wanted) {
        Ok(found)
    } else if has_any(&found) {
        wanted.iter().copied().collect(alloc)
    } else {
        common(alloc, &found, wanted)
    }
}

/// Returns the policies that are among others.
fn common<'a>(
    alloc: Global,
    found: &[Policy<'a>],
    wanted: &[Policy<'a>],
) -> Result<Vec<Policy<'a>>, AllocError>
    ensures { IfOk result (λ policies. policies.items ≡ common found.now wanted.now) }
{
    found
        .iter()
        .copied()
        .filter(|policy| has_policy(wanted, *policy))
        .collect(alloc)
}

impl<'a> Graph<'a> {
    ghost use Rattle.std.specs.Prelude.{◌≡◌, IfOk};
    ghost use Rattle.der_path.specs.Graphs.{after_nodes, authority_of, first_graph, is_null, new_nodes, null_graph, process, process_mappings, remapped, seen_graph, with_issuers, without_graph};

    /// Returns the graph of one node of depth 0 (6.1.2 (a)): anyPolicy, which expects anyPolicy.
    pub(crate) fn first(alloc: Global, any: Policy<'a>) -> Result<Graph<'a>, AllocError>
        ensures { IfOk result (λ g. seen_graph g ≡ first_graph any.entry) }
    {
        let mut nodes = Vec::new(alloc);
        nodes.push(any)?;
        let mut expected = Vec::new(alloc);
        expected.push(Expected {
            node: any,
            policy: any,
        })?;
        Ok(Graph {
            nodes,
            expected,
            edges: Vec::new(alloc),
        })
    }

    /// Returns the graph that is NULL (6.1.3 (e)).
    pub(crate) fn null(alloc: Global) -> Graph<'a>
        ensures { seen_graph result ≡ null_graph }
    {
        Graph {
            nodes: Vec::new(alloc),
            expected: Vec::new(alloc),
            edges: Vec::new(alloc),
        }
    }

    /// Returns whether the graph is NULL.
    pub(crate) fn is_null(&self) -> bool
        ensures { result ≡ is_null (seen_graph self.now) }
    {
        self.nodes.is_empty()
    }

    /// Returns the new nodes of 6.1.3 (d)(1) and, if anyPolicy may be processed, (d)(2).
    fn new_nodes(
        &self,
        alloc: Global,
        policies: &[Policy<'a>],
        may_be_any: bool,
    ) -> Result<Vec<Policy<'a>>, AllocError>
        ensures { IfOk result (λ found. found.items ≡ new_nodes (seen_graph self.now) policies.now may_be_any) }
    {
        let named = add_nodes(
            &self.nodes,
            &self.expected,
            Vec::new(alloc),
            false,
            policies,
        )?;
        if may_be_any && has_any(policies) {
            let targets = targets(alloc, &self.expected)?;
            add_nodes(&self.nodes, &self.expected, named, true, &targets)
        } else {
            Ok(named)
        }
    }

    /// Processes the policies of a certificate (6.1.3 (d)).
    pub(crate) fn process(
        self,
        alloc: Global,
        policies: &[Policy<'a>],
        may_be_any: bool,
        depth: usize,
    ) -> Result<Graph<'a>, AllocError>
        ensures { IfOk result (λ g. seen_graph g ≡ process policies.now may_be_any depth (seen_graph self.entry)) }
    {
        let nodes = self.new_nodes(alloc, policies, may_be_any)?;
        let new_expected = expected_alone(alloc, &nodes)?;
        let Graph {
            nodes: above,
            expected,
            edges,
        } = self;
        let edges = add_edges(alloc, &above, &expected, depth, edges, &nodes)?;
        Ok(Graph {
            nodes,
            expected: new_expected,
            edges,
        })
    }

    /// Adds the mapped policies below anyPolicy (6.1.4 (b)(1)).
    fn with_issuers(
        self,
        alloc: Global,
        mappings: &[Mapping<'a>],
        depth: usize,
    ) -> Result<Graph<'a>, AllocError>
        ensures { IfOk result (λ g. seen_graph g ≡ with_issuers mappings.now depth (seen_graph self.entry)) }
    {
        let Some(any) = first_any(&self.nodes) else {
            return Ok(self);
        };
        let more = edges_to_issuers(alloc, &self.nodes, mappings, depth, any)?;
        let Graph {
            nodes,
            expected,
            edges,
        } = self;
        let mut edges = edges;
        edges.extend_from_slice(&more)?;
        let nodes = add_issuers(nodes, mappings)?;
        Ok(Graph {
            nodes,
            expected,
            edges,
        })
    }

    /// Replaces the expected_policy_sets of the mapped nodes (6.1.4 (b)(1)).
    fn remapped(self, alloc: Global, mappings: &[Mapping<'a>]) -> Result<Graph<'a>, AllocError>
        ensures { IfOk result (λ g. seen_graph g ≡ remapped mappings.now (seen_graph self.entry)) }
    {
        let mut kept = without_mapped(alloc, &self.expected, mappings)?;
        let mapped = expected_mapped(alloc, &self.nodes, mappings)?;
        kept.extend_from_slice(&mapped)?;
        let Graph {
            nodes,
            expected: _expected,
            edges,
        } = self;
        Ok(Graph {
            nodes,
            expected: kept,
            edges,
        })
    }

    /// Processes the mappings of a certificate (6.1.4 (b)): the second argument says whether
    /// policy_mapping is greater than 0.
    pub(crate) fn process_mappings(
        self,
        alloc: Global,
        is_mapping: bool,
        mappings: &[Mapping<'a>],
        depth: usize,
    ) -> Result<Graph<'a>, AllocError>
        ensures { IfOk result (λ g. seen_graph g ≡ process_mappings is_mapping mappings.now depth (seen_graph self.entry)) }
    {
        if is_mapping {
            self.with_issuers(alloc, mappings, depth)?
                .remapped(alloc, mappings)
        } else {
            self.without(alloc, mappings)
        }
    }

    /// Deletes the mapped nodes (6.1.4 (b)(2)).
    fn without(self, alloc: Global, mappings: &[Mapping<'a>]) -> Result<Graph<'a>, AllocError>
        ensures { IfOk result (λ g. seen_graph g ≡ without_graph mappings.now (seen_graph self.entry)) }
    {
        let left = without_issuers(alloc, &self.nodes, mappings)?;
        let kept = without_mapped(alloc, &self.expected, mappings)?;
        let Graph {
            nodes: _nodes,
            expected: _expected,
            edges,
        } = self;
        Ok(Graph {
            nodes: left,
            expected: kept,
            edges,
        })
    }

    /// Returns authority_constrained_policy_set (6.1.5 (g)).
    pub(crate) fn authority(
        self,
        alloc: Global,
        depth: usize,
    ) -> Result<Vec<Policy<'a>>, AllocError>
        ensures { IfOk result (λ found. found.items ≡ authority_of depth (seen_graph self.entry)) }
    {
        let Graph {
            nodes,
            expected: _expected,
            edges,
        } = self;
        let known = nodes_of_any(alloc, &nodes)?;
        authority(alloc, &edges, depth, nodes, known)
    }
}
