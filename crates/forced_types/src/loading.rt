//! Parts are loaded: each node of a graph that a path of few enough features leads to gets a node.

ghost use Rattle.std.specs.Prelude.{◌≡◌, ℕ, ◌<◌, ◌∷◌, ◌++◌, [], length, true, Some, IfSome, IfOk, All};
ghost use Rattle.fs_model.specs.Claims.{exists_at, same, Has};
ghost use Rattle.type_hierarchy.specs.Table.{count_of};
ghost use Rattle.fs_graph.specs.Facts.{path_of};
ghost use Rattle.fs_graph.specs.GraphMap.{IsGraph, type_at, arcs_at};
ghost use Rattle.fs_closing.specs.NodeSteps.{IsGraphIn};
ghost use Rattle.forced_types.specs.Views.{ArePartsIn};
ghost use Rattle.forced_types.specs.declared.nodes.Image.{Image as ImageValue};
ghost use Rattle.forced_types.specs.Inner.Sound.{Forces, AreSound, KeepPaths, IsImage, IsImageAt, path_in, graph_at, place_at, size_of};
ghost use Rattle.forced_types.specs.Inner.Told.{spot_at};

use crate::given::Given;
use crate::nodes::{Image, Nodes};
use crate::putting::{copied, longer};
use fs_closing::NoMemory;
use fs_graph::{Feat, Graph, GraphArc, Node as GraphNode};
use std::alloc::Global;

/// The number of no node.
pub const NONE: u32 = u32::MAX;

/// The node that was made for a node of a graph.
pub fn spot(spots: &[u32], k: u32) -> u32
    ensures { result ≡ spot_at spots.now k }
{
    match spots.get(k as usize) {
        Some(n) => *n,
        None => NONE,
    }
}

// A node was made for a node of a graph.
fn set_spot(spots: &mut [u32], k: u32, n: u32) {
    if (k as usize) < spots.len() {
        spots[k as usize] = n;
    }
}

/// The graph of a part.
pub fn graph_of<'a>(given: Given<'a>, i: u32) -> &'a Graph
    requires within { ArePartsIn given.system.now given.parts.now }
    requires part { i < length given.parts.now }
    ensures value { result.now ≡ graph_at given.entry.parts.now i }
    ensures inside { IsGraphIn (count_of given.entry.system.now.types) (length given.entry.system.now.introducers) (graph_at given.entry.parts.now i) }
    ensures graph { IsGraph (graph_at given.entry.parts.now i) }
{
    let graph = given.parts[i as usize].graph;
    graph.laws();
    graph
}

// The place of a part.
fn place_of<'a>(given: Given<'a>, i: u32) -> &'a [Feat]
    requires within { ArePartsIn given.system.now given.parts.now }
    requires part { i < length given.parts.now }
    ensures value { path_of result.now ≡ place_at given.entry.parts.now i }
    ensures feats { All (λ f. f < length given.entry.system.now.introducers) (path_of result.now) }
{
    given.parts[i as usize].at
}

// Whether two images are the same.
fn is_same_image(a: Image, b: Image) -> bool
    ensures { result ≡ true → (a.part ≡ b.part) × (a.node ≡ b.node) }
{
    a.part == b.part && a.node == b.node
}

// The type of a graph's node.
fn image_type(given: Given<'_>, image: Image) -> u32
    requires within { ArePartsIn given.system.now given.parts.now }
    requires part { image.part < length given.parts.now }
    requires node { image.node < length (graph_at given.parts.now image.part).types }
    ensures value { result ≡ type_at (graph_at given.entry.parts.now image.part) image.node }
    ensures inside { result < count_of given.entry.system.now.types }
{
    graph_of(given, image.part).ty(GraphNode(image.node)).0
}

// An arc of a graph's node, `None` where there is none at the place.
fn image_arc(given: Given<'_>, image: Image, k: usize) -> Option<GraphArc>
    requires within { ArePartsIn given.system.now given.parts.now }
    requires part { image.part < length given.parts.now }
    requires node { image.node < length (graph_at given.parts.now image.part).types }
    ensures has { IfSome result (λ a. Has a (arcs_at (graph_at given.entry.parts.now image.part) image.node)) }
    ensures feat { IfSome result (λ a. a.feat.0 < length given.entry.system.now.introducers) }
    ensures graph { IsGraph (graph_at given.entry.parts.now image.part) }
{
    let arcs = graph_of(given, image.part).arcs(GraphNode(image.node));
    if k >= arcs.len() {
        return None;
    }
    Some(arcs[k])
}

impl Nodes {
    /// The node of a graph for which a node was made.
    pub fn image_at(&self, given: Given<'_>, n: u32) -> Option<Image>
        requires { AreSound given self.now }
        ensures { IfSome result (IsImageAt given.entry self.now n) }
    {
        if n >= self.size() {
            return None;
        }
        let image = self.image(n)?;
        graph_of(given, image.part);
        Some(image)
    }

    // Whether a node was made for that node of a graph.
    fn is_image(&self, given: Given<'_>, n: u32, image: Image) -> bool
        requires { AreSound given self.now }
        ensures inside { result ≡ true → n < size_of self.now }
        ensures image { result ≡ true → IsImage given.entry.parts.now (path_in self.now n) image }
    {
        match self.image_at(given, n) {
            Some(own) => is_same_image(own, image),
            None => false,
        }
    }

    // The end of a part's place, and a new node for the root of its graph, are to be merged.
    fn enter(&mut self, alloc: Global, given: Given<'_>, i: u32) -> Result<(), NoMemory>
        requires sound { AreSound given self.old }
        requires part { i < length given.parts.now }
        ensures { AreSound given.entry self.new }
    {
        let at = place_of(given, i);
        let Some(end) = self.reach(alloc, given, 0, at)? else {
            return Ok(());
        };
        let place = copied(alloc, at)?;
        let image = Image { part: i, node: 0 };
        let root = self.add_node(alloc, given, place, Some(image))?;
        self.add_pair(given, end, root)
    }

    // A node has the type of the graph's node.
    fn copy_type(&mut self, given: Given<'_>, n: u32) -> Result<(), NoMemory>
        requires { AreSound given self.old }
        ensures { AreSound given.entry self.new }
    {
        let Some(image) = self.image_at(given, n) else {
            return Ok(());
        };
        self.add_type(given, n, image_type(given, image))
    }

    // The node that was made for an arc's end: `hint`, if that was, else a new one.
    fn image_node(
        &mut self,
        alloc: Global,
        given: Given<'_>,
        n: u32,
        feat: Feat,
        end: Image,
        hint: u32,
    ) -> Result<u32, NoMemory>
        requires sound { AreSound given self.old }
        requires node { n < size_of self.old }
        requires there { Forces given (exists_at (path_in self.old n ++ feat.0 ∷ [])) }
        requires image { IsImage given.parts.now (path_in self.old n ++ feat.0 ∷ []) end }
        ensures sound { AreSound given.entry self.new }
        ensures keeps { KeepPaths self.old self.new }
        ensures inside { IfOk result (λ m. m < size_of self.new) }
        ensures image { IfOk result (λ m. IsImage given.entry.parts.now (path_in self.new m) end) }
    {
        if self.is_image(given, hint, end) {
            return Ok(hint);
        }
        let path = longer(alloc, self.path(n), feat)?;
        self.add_node(alloc, given, path, Some(end))
    }

    // A node has an arc. Where it has one of that feature, the ends of both are to be merged.
    fn link(&mut self, given: Given<'_>, n: u32, arc: GraphArc) -> Result<(), NoMemory>
        requires sound { AreSound given self.old }
        requires node { n < size_of self.old }
        requires to { arc.to.0 < size_of self.old }
        requires feat { arc.feat.0 < length given.system.now.introducers }
        requires forced { Forces given (same (path_in self.old n ++ arc.feat.0 ∷ []) (path_in self.old arc.to.0)) }
        ensures { AreSound given.entry self.new }
    {
        match self.arc_end(given, n, arc.feat) {
            Some(end) => self.add_pair(given, end, arc.to.0),
            None => self.add_arc(given, n, arc),
        }
    }

    // A node has an arc of the graph's node. It leads to `hint`, if that was made for the arc's end, else to a new node. The
    // answer is where it leads.
    fn copy_arc(
        &mut self,
        alloc: Global,
        given: Given<'_>,
        n: u32,
        k: usize,
        hint: u32,
    ) -> Result<u32, NoMemory>
        requires { AreSound given self.old }
        ensures { AreSound given.entry self.new }
    {
        let Some(image) = self.image_at(given, n) else {
            return Ok(hint);
        };
        let Some(arc) = image_arc(given, image, k) else {
            return Ok(hint);
        };
        if self.depth(n) >= given.most() {
            return Ok(hint);
        }
        let end = Image {
            part: image.part,
            node: arc.to.0,
        };
        let to = self.image_node(alloc, given, n, arc.feat, end, hint)?;
        let to_node = GraphNode(to);
        self.link(
            given,
            n,
            GraphArc {
                feat: arc.feat,
                to: to_node,
            },
        )?;
        Ok(to)
    }

    // How many arcs the graph's node of a node has, and where one leads.
    fn arc_target(&self, given: Given<'_>, n: u32, k: usize) -> Option<u32>
        requires { AreSound given self.now }
    {
        let image = self.image_at(given, n)?;
        let arc = image_arc(given, image, k)?;
        Some(arc.to.0)
    }

    // A node has all arcs of the graph's node.
    fn copy_arcs(
        &mut self,
        alloc: Global,
        given: Given<'_>,
        n: u32,
        spots: &mut [u32],
    ) -> Result<(), NoMemory>
        requires { AreSound given self.old }
        ensures { AreSound given.entry self.new }
    {
        for k in 0..usize::MAX {
            let Some(target) = self.arc_target(given, n, k) else {
                return Ok(());
            };
            let end = self.copy_arc(alloc, given, n, k, spot(spots, target))?;
            set_spot(spots, target, end);
        }
        Err(NoMemory)
    }

    // A part is loaded.
    fn load(&mut self, alloc: Global, given: Given<'_>, i: u32) -> Result<(), NoMemory>
        requires sound { AreSound given self.old }
        requires part { i < length given.parts.now }
        ensures { AreSound given.entry self.new }
    {
        let first = self.size();
        self.enter(alloc, given, i)?;
        let count = graph_of(given, i).nodes();
        let mut spots = vec![in alloc; NONE; count as usize]?;
        for n in first..NONE {
            if n >= self.size() {
                return Ok(());
            }
            self.copy_type(given, n)?;
            self.copy_arcs(alloc, given, n, &mut spots)?;
        }
        Err(NoMemory)
    }

    /// All parts are loaded.
    pub fn load_all(&mut self, alloc: Global, given: Given<'_>) -> Result<(), NoMemory>
        requires { AreSound given self.old }
        ensures { AreSound given.entry self.new }
    {
        if given.parts.len() >= NONE as usize {
            return Err(NoMemory);
        }
        for i in 0..given.parts.len() as u32 {
            self.load(alloc, given, i)?;
        }
        Ok(())
    }
}
