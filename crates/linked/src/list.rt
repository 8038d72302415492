// A part that chains its versions by index, in nodes that the caller lends. No version is ever moved.
ghost use Rattle.std.specs.Prelude.{◌≡◌, ◌<◌, ◌≤◌, min, true, [], length, None};
ghost use Rattle.std.proofs.Common.{rules};
ghost use Rattle.linked.specs.Chains.{Chained, Within, begins, chain, versions, gap_at, put, version_at};
ghost use Rattle.version.specs.Lists.{Reaches, first_from, insert, memory_place};
ghost use Rattle.version.specs.Order.{place_of};

use crate::node::{Gap, Node};
use version::{Kind, Memory, NotTaken, Part, Place, TakingPart, Version, is_free, taking};

// The nodes that hold versions are the first ones of the slice, as they came. A chain of links through them keeps
// version order, so that a taking writes one new node and changes one link. Links are indices, and the count stands
// beside the nodes, since all memory is lent and nothing allocates.
#[derive(Drop)]
pub struct LinkedList<'a> {
    nodes: &'a mut [Node],
    // as many nodes, from the first on, are in the chain; none leaves it before the list is cleared
    used: usize,
    first: Option<u16>,
    ghost few: { length nodes.now ≤ 1024 },
    ghost room: { used ≤ length nodes.now },
    ghost chained: { Chained nodes.now used first },
}

impl<'a> LinkedList<'a> {
    // An empty list in the nodes lent, of which the first 1,024 serve.
    pub fn new(nodes: &'a mut [Node]) -> LinkedList<'a>
        ensures empty { versions result.nodes.now result.first ≡ [] }
        ensures limit { length result.nodes.now ≡ min (length nodes.old) 1024 }
    {
        let limit = nodes.len().min(Memory::MOST);
        LinkedList {
            nodes: &mut nodes[0..limit],
            used: 0,
            first: None,
        }
    }

    // The gap in the chain where a place stands: each node in front of it stands before the place, and none behind it does.
    fn gap(&self, place: Place) -> Gap
        ensures stands { result ≡ gap_at self.now.nodes.now place None (chain self.now.nodes.now self.now.first) }
        ensures before { Within (length self.now.nodes.now) result.before }
        ensures after { Within (length self.now.nodes.now) result.after }
        ensures reaches { Reaches place (version_at self.now.nodes.now result.after) }
        ensures answer { version_at self.now.nodes.now result.after ≡ first_from (versions self.now.nodes.now self.now.first) place }
    {
        let mut before = None;
        let mut after = self.first;
        while let Some(i) = after {
            let node = self.nodes[i as usize];
            if !node.version.place().is_before(place) {
                break;
            }
            before = after;
            after = node.next;
        }
        Gap { before, after }
    }

    // The version that a link leads to, if any.
    fn version_at(&self, link: Option<u16>) -> Option<Version>
        requires { Within (length self.now.nodes.now) link }
        ensures { result ≡ version_at self.now.nodes.now link }
    {
        let i = link?;
        Some(self.nodes[i as usize].version)
    }

    // Whether the version, which stands in the gap, is numbered, and none has its point and number already.
    #[tactic(auto, using(version::proofs::Takings::free_found))]
    fn has_place(&self, gap: Gap, version: Version) -> bool
        requires after { Within (length self.now.nodes.now) gap.after }
        requires answer { version_at self.now.nodes.now gap.after ≡ first_from (versions self.now.nodes.now self.now.first) (place_of version) }
        ensures { result ≡ memory_place (versions self.now.nodes.now self.now.first) version }
    {
        is_free(version, self.version_at(gap.after))
    }

    // Chains a node for the version into the gap where the version stands.
    fn link(&mut self, gap: Gap, version: Version)
        requires gap { gap ≡ gap_at self.old.nodes.now (place_of version) None (chain self.old.nodes.now self.old.first) }
        requires before { Within (length self.old.nodes.now) gap.before }
        requires placed { memory_place (versions self.old.nodes.now self.old.first) version ≡ true }
        requires room { self.old.used < length self.old.nodes.now }
        ensures list { versions self.new.nodes.now self.new.first ≡ insert (versions self.old.nodes.now self.old.first) version }
        ensures same { length self.new.nodes.now ≡ length self.old.nodes.now }
        ensures nodes { self.new.nodes.now ≡ put self.old.nodes.now self.old.used version gap }
        ensures first { self.new.first ≡ begins self.old.first gap.before self.old.used }
    {
        let link = Some(self.used as u16);
        self.nodes[self.used] = gap.node(version);
        match gap.before {
            Some(before) => self.nodes[before as usize].next = link,
            None => self.first = link,
        }
        self.used += 1;
    }
}

impl Part for LinkedList<'_> {
    ghost versions = { λ t. versions t.nodes.now t.first };

    ghost most = { λ t. length t.nodes.now };

    ghost kept = { λ t. record { ordered = t.chained.ordered; proper = t.chained.proper; within = Prim.search rules } };

    fn count(&self) -> usize {
        self.used
    }

    fn limit(&self) -> usize {
        self.nodes.len()
    }

    fn first_from(&self, place: Place) -> Option<Version> {
        self.version_at(self.gap(place).after)
    }

    fn clear(&mut self) {
        self.used = 0;
        self.first = None;
    }
}

impl TakingPart<Memory> for LinkedList<'_> {
    fn take(&mut self, version: Version) -> Result<(), NotTaken> {
        let gap = self.gap(version.place());
        taking(self.has_place(gap, version), self.count(), self.limit())?;
        self.link(gap, version);
        Ok(())
    }
}
