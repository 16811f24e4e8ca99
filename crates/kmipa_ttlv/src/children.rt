//! The children of a structure, one after the other.

ghost use Rattle.std.specs.Prelude.{◌≡◌, ◌≤◌, ◌∷◌, ℕ, [], length, MatchOption, IfSome, IfNone};
ghost use Rattle.kmipa_ttlv.specs.Tree.{none, more, every};
ghost use Rattle.kmipa_ttlv.specs.ItemTree.{trees};
ghost use Rattle.kmipa_ttlv.specs.Spelled.{items_at};
ghost use Rattle.kmipa_ttlv.specs.ViewTree.{view_tree, view_trees, from_tag};

use crate::item::Item;
use crate::lending::lend;
use crate::spelled::{front_of, front_view};
use crate::view::{Children, Source, View};

impl<'a> Children<'a> {
    /// No children.
    pub fn none() -> Children<'a>
        ensures { view_trees result ≡ none }
    {
        Children {
            source: Source::Spelled(&[]),
        }
    }

    /// The items that these bytes spell, which were tested before; of other bytes those that are read in place.
    pub fn spelled(bytes: &'a [u8]) -> Children<'a>
        ensures { view_trees result ≡ items_at bytes.now }
    {
        Children {
            source: Source::Spelled(bytes),
        }
    }

    /// The next child, after which the others are left; `None` where none is left, then and from then on.
    #[inline(always)]
    pub fn next(&mut self) -> Option<View<'a>>
        ensures { MatchOption result ((view_trees self.old ≡ none) × (view_trees self.new ≡ none))
            (λ v. view_trees self.old ≡ more (view_tree v) (view_trees self.new)) }
    {
        match self.source {
            Source::Spelled(bytes) => {
                let Some((view, rest)) = front_view(bytes) else {
                    return None;
                };
                self.source = Source::Spelled(rest);
                Some(view)
            }
            Source::Lent(items) => {
                let Some((item, rest)) = items.split_first() else {
                    return None;
                };
                self.source = Source::Lent(rest);
                Some(lend(item))
            }
        }
    }

    /// The next child with this tag, after which those behind it are left; after `None` none is left.
    #[inline(always)]
    pub fn next_of(&mut self, tag: u32) -> Option<View<'a>>
        ensures next { MatchOption result (every tag (view_trees self.old) ≡ [])
            (λ v. every tag (view_trees self.old) ≡ view_tree v ∷ every tag (view_trees self.new)) }
        ensures tag { IfSome result (λ v. v.tag.number ≡ tag) }
        ensures end { IfNone result (view_trees self.new ≡ none) }
    {
        match self.source {
            Source::Spelled(bytes) => {
                let Some((view, others)) = front_of(bytes, tag) else {
                    self.source = Source::Spelled(&[]);
                    return None;
                };
                self.source = Source::Spelled(others);
                Some(view)
            }
            Source::Lent(items) => {
                self.source = Source::Lent(lent_from(items, tag));
                self.next()
            }
        }
    }

    /// How many children with this tag are left.
    pub fn count_of(self, tag: u32) -> usize
        ensures { result ≡ length (every tag (view_trees self.entry)) }
    {
        let most = self.most();
        let mut left = self;
        let mut count = 0;
        'children: while left.next_of(tag).is_some() {
            count += 1;
        }
        count
    }

    /// No more children than this are left.
    fn most(&self) -> usize
        ensures { (tag : ℕ) → length (every tag (view_trees self.now)) ≤ result }
    {
        match self.source {
            Source::Spelled(bytes) => bytes.len(),
            Source::Lent(items) => items.len(),
        }
    }
}

/// The items from the first with this tag on.
fn lent_from(items: &[Item], tag: u32) -> &[Item]
    ensures { trees result.now ≡ from_tag tag (trees items.now) }
{
    let mut rest = items;
    'items: while let Some((item, others)) = rest.split_first() {
        if item.tag.number == tag {
            return rest;
        }
        rest = others;
    }
    rest
}
