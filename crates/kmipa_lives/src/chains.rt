//! Chains of changes of one object.

ghost use Rattle.kmipa_store.specs.Choices.{IsSound};

use crate::stories::Story;
use crate::trying::try_change;
use kmipa_store::Ledger;
use std::alloc::{AllocError, Global};

/// So many chains of an object are looked at.
const MOST_CHAINS: usize = 200;

/// So many items of an object are tried, one chain with another.
const MOST_TRIES: usize = 200_000;

/// So many changes has a chain at most.
const MOST_CHANGES: usize = 30;

/// The groups that may change the object, and of these the ones that do wherever they are possible.
#[derive(Drop)]
struct Changes {
    all: Vec<usize>,
    needed: Vec<usize>,
}

/// The chains of groups that change the object one after the other, each with all that are needed; none where there are too many, or the first of them where calls may be open.
pub(crate) fn chains_of<L: Ledger>(
    alloc: Global,
    ledger: &mut L,
    story: &Story<'_>,
) -> Result<Vec<Vec<usize>>, AllocError>
    requires { IsSound (L.state ledger.old).now }
    ensures { IsSound (L.state ledger.new).now }
{
    let changes = Changes::of(alloc, story)?;
    let mut chains = Vec::new(alloc);
    if changes.needed.len() > MOST_CHANGES {
        return Ok(chains);
    }
    chains.push(Vec::new(alloc))?;
    'chains: for place in 0..most_chains(story.groups.len()) {
        let Some(chain) = chains.get(place) else {
            return whole_ones(alloc, &changes, &chains);
        };
        let chain = chain.clone()?;
        let mut longer = longer_ones(alloc, ledger, story, &changes, &chain)?;
        chains.append(&mut longer)?;
    }
    if story.recording.is_open {
        return whole_ones(alloc, &changes, &chains);
    }
    Ok(Vec::new(alloc))
}

impl Changes {
    fn of(alloc: Global, story: &Story<'_>) -> Result<Changes, AllocError> {
        let mut all = Vec::new(alloc);
        let mut needed = Vec::new(alloc);
        for (place, group) in story.groups.iter().enumerate() {
            if group.is_change {
                all.push(place)?;
            }
            if group.is_needed {
                needed.push(place)?;
            }
        }
        Ok(Changes { all, needed })
    }

    /// Whether a chain has each group that is needed.
    fn are_in(&self, chain: &[usize]) -> bool {
        self.needed
            .iter()
            .all(|group| chain.iter().any(|own| *own == *group))
    }
}

/// So many chains are looked at where there are so many groups.
fn most_chains(groups: usize) -> usize {
    match MOST_TRIES.checked_div(groups) {
        Some(most) => most.clamp(2, MOST_CHAINS),
        None => MOST_CHAINS,
    }
}

/// The chains that have each group that is needed.
fn whole_ones(
    alloc: Global,
    changes: &Changes,
    chains: &[Vec<usize>],
) -> Result<Vec<Vec<usize>>, AllocError> {
    let mut whole = Vec::new(alloc);
    for chain in chains {
        if changes.are_in(chain) {
            whole.push(chain.clone()?)?;
        }
    }
    Ok(whole)
}

/// The chains that are one longer than this.
fn longer_ones<L: Ledger>(
    alloc: Global,
    ledger: &mut L,
    story: &Story<'_>,
    changes: &Changes,
    chain: &[usize],
) -> Result<Vec<Vec<usize>>, AllocError>
    requires { IsSound (L.state ledger.old).now }
    ensures { IsSound (L.state ledger.new).now }
{
    let mut longer = Vec::new(alloc);
    if chain.len() >= MOST_CHANGES {
        return Ok(longer);
    }
    'groups: for group in &changes.all {
        if !may_follow(story, changes, chain, *group) {
            continue;
        }
        let Some(one) = longer_by(alloc, ledger, story, chain, *group)? else {
            continue;
        };
        longer.push(one)?;
    }
    Ok(longer)
}

/// The chain with a group behind it, where it is possible there and changes the object.
fn longer_by<L: Ledger>(
    alloc: Global,
    ledger: &mut L,
    story: &Story<'_>,
    chain: &[usize],
    group: usize,
) -> Result<Option<Vec<usize>>, AllocError>
    requires { IsSound (L.state ledger.old).now }
    ensures { IsSound (L.state ledger.new).now }
{
    if !try_change(alloc, ledger, story, chain, group)? {
        return Ok(None);
    }
    let mut longer = Vec::from_slice(alloc, chain)?;
    longer.push(group)?;
    Ok(Some(longer))
}

/// Whether a group may come next behind a chain, as far as times say.
fn may_follow(story: &Story<'_>, changes: &Changes, chain: &[usize], group: usize) -> bool {
    let time = story.time(group);
    let is_late = chain.iter().any(|other| story.is_of_call(*other, group)
        || time.is_before(story.time(*other)));
    !is_late
        && !changes.needed.iter().any(|other| {
            !chain.iter().any(|own| *own == *other) && story.time(*other).is_before(time)
        })
}
