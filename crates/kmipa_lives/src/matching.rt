//! Objects that answers show and nothing brings, matched with the items of open calls that may have made them.

use crate::vectors::{at, put};
use std::alloc::{AllocError, Global};

/// So many objects are asked to take another maker, for one.
const MOST_ASKED: usize = 32;

/// An item of an open call that makes an object if it was done.
#[derive(Clone, Copy)]
pub struct Maker {
    pub call: usize,
    pub item: usize,
    /// The place of the call's begin mark.
    pub begin: usize,
    /// The least Time Stamp of the call.
    pub stamp: i64,
}

/// Of each object a maker that no other object has, as far as one was found.
#[derive(Drop)]
pub struct Matching {
    alloc: Global,
    /// Of each object the makers that fit.
    fits: Vec<Vec<usize>>,
    /// Of each object its maker, and of each maker its object, both from 1; 0 where there is none.
    makers: Vec<usize>,
    objects: Vec<usize>,
    /// Of each maker the object that asked for it last, and for the sake of which one, both from 1.
    by: Vec<usize>,
    met: Vec<usize>,
}

impl Matching {
    /// That of objects for which these makers fit, of so many.
    pub(crate) fn of(
        alloc: Global,
        fits: Vec<Vec<usize>>,
        count: usize,
    ) -> Result<Matching, AllocError> {
        let objects = fits.len();
        let mut matching = Matching {
            alloc,
            fits,
            makers: vec![in alloc; 0usize; objects]?,
            objects: vec![in alloc; 0usize; count]?,
            by: vec![in alloc; 0usize; count]?,
            met: vec![in alloc; 0usize; count]?,
        };
        for object in 0..objects {
            matching.give(object)?;
        }
        Ok(matching)
    }

    /// The makers of an object: its own first, then so many others that fit.
    pub(crate) fn likeliest(&self, object: usize, most: usize) -> Result<Vec<usize>, AllocError> {
        let mut makers = Vec::new(self.alloc);
        let own = at(&self.makers, object);
        if own > 0 {
            makers.push(own.saturating_sub(1))?;
        }
        if let Some(fits) = self.fits.get(object) {
            for maker in fits {
                if makers.len() < most && maker.saturating_add(1) != own {
                    makers.push(*maker)?;
                }
            }
        }
        Ok(makers)
    }

    /// Gives an object a maker, where others can take other ones.
    fn give(&mut self, object: usize) -> Result<(), AllocError> {
        let mut asked = Vec::new(self.alloc);
        asked.push(object)?;
        for next in 0..MOST_ASKED {
            let Some(other) = asked.get(next).copied() else {
                break;
            };
            if let Some(maker) = self.ask(object, other, &mut asked)? {
                self.pass_on(maker);
                break;
            }
        }
        Ok(())
    }

    /// Looks for a maker for an object, for the sake of another one: one that has none, or those whose objects are to be asked.
    fn ask(
        &mut self,
        root: usize,
        object: usize,
        asked: &mut Vec<usize>,
    ) -> Result<Option<usize>, AllocError> {
        let Some(fits) = self.fits.get(object) else {
            return Ok(None);
        };
        for maker in fits {
            if at(&self.met, *maker) == root.saturating_add(1) {
                continue;
            }
            put(&mut self.met, *maker, root.saturating_add(1));
            put(&mut self.by, *maker, object.saturating_add(1));
            match at(&self.objects, *maker) {
                0 => return Ok(Some(*maker)),
                other => asked.push(other.saturating_sub(1))?,
            }
        }
        Ok(None)
    }

    /// Gives a maker to the object that asked for it, that one's to the one that asked for that, and so on.
    fn pass_on(&mut self, last: usize) {
        let mut maker = last;
        for _ in 0..self.makers.len() {
            let object = at(&self.by, maker);
            let place = object.saturating_sub(1);
            let before = at(&self.makers, place);
            put(&mut self.makers, place, maker.saturating_add(1));
            put(&mut self.objects, maker, object);
            if before == 0 {
                break;
            }
            maker = before.saturating_sub(1);
        }
    }
}
