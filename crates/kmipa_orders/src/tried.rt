//! How far the tries at a place of a search have come.

/// How far the tries at a place of a search have come. A next call was tried if it begins ahead of `from`, or if its rank among the wishes
/// is at most `done`; where the place is closed, none is left to try.
#[derive(Clone, Copy, Drop)]
pub struct Tried {
    pub from: usize,
    pub done: usize,
    pub closed: bool,
}

impl Tried {
    ghost use Rattle.std.specs.Prelude.{◌≡◌};
    ghost use Rattle.kmipa_orders.specs.Tries.{all_tried, none_tried};

    /// No call was tried.
    pub fn none() -> Tried
        ensures { result ≡ none_tried }
    {
        Tried {
            from: 0,
            done: 0,
            closed: false,
        }
    }

    /// None is left to try.
    pub fn all() -> Tried
        ensures { result ≡ all_tried }
    {
        Tried {
            from: 0,
            done: 0,
            closed: true,
        }
    }
}

/// Where a call is picked: how far the tries at the place have come, how many calls are left there, and whether the search is late.
#[derive(Clone, Copy, Drop)]
pub struct Trying {
    pub tried: Tried,
    pub left: usize,
    pub late: bool,
}

/// The call that is tried next, and how far the tries have come with it.
#[derive(Clone, Copy, Drop)]
pub struct Pick {
    pub place: usize,
    pub tried: Tried,
}

/// A call that was taken.
#[derive(Clone, Copy, Drop)]
pub struct Visit {
    pub place: usize,
    /// How far the tries before it had come with it.
    pub tried: Tried,
    /// Whether it is without effect.
    pub idle: bool,
}

impl Visit {
    ghost use Rattle.kmipa_orders.specs.Tries.{IsBehind};

    /// What is left to try once the call was given back. Late, a call without effect closes its place: whatever run there is without it at
    /// this place, there is one in which it comes first.
    #[inline(always)]
    pub fn behind(&self, late: bool) -> Tried
        ensures { IsBehind self.now result }
    {
        if late {
            if self.idle {
                return Tried {
                    from: 0,
                    done: 0,
                    closed: true,
                };
            }
        }
        self.tried
    }
}
