// Units of time, one struct for each, so that seconds and milliseconds cannot be passed for each other. What is promised of them is in
// specs/Promises.antt.
#![tactic(auto)]

ghost use Rattle.std.specs.Prelude.{◌≡◌, ltb};
ghost use Rattle.time.specs.Time.{whole_seconds, in_milliseconds, plus_at_most, sum_held, margin_between};

// A number of seconds: a moment, counted from 1970, or a length of time.
#[derive(Clone, Copy, PartialEq, Eq, PartialOrd, Ord)]
pub struct Seconds(pub u64);

// A number of milliseconds: a moment, counted from 1970, or a length of time.
#[derive(Clone, Copy, PartialEq, Eq, PartialOrd, Ord)]
pub struct Milliseconds(pub u64);

// A signed number of milliseconds: how long it is to a moment, below zero where the moment has passed.
#[derive(Clone, Copy)]
pub struct Margin(pub i64);

// How many milliseconds a second has.
const PER_SECOND: u64 = 1000;

// The most that a margin has, either way.
const MOST_MARGIN: u64 = i64::MAX as u64;

impl Seconds {
    // Whether this is before the other, as `<` says too; a host may know it by this name.
    pub fn is_before(self, other: Seconds) -> bool
        ensures { result ≡ ltb self.0 other.0 }
    {
        self < other
    }

    // The smaller of the end and the sum, which may be more than a number holds.
    #[tactic(auto, unfolding(crate::specs::Time::plus_at_most))]
    pub fn plus_at_most(self, more: Seconds, end: Seconds) -> Seconds
        ensures { result ≡ plus_at_most self more end }
    {
        Seconds(self.0.saturating_add(more.0).min(end.0))
    }

    // The same in milliseconds, or the most that 64 bits hold where it is more.
    #[tactic(auto, unfolding(crate::specs::Time::in_milliseconds))]
    pub fn to_milliseconds(self) -> Milliseconds
        ensures { result ≡ in_milliseconds self }
    {
        Milliseconds(self.0.saturating_mul(PER_SECOND))
    }
}

impl Milliseconds {
    // Whether this is before the other, as `<` says too; a host may know it by this name.
    pub fn is_before(self, other: Milliseconds) -> bool
        ensures { result ≡ ltb self.0 other.0 }
    {
        self < other
    }

    // The sum, or the most that 64 bits hold where it is more.
    #[tactic(auto, unfolding(crate::specs::Time::sum_held))]
    pub fn plus(self, more: Milliseconds) -> Milliseconds
        ensures { result ≡ sum_held self more }
    {
        Milliseconds(self.0.saturating_add(more.0))
    }

    // How long it is from this moment to the end, below zero where the end has passed, and at most 2^63 − 1 either way.
    #[tactic(auto, unfolding(crate::specs::Time::margin_between))]
    pub fn until(self, end: Milliseconds) -> Margin
        ensures { result ≡ margin_between self end }
    {
        let ahead = end.0.saturating_sub(self.0).min(MOST_MARGIN) as i64;
        let back = self.0.saturating_sub(end.0).min(MOST_MARGIN) as i64;
        Margin(ahead - back)
    }

    // The whole seconds, rounded down.
    pub fn to_seconds(self) -> Seconds
        ensures { result ≡ whole_seconds self }
    {
        Seconds(self.0 / PER_SECOND)
    }
}
