// The functions over identifiers, resource ids and patterns. What they are and what is promised of them is in `resource_spec`.
#![tactic(auto)]

mod ids;
mod levels;
mod matcher;

pub use ids::{is_fay, is_terminal};
pub use levels::{is_pattern, is_pattern_under, is_resource};
pub use matcher::{is_deep, match_levels, match_step, match_texts, step_levels};
pub use resource_spec::{Malformed, MatchingNumbers};

// What the first levels of a pattern and of a path say where they match: they are the last; or "/" follows the p bytes of the one and the
// r bytes of the other. `names` is 1 where they are equal, and 0 where "*" matched.
#[derive(Clone, Copy)]
pub enum LevelStep {
    Finish { names: u64 },
    Next { p: usize, r: usize, names: u64 },
}
