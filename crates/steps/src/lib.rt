// What a submission and a request have in common: steps in a published order, the host's verdict, and the key's window.
#![tactic(auto)]

ghost use Rattle.std.specs.Prelude.{◌≡◌};
ghost use Rattle.steps.specs.Key.{key_open};

use time::Seconds;

// The window in which a key is valid: from a moment on and, where there is an end, up to that moment with it.
#[derive(Clone, Copy)]
pub struct Window {
    pub from: Seconds,
    pub until: Option<Seconds>,
}

// Whether the clock is in the key's window.
#[tactic(auto, unfolding(crate::specs::Key::key_open))]
pub fn key_open(window: Window, clock: Seconds) -> bool
    ensures { result ≡ key_open window clock.0 }
{
    window.from <= clock && window.until.is_none_or(|until| clock <= until)
}
