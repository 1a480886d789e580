// What of a job is known before its bytes are, and fixes its parts and its rounds.
ghost use Rattle.std.specs.Prelude.{◌≤◌};
ghost use Rattle.instances.specs.Limits.{most_assoc, most_text};

// An instance, a direction, and the lengths of associated data and text, within their limits. Written out wherever one is made of another:
// the language has no `..` for a struct with ghost fields.
#[derive(Clone, Copy)]
pub struct Outline {
    pub instance: u32,
    pub sealing: bool,
    pub assoc: u32,
    pub text: u32,
    pub ghost assoc_limit: { assoc ≤ most_assoc },
    pub ghost text_limit: { text ≤ most_text },
}
