//! What is printed of a certificate before a drawing, one line each.

ghost use Rattle.std.specs.Prelude.{◌≡◌};
ghost use Rattle.dwg_messages.specs.Acceptance as texts;

/// The certificate is one of the drawing's objects.
#[tactic(auto, unfolding(crate::specs::Acceptance::accept_yes))]
pub fn accept_yes() -> &'static [u8]
    ensures { result.now ≡ texts.accept_yes }
{
    b"accept yes\n"
}

/// The certificate isn't one of the drawing's objects.
#[tactic(auto, unfolding(crate::specs::Acceptance::accept_no))]
pub fn accept_no() -> &'static [u8]
    ensures { result.now ≡ texts.accept_no }
{
    b"accept no\n"
}
