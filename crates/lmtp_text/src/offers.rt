//! How the extensions of two sites compare.

ghost use Rattle.std.specs.Prelude.{◌≡◌, true};
ghost use Rattle.lmtp_text.specs.Offers.{NoLess};

use mail_world::{BadCommand, Extensions};

/// Whether what is offered there is no less than here.
pub(crate) fn is_no_less(here: Extensions, there: Extensions) -> bool
    ensures { result ≡ true → NoLess here there }
{
    if here.utf8 && !there.utf8 {
        return false;
    }
    here.message_limit <= there.message_limit
}

/// Whether both offer UTF-8, or neither, and it isn't a size that is refused.
pub(crate) fn is_alike(why: BadCommand, here: bool, there: bool) -> bool
    ensures utf8 { result ≡ true → there ≡ here }
    ensures other { result ≡ true → why ≡ BadCommand.TooLarge → ⊥ }
{
    match why {
        BadCommand::TooLarge => false,
        _ => here == there,
    }
}
