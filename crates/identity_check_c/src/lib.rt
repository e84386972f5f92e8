// The exports of identity_check, for a host in another language: libidentity_check.a.
#![tactic(auto)]

ghost use Rattle.std.specs.Prelude.{◌≡◌};
ghost use Rattle.identity.specs.Utf8.{utf8};
ghost use Rattle.identity.specs.Identity.{valid_id};

// Whether a text is UTF-8.
#[unsafe(no_mangle)]
pub extern "C" fn is_utf8_text(text: &[u8]) -> bool
    ensures { result ≡ utf8 text.now }
{
    identity_check::is_utf8_text(text)
}

// Whether a text is a valid identity.
#[unsafe(no_mangle)]
pub extern "C" fn valid_id_text(text: &[u8]) -> bool
    ensures { result ≡ valid_id text.now }
{
    identity_check::valid_id_text(text)
}
