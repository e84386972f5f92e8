// The two tests of an identity's text, as hosts in other languages ask them.
#![tactic(auto)]

ghost use Rattle.std.specs.Prelude.{◌≡◌};
ghost use Rattle.identity.specs.Utf8.{utf8};
ghost use Rattle.identity.specs.Identity.{valid_id};

// Whether a text is UTF-8.
pub fn is_utf8_text(text: &[u8]) -> bool
    ensures { result ≡ utf8 text.now }
{
    identity::scan::is_utf8(text)
}

// Whether a text is a valid identity.
pub fn valid_id_text(text: &[u8]) -> bool
    ensures { result ≡ valid_id text.now }
{
    identity::scan::valid_id(text)
}
