//! The form of names.

ghost use Rattle.std.specs.Prelude.{◌≡◌};
ghost use Rattle.std.specs.List.{list_all};
ghost use Rattle.design_table.specs.Forms.{is_name_byte, is_name_text};

/// Whether a byte may stand in a name.
fn is_name_byte(byte: u8) -> bool
    ensures { result ≡ is_name_byte byte }
{
    byte.is_ascii_lowercase()
        || byte.is_ascii_uppercase()
        || byte.is_ascii_digit()
        || byte == b'_'
        || byte == b'-'
}

/// Whether all of these bytes may stand in a name.
fn are_name_bytes(bytes: &[u8]) -> bool
    ensures { result ≡ list_all is_name_byte bytes.now }
{
    bytes.iter().all(|byte| is_name_byte(*byte))
}

/// Whether a text has the form of a name.
pub(crate) fn is_name(text: &str) -> bool
    ensures { result ≡ is_name_text text.now }
{
    (1 <= text.len() && text.len() <= 32) && are_name_bytes(text.as_bytes())
}
