ghost use Rattle.std.specs.Prelude.{◌≡◌, ◌↔◌, IsTrue};
ghost use Rattle.cfs_dir.specs.Name.{AreNameBytes, is_name_byte};

/// Whether a byte may stand in a name.
pub(crate) fn is_name_byte(byte: u8) -> bool
    ensures { result ≡ is_name_byte byte }
{
    byte.is_ascii_alphanumeric() || matches!(byte, b'.' | b'_' | b'-')
}

/// Whether all these bytes may stand in a name.
pub(crate) fn are_name_bytes(bytes: &[u8]) -> bool
    ensures { IsTrue result ↔ AreNameBytes bytes.now }
{
    bytes.iter().all(|byte| is_name_byte(*byte))
}
