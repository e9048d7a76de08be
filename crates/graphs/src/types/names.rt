ghost use Rattle.std.specs.Prelude.{◌≡◌, ◌≤◌, length};
ghost use Rattle.graphs.specs.Graphs.{spelled};

use crate::types::Name;
use std::alloc::AllocError;

impl Name {
    // A name with these bytes.
    pub(crate) fn new(text: &[u8]) -> Name
        requires { (1 ≤ length text.now) × (length text.now ≤ 31) }
        ensures { spelled result ≡ text.now }
    {
        let len = text.len();
        let mut bytes = [0u8; 31];
        bytes[..len].copy_from_slice(text);
        Name { bytes, len }
    }

    // The bytes of the name, 1 to 31 of them.
    pub fn as_bytes(&self) -> &[u8]
        ensures is { result.now ≡ spelled self.now }
        ensures short { (1 ≤ length result.now) × (length result.now ≤ 31) }
    {
        &self.bytes[..self.len]
    }
}

// A clone is the same name. It is written out, so that an edit can change it and has to be refused.
impl Clone for Name {
    ghost is_clone = { λ n m. m ≡ n };

    fn clone(&self) -> Result<Name, AllocError> {
        let bytes = self.bytes;
        Ok(Name {
            bytes,
            len: self.len,
        })
    }
}
