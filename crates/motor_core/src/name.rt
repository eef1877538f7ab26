// Names as byte strings.
ghost use Rattle.std.specs.Prelude.{◌≡◌};
ghost use Rattle.text.specs.Text.{same};
ghost use Rattle.motor_core.specs.Name.{name_from, spelling, spell_same};

use text::same_bytes;

// The first `len` bytes are the name; the others count for nothing, and `new` puts spaces there. The bytes
// are fixed: the core has no heap.
#[derive(Clone, Copy)]
pub struct Name {
    pub bytes: [u8; 15],
    pub len: u8,
}

impl Name {
    // The name that spells the text, or its first 15 bytes where there are more.
    #[tactic(auto, unfolding(crate::specs::Name::name_from))]
    pub fn new(text: &[u8]) -> Name
        ensures { result ≡ name_from text.now }
    {
        let mut bytes = [b' '; 15];
        let len = text.len().min(bytes.len());
        bytes[..len].copy_from_slice(&text[..len]);
        Name {
            bytes,
            len: len as u8,
        }
    }

    // The bytes that it spells: the first `len`, or all where there are no more.
    pub fn as_bytes(&self) -> &[u8]
        ensures { result.now ≡ spelling self.now }
    {
        let len = usize::from(self.len).min(self.bytes.len());
        &self.bytes[..len]
    }

    pub fn spells(&self, bytes: &[u8]) -> bool
        ensures { result ≡ same (spelling self.now) bytes.now }
    {
        same_bytes(self.as_bytes(), bytes)
    }
}

// Names are equal where they spell the same.
impl PartialEq for Name {
    ghost use Rattle.std.proofs.Common.{rules};
    ghost use Rattle.std.specs.Cmp.Rules.{comparing};

    ghost eq = { spell_same };

    ghost laws = { Prim.search (comparing, rules) };

    fn eq(&self, other: &Name) -> bool {
        self.as_bytes() == other.as_bytes()
    }
}

impl Eq for Name {
    ghost use Rattle.std.proofs.Common.{rules};
    ghost use Rattle.std.specs.Cmp.Rules.{comparing};

    ghost laws = { Prim.search (comparing, rules) };
}
