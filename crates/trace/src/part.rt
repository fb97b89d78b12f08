// A part of the trace text, with its place in it.
ghost use Rattle.std.specs.Prelude.{◌≡◌, ◌+◌, ◌^◌, ◌<◌, ◌∷◌, length};

#[derive(Clone, Copy, Debug)]
pub(crate) struct Part<'a> {
    pub(crate) bytes: &'a [u8],
    // The place of its first byte.
    pub(crate) at: usize,
    ghost fits: { at + length bytes.now < 2 ^ 64 },
}

impl<'a> Part<'a> {
    ghost use Rattle.trace.specs.Meanings.{piece, parted, parts_left, EndsAs};

    // The first piece, and what follows the byte after it, if there is such a byte.
    pub(crate) fn split(self, byte: u8) -> (Part<'a>, Option<Part<'a>>)
        ensures pieces { parted byte self.entry ≡ piece result.0 ∷ parts_left byte result.1 }
        ensures rest { EndsAs self.entry result.0 result.1 }
    {
        let Part { bytes, at } = self;
        match bytes.iter().position(|b| *b == byte) {
            None => (self, None),
            Some(i) => (
                Part {
                    bytes: &bytes[..i],
                    at,
                },
                Some(Part {
                    bytes: &bytes[i + 1..],
                    at: at + i + 1,
                }),
            ),
        }
    }
}
