// What is kept of the line that isn't complete yet.

ghost use Rattle.std.specs.Prelude.{◌≤◌};
ghost use Rattle.lines.specs.Feeding.{kept_bytes};

use crate::KEPT_BYTES;

// Its bytes stand at the front of an array. No `ArrayVec`: that is never `Copy`, and a session is.
#[derive(Clone, Copy)]
pub struct Kept {
    bytes: [u8; KEPT_BYTES],
    count: usize,
    ghost fits: { count ≤ kept_bytes },
}

impl Kept {
    ghost use Rattle.std.specs.Prelude.{◌≡◌, []};
    ghost use Rattle.session.specs.Sessions.{kept_line};
    ghost use Rattle.session.specs.Taking.{kept_of};

    // No byte.
    pub(crate) fn none() -> Kept
        ensures { kept_line result ≡ [] }
    {
        Kept {
            bytes: [0; KEPT_BYTES],
            count: 0,
        }
    }

    // The line so far.
    pub(crate) fn as_slice(&self) -> &[u8]
        ensures { result.now ≡ kept_line self.now }
    {
        &self.bytes[..self.count]
    }

    // Keeps more bytes of the line, as many as there is room for.
    pub(crate) fn add(&mut self, bytes: &[u8])
        ensures { kept_line self.new ≡ kept_of (kept_line self.old) bytes.now }
    {
        let begin = self.count;
        let more = (KEPT_BYTES - begin).min(bytes.len());
        let end = begin + more;
        self.bytes[begin..end].copy_from_slice(&bytes[..more]);
        self.count = end;
    }

    // The next line begins.
    pub(crate) fn clear(&mut self)
        ensures { kept_line self.new ≡ [] }
    {
        self.count = 0;
    }
}
