//! How heads are read.
ghost use Rattle.std.specs.Prelude.{◌≡◌, List};
ghost use Rattle.c_cond.specs.c_words.declared.head.CondHead.{CondHead};
ghost use Rattle.c_eval.specs.declared.reading.Reading.{Reading};

use crate::reading::Reading;
use c_cond::CondHead;

/// Reads heads.
pub trait Reads {
    /// What a head is read as, with what its parts are read as.
    ghost read_by: { Self → CondHead → List Reading → Reading };

    /// What the head is read as, where its parts are read so.
    fn read(&self, head: &CondHead, parts: &[Reading]) -> Reading
        ensures { result ≡ read_by self.now head.now parts.now };
}
