//! When a session has idled away: its slot word is noted, and looked at again later.
#![tactic(auto)]

ghost use Rattle.std.specs.Prelude.{◌≡◌};
ghost use Rattle.expiry.specs.Verdicts.{verdict};

/// A slot word, and the moment at which it was noted, in nanoseconds.
#[derive(Clone, Copy, Debug, PartialEq, Eq)]
pub struct Note {
    pub word: u64,
    pub moment: u64,
}

/// What a look at a noted session leads to.
#[derive(Clone, Copy, Debug, PartialEq, Eq)]
pub enum Verdict {
    /// The word is as noted, and the wait has not passed.
    Keep,
    /// The word has changed: it is to be noted anew.
    Renew,
    /// The word is as noted, and the wait has passed.
    Expire,
}

/// What follows where the word is found at the moment `now`, in nanoseconds, of a session that may idle for `wait`
/// nanoseconds. A wait of 0 never passes, and before the moment of the note nothing has passed.
#[tactic(auto, unfolding(crate::specs::Verdicts::verdict))]
pub fn judge_note(note: &Note, word: u64, now: u64, wait: u64) -> Verdict
    ensures { result ≡ verdict note.now word now wait }
{
    if word != note.word {
        return Verdict::Renew;
    }
    if wait != 0 && note.moment <= now && wait <= now - note.moment {
        Verdict::Expire
    } else {
        Verdict::Keep
    }
}

#[cfg(test)]
mod tests {
    use super::*;

    #[test]
    fn a_session_expires_after_its_wait_and_not_before(rt: HostRuntime) {
        let last = u64::MAX;
        for (moment, word, now, wait, want) in [
            (0, 7, 10, 10, Verdict::Expire),
            (0, 7, 9, 10, Verdict::Keep),
            (0, 8, 10, 10, Verdict::Renew),
            (10, 7, 0, 10, Verdict::Keep),
            (0, 7, last, 0, Verdict::Keep),
            (last, 7, last, 1, Verdict::Keep),
            (0, 7, last, last, Verdict::Expire),
            (1, 7, last, last, Verdict::Keep),
        ] {
            let note = Note { word: 7, moment };
            assert_eq!(rt; judge_note(&note, word, now, wait), want);
        }
    }
}
