// How far a place was read.
ghost use Rattle.std.specs.Prelude.{◌≡◌, ◌+◌, ◌-◌, ◌<◌, ◌≤◌, ◌^◌};

// Where the bytes begin that are left, how many of them are shown, and how many of the piece last shown were consumed.
#[derive(Clone, Copy)]
pub(crate) struct Mark {
    position: usize,
    shown: usize,
    used: usize,
    ghost ahead: { position + shown < 2 ^ 64 },
    ghost since: { shown + used < 2 ^ 64 },
}

impl Mark {
    pub(crate) fn start() -> Mark
        ensures position { result.position ≡ 0 }
        ensures shown { result.shown ≡ 0 }
        ensures used { result.used ≡ 0 }
    {
        Mark {
            position: 0,
            shown: 0,
            used: 0,
        }
    }

    pub(crate) fn position(self) -> usize
        ensures { result ≡ self.position }
    {
        self.position
    }

    // A place at this position that shows `count` bytes.
    pub(crate) fn showing(position: usize, count: usize) -> Mark
        requires { position + count < 2 ^ 64 }
        ensures position { result.position ≡ position }
        ensures shown { result.shown ≡ count }
        ensures used { result.used ≡ 0 }
    {
        Mark {
            position,
            shown: count,
            used: 0,
        }
    }

    // The same place, of which `count` more bytes are consumed.
    pub(crate) fn after(self, count: usize) -> Mark
        requires { count ≤ self.shown }
        ensures position { result.position ≡ self.position + count }
        ensures shown { result.shown ≡ self.shown - count }
        ensures used { result.used ≡ self.used + count }
    {
        Mark {
            position: self.position + count,
            shown: self.shown - count,
            used: self.used + count,
        }
    }
}
