// The guard over the work area: whatever is written there is gone when it ends.
ghost use Rattle.std.specs.Prelude.{◌≡◌, replicate};

pub(crate) struct Wipe<'a> {
    pub(crate) bytes: &'a mut [u8; 256],
}

impl Drop for Wipe<'_> {
    fn drop(self)
        ensures { self.exit.0.now ≡ replicate 256 0 }
    {
        self.bytes.fill(0);
        let Wipe { bytes: _ } = self;
    }
}
