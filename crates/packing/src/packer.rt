// How far a packing has come, by numbers.
ghost use Rattle.std.specs.Prelude.{◌≡◌, ◌+◌, ◌≤◌, ◌<◌, ◌^◌, ◌∷◌, [], length};
ghost use Rattle.ring.specs.Records.{put};
ghost use Rattle.flushing.specs.Pack.{goes_size, datagram_size};
ghost use Rattle.packing.specs.Packer.{holding, departs, sized, closed};

// The bytes that have gone out; the bytes of the datagram that is being filled; the datagrams that have gone out.
#[derive(Clone, Copy)]
pub struct Packer {
    pub start: usize,
    pub used: usize,
    pub count: usize,
}

impl Packer {
    // Before any piece: `held` bytes wait.
    pub fn new(held: usize) -> Packer
        ensures { result ≡ holding held }
    {
        Packer {
            start: 0,
            used: held,
            count: 0,
        }
    }

    // Whether a datagram goes out before a piece of n bytes: some wait, and they and the piece exceed mtu.
    #[tactic(auto, unfolding(crate::specs::Packer::departs))]
    fn departs(self, mtu: usize, n: usize) -> bool
        requires { self.used + n < 2 ^ 32 }
        ensures { result ≡ departs mtu self.used n }
    {
        self.used > 0 && self.used + n > mtu
    }

    // A piece of n bytes, by its size alone.
    pub fn size(self, mtu: usize, n: usize) -> Packer
        requires n_bound { self.start + self.used + n < 2 ^ 32 }
        requires count_bound { self.count < 2 ^ 63 }
        ensures { result ≡ sized mtu self (n ∷ []) }
    {
        if self.departs(mtu, n) {
            return Packer {
                start: self.start + self.used,
                used: n,
                count: self.count + 1,
            };
        }
        Packer {
            used: self.used + n,
            ..self
        }
    }

    // The same, and the length of the datagram that goes out before it, if one does.
    pub fn cut(self, mtu: usize, n: usize, lengths: &mut [u16]) -> Packer
        requires n_bound { self.start + self.used + n < 2 ^ 32 }
        requires used_bound { self.used < 2 ^ 16 }
        requires n_in_bounds { self.count + length (goes_size mtu self.used n) ≤ length lengths.old }
        ensures value { result ≡ sized mtu self (n ∷ []) }
        ensures lengths_after { lengths.new ≡ put lengths.old self.count (goes_size mtu self.used n) }
    {
        if self.departs(mtu, n) {
            lengths[self.count] = self.used as u16;
        }
        self.size(mtu, n)
    }

    // The waiting bytes go out, by numbers alone.
    pub fn close(self) -> Packer
        requires used_bound { self.start + self.used < 2 ^ 32 }
        requires count_bound { self.count < 2 ^ 63 }
        ensures { result ≡ closed self }
    {
        if self.used == 0 {
            return self;
        }
        Packer {
            start: self.start + self.used,
            used: 0,
            count: self.count + 1,
        }
    }

    // The same, and the length of that last datagram, if there is one.
    pub fn finish(self, lengths: &mut [u16]) -> Packer
        requires used_bound { self.start + self.used < 2 ^ 32 }
        requires used_bound_2 { self.used < 2 ^ 16 }
        requires used_in_bounds { self.count + length (datagram_size self.used) ≤ length lengths.old }
        ensures value { result ≡ closed self }
        ensures lengths_after { lengths.new ≡ put lengths.old self.count (datagram_size self.used) }
    {
        if self.used > 0 {
            lengths[self.count] = self.used as u16;
        }
        self.close()
    }
}
