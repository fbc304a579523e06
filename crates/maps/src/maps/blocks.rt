// The blocks of a layout, and their homes.
ghost use Rattle.std.specs.Prelude.{◌≡◌, ◌<◌};
ghost use Rattle.maps.specs.Homes.{HomesPlaced};
ghost use Rattle.maps.specs.Places.{blocks, home};

use crate::maps::Maps;
use crate::rules::homes_in;

impl Maps {
    // How many blocks there are: as many as the prime areas have sectors.
    pub fn block_count(&self) -> u32
        ensures count { result ≡ blocks self.now.layout }
        ensures homes { HomesPlaced self.now.layout }
    {
        homes_in(self.bands()) as u32
    }

    // The home of a block. Blocks number the prime sectors, band by band.
    pub fn home_of(&self, block: u32) -> u32
        requires { block < blocks self.now.layout }
        ensures home { result ≡ home self.now.layout block }
        ensures homes { HomesPlaced self.now.layout }
    {
        let mut rest = block;
        // The block is found in a band that is in use. To go over all eight costs less: the compiler unrolls the loop.
        for band in &self.layout.bands {
            let primes = band.prime_area();
            if rest < primes.size {
                return primes.sector_at(rest);
            }
            rest -= primes.size;
        }
        unreachable()
    }
}
