// Records in strictly rising order of their keys.
ghost use Rattle.std.specs.Prelude.{◌≡◌, ℕ, map, Decides, nat_lt};
ghost use Rattle.medium.specs.Order.{Rising};

// A record that is ordered by a number.
pub trait Keyed {
    ghost keyed: { Self → ℕ };

    fn key(&self) -> u32
        ensures { result ≡ keyed self.now };
}

// Whether each key is strictly below the next one.
pub fn rising<R: Keyed>(records: &[R]) -> bool
    ensures { Decides result (Rising (map R.Keyed.keyed records.now)) }
{
    records.is_sorted_by(is_below)
}

fn is_below<R: Keyed>(a: &R, b: &R) -> bool
    ensures { result ≡ nat_lt (R.Keyed.keyed a.now) (R.Keyed.keyed b.now) }
{
    a.key() < b.key()
}
